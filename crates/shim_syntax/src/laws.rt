// Laws of the names of a program, and of its size.
ghost use Rattle.std.specs.Prelude.{List, [], ◌≡◌, ◌≤◌};
ghost use Rattle.shim_syntax.specs.Distinct.{AreDistinct};
ghost use Rattle.shim_syntax.specs.Names.{with_functions, with_texts};
ghost use Rattle.shim_syntax.specs.Occurrences.{identifiers};
ghost use Rattle.shim_syntax.specs.ShortText.{HasText};
ghost use Rattle.shim_syntax.specs.Sizes.{functions_size};
ghost use Rattle.shim_syntax.specs.declared.tree.Function.{Function};
ghost use Rattle.shim_syntax.specs.declared.tree.Program.{Program};

/// The list of a program's names has none twice.
pub fn names_stand_once()
    ensures { (fs : List Function) → AreDistinct (with_functions fs []) }
{}

/// The list of a program's names takes in the identifiers of the text from the first on, each where
/// the list doesn't have it yet.
pub fn names_are_the_identifiers()
    ensures { (fs : List Function) → with_functions fs [] ≡ with_texts (identifiers fs) [] }
{}

/// The size of a program that has a text of at most 1 MiB is at most the number of bytes that such a
/// text may have, and one for its end. So its counts fit 32 bits.
pub fn size_is_bounded()
    ensures { (p : Program) → HasText p → functions_size p.functions ≤ 1048577 }
{}
