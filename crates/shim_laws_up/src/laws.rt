// Laws of identifiers that are replaced, and of a program in version 2.
ghost use Rattle.std.specs.Prelude.{ℕ, List, [], ◌≡◌, ◌<◌, ◌^◌, codes, Ok};
ghost use Rattle.std.specs.Str.{bytes_eq};
ghost use Rattle.shim_base.specs.Tokens.{Place};
ghost use Rattle.shim_syntax.specs.Grammar.{TextCounts, IsFunctions};
ghost use Rattle.shim_syntax.specs.Limits.{limits};
ghost use Rattle.shim_syntax.specs.Occurrences.{identifiers};
ghost use Rattle.shim_up.specs.Renaming.{Renaming, renamed, renamed_functions};
ghost use Rattle.shim_syntax.specs.Printing.{canonical};
ghost use Rattle.shim_syntax.specs.Same.{IsTextOfSame};
ghost use Rattle.shim_syntax.specs.ShortText.{HasText};
ghost use Rattle.shim_syntax.specs.Terminals.{Terminal};
ghost use Rattle.shim_syntax.specs.Text.{IsText};
ghost use Rattle.shim_up.specs.Up.{IsLeastNew, IsUp, fresh_name, replaced, with_name_for_word};
ghost use Rattle.shim_syntax.specs.declared.tree.Function.{Function};
ghost use Rattle.shim_syntax.specs.declared.tree.Program.{Program};
ghost use Rattle.shim_scopes.specs.declared.form.Form.{Form as Resolved};
ghost use Rattle.shim_scopes.specs.Functions.{bind_program};
ghost use Rattle.shim_units.specs.Rule.{Obeys};
ghost use Rattle.shim_units.specs.Units.{lifted};
ghost use Rattle.shim_laws_up.specs.Accepting.{IsAcceptedInVersion2};
ghost use Rattle.shim_laws_up.specs.Around.{answer_renamed, form_renamed};
ghost use Rattle.shim_laws_up.specs.Keeping.{KeepsNames};
ghost use Rattle.shim_laws_up.specs.Rewriting.{rewritten};
ghost use Rattle.shim_laws_up.specs.Titles.{AreAlike};

/// Terminals that derive functions derive them with their identifiers replaced, if the names among the terminals
/// are replaced, too. Each terminal may stand at another byte of its line, and the end of the text at any place.
pub fn derivations_keep_to_replaced_names()
    ensures { (f : Renaming) (end : Place) (place : ℕ → ℕ) (n : ℕ) (v : TextCounts) (s : List Terminal) (fs : List Function) → IsFunctions limits n v s [] fs → IsFunctions limits n v (rewritten f end place s) [] (renamed_functions f fs) }
{}

/// A program that has a text of version 1 has one of version 2 with its identifiers replaced, where names
/// stay names within the limits, get no more line feeds, and none becomes the word of the new type. Each line stays
/// as it was.
pub fn replaced_names_have_a_text_of_version_2()
    ensures { (f : Renaming) (keeps : KeepsNames f) (bytes : List ℕ) (p : Program) → p.version ≡ 1 → IsText bytes p → (others : List ℕ) × IsText others (record { version = 2; functions = renamed_functions f p.functions }) }
{}

/// `v` and a number below 2 ^ 64 is a name that may stand in place of the new word.
pub fn numbered_name_may_replace_the_word()
    ensures { (n : ℕ) → n < 2 ^ 64 → KeepsNames (replaced (fresh_name n)) }
{}

/// A program of version 1 with a text of at most 1,048,576 bytes has a text of version 2, with the least
/// new name for the new word.
pub fn least_new_name_gives_a_text()
    ensures { (p : Program) (k : ℕ) → p.version ≡ 1 → HasText p → IsLeastNew (identifiers p.functions) k → (bytes : List ℕ) × IsText bytes (with_name_for_word (fresh_name k) p) }
{}

/// Where two names become equal exactly if they were, and `main` stays, a program with its names replaced
/// has the same form, with the names replaced in its list alone. Where it is refused, it is refused at the
/// same line for the same cause, by the replaced name.
pub fn binding_goes_by_equality_of_names()
    ensures { (f : Renaming) → ((x y : List ℕ) → bytes_eq (f x) (f y) ≡ bytes_eq x y) → f (codes "main") ≡ codes "main" → (p : Program) → bind_program (renamed f p) ≡ answer_renamed f (form_renamed f) (bind_program p) }
{}

/// With the names of its list replaced a form has the same units, but for titles.
pub fn units_differ_in_titles()
    ensures { (f : Renaming) (form : Resolved) → AreAlike f (lifted form) (lifted (form_renamed f form)) }
{}

/// A program with a text of at most 1,048,576 bytes is some program in version 2.
pub fn some_program_in_version_2()
    ensures { (p : Program) → HasText p → (q : Program) × IsUp p q }
{}

/// A program is at most one program in version 2.
pub fn up_is_one_program()
    ensures { (p q r : Program) → IsUp p q → IsUp p r → q ≡ r }
{}

/// Where a program has a text of at most 1,048,576 bytes, take the program that it is in version 2. The canonical
/// text of this is a text of a program that differs from it in lines alone.
pub fn program_in_version_2_is_printed()
    ensures { (p q : Program) → HasText p → IsUp p q → IsTextOfSame q (canonical q) }
{}

/// Where a program of version 1 has a text of at most 1,048,576 bytes, is bound and obeys the sharing
/// rule, that program as one of version 2 has a text, is bound and obeys the sharing rule, too. The lifted
/// forms of both are equal, lines and all, but for titles and for the entry of the names that was the new
/// word.
pub fn up()
    ensures { (p q : Program) (form : Resolved) → p.version ≡ 1 → HasText p → bind_program p ≡ Ok form → Obeys form → IsUp p q → IsAcceptedInVersion2 p q form }
{}
