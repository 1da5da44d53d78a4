// Laws of what binding gives, and of the names of a text.
ghost use Rattle.std.specs.Prelude.{ℕ, List, Ok, Some, None, true, false, ◌≡◌, ◌↔◌};
ghost use Rattle.shim_base.specs.declared.types.Ty.{Ty};
ghost use Rattle.shim_scopes.specs.declared.form.Form.{Form};
ghost use Rattle.shim_scopes.specs.declared.scope.Handled.{Handled};
ghost use Rattle.shim_scopes.specs.Binding.{exception_of};
ghost use Rattle.shim_scopes.specs.Calls.{same_type};
ghost use Rattle.shim_scopes.specs.Functions.{bind_program};
ghost use Rattle.shim_syntax.specs.Distinct.{IsNew};
ghost use Rattle.shim_syntax.specs.Occurrences.{identifiers};
ghost use Rattle.shim_syntax.specs.Terminals.{new_word};
ghost use Rattle.shim_syntax.specs.Text.{IsText};
ghost use Rattle.shim_syntax.specs.declared.tree.Program.{Program};
ghost use Rattle.shim_laws_binding.specs.TextNames.{has_new_type, names_among, of_functions};
ghost use Rattle.shim_laws_binding.specs.HandedOn.{AllHandOn};
ghost use Rattle.shim_laws_binding.specs.Innermost.{HasNone, IsNumberOfInnermost, exception_name};
ghost use Rattle.shim_laws_binding.specs.LexicalScope.{BindsProgram};
ghost use Rattle.shim_laws_binding.specs.Naming.{functions_named};
ghost use Rattle.shim_laws_binding.specs.TextOrder.{AreInTextOrder};

/// Each name of a variable or an exception means the innermost of that name around the point of the text
/// where it stands. In the form each use of a variable has the slot of the innermost declaration of its
/// name. Each `throw` has the number of the innermost exception of its name that is in force. Each call has
/// the number of a function of its name. For each exception of that function's `throws` it has the number of
/// the innermost one of that name that is in force at the call. A declaration is around what follows it in
/// its block, and not around its own first value. The exception of a `try` is in force in the body, and not
/// in the handler. Slots and exceptions are numbered as they come in the text.
pub fn names_mean_the_innermost()
    ensures { (p : Program) (form : Form) → bind_program p ≡ Ok form → BindsProgram p form }
{}

/// The rules of scope and the order of the text leave no choice: of a program that has a form, no other
/// form with its list of names obeys them.
pub fn no_other_form_is_bound()
    ensures { (p : Program) (form other : Form) → bind_program p ≡ Ok form → BindsProgram p other → AreInTextOrder form.names p.functions other.functions → other.names ≡ form.names → other ≡ form }
{}

/// With names in place of its numbers a form gives the functions of its program, lines and all. The form
/// loses nothing of them, and mixes up no two names. It doesn't have the version of the program.
pub fn names_put_back_give_the_functions()
    ensures { (p : Program) (form : Form) → bind_program p ≡ Ok form → functions_named form ≡ p.functions }
{}

/// Each call has the number of a function and gives as many arguments as that function takes. For each
/// exception of that function's `throws` it gives the caller's one of the same name.
pub fn calls_hand_on_what_is_thrown()
    ensures { (p : Program) (form : Form) → bind_program p ≡ Ok form → AllHandOn form }
{}

/// The slots of a function are its parameters and then its declarations, in the order of the text. Its
/// exceptions are those of its `throws` and then those of its `try` statements, in that order, too. Its line,
/// its name and its parameters are those of the program.
pub fn slots_are_in_text_order()
    ensures { (p : Program) (form : Form) → bind_program p ≡ Ok form → AreInTextOrder form.names p.functions form.functions }
{}

/// The identifiers of a program, one after another, are the names of its text in their order. Of a text of
/// version 2 the first three terminals don't count: `shim`, the number 2 and `;`.
pub fn identifiers_are_the_names_of_the_text()
    ensures { (bytes : List ℕ) (p : Program) (text : IsText bytes p) → identifiers p.functions ≡ names_among (of_functions text.terminals) }
{}

/// In a text of version 2 the word of the type that this version adds is no identifier.
pub fn new_word_is_no_identifier()
    ensures { (bytes : List ℕ) (p : Program) → IsText bytes p → p.version ≡ 2 → IsNew new_word (identifiers p.functions) }
{}

/// In a text of version 1 nothing is the type that version 2 adds.
pub fn version_1_has_no_new_type()
    ensures { (bytes : List ℕ) (p : Program) (text : IsText bytes p) → p.version ≡ 1 → has_new_type text.terminals ≡ false }
{}

/// Binding takes two types for the same exactly if they are equal.
pub fn same_types_are_equal()
    ensures { (a b : Ty) → (same_type a b ≡ true) ↔ (a ≡ b) }
{}

/// The number that binding gives for an exception's name is that of the innermost one in force of this name.
pub fn exception_is_the_innermost()
    ensures { (x : List ℕ) (around : List Handled) (number : ℕ) → exception_of x around ≡ Some number → IsNumberOfInnermost x around number }
{}

/// The innermost exception in force that has a name is the one that the name means.
pub fn innermost_exception_is_meant()
    ensures { (x : List ℕ) (around : List Handled) (number : ℕ) → IsNumberOfInnermost x around number → exception_of x around ≡ Some number }
{}

/// A name that means no exception is that of none in force.
pub fn exception_without_number_is_nowhere()
    ensures { (x : List ℕ) (around : List Handled) → exception_of x around ≡ None → HasNone exception_name x around }
{}
