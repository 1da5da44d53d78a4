// Laws of the grammar.
ghost use Rattle.std.specs.Prelude.{ℕ, List, ◌≡◌, ◌⊎◌, true, false};
ghost use Rattle.shim_base.specs.Tokens.{Place};
ghost use Rattle.shim_syntax.specs.declared.tree.Program.{Program};
ghost use Rattle.shim_syntax.specs.Terminals.{begins_two};
ghost use Rattle.shim_syntax.specs.Text.{IsText, FaultCause, HasFault};

/// A text is that of one program at most.
pub fn one_program()
    ensures { (bytes : List ℕ) (p q : Program) → IsText bytes p → IsText bytes q → p ≡ q }
{}

/// A text has one fault at most: one place where it stops being a program, and one cause for it.
pub fn one_fault()
    ensures { (bytes : List ℕ) (f g : FaultCause) (p q : Place) → HasFault bytes f p → HasFault bytes g q → (f ≡ g) × (p ≡ q) }
{}

/// No text is the text of a program and has a fault as well.
pub fn never_both()
    ensures { (bytes : List ℕ) (p : Program) (f : FaultCause) (place : Place) → IsText bytes p → HasFault bytes f place → ⊥ }
{}

/// If the text of a program begins with `shim`, a number of value 2 and `;`, the program is of version 2. If
/// the text begins otherwise, the program is of version 1.
pub fn beginning_tells_the_version()
    ensures { (bytes : List ℕ) (p : Program) (text : IsText bytes p) → ((begins_two text.terminals ≡ true) × (p.version ≡ 2)) ⊎ ((begins_two text.terminals ≡ false) × (p.version ≡ 1)) }
{}
