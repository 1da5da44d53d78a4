// Laws of binding.
ghost use Rattle.std.specs.Prelude.{ℕ, List, Some, None, ◌≡◌};
ghost use Rattle.shim_scopes.specs.declared.scope.Bound.{Bound};
ghost use Rattle.shim_scopes.specs.declared.scope.LocalDeclaration.{LocalDeclaration};
ghost use Rattle.shim_scopes.specs.Binding.{binding_of};
ghost use Rattle.shim_scopes.specs.Innermost.{IsInnermost, HasNone};

/// What a name is bound to is the innermost declaration of it around the place.
pub fn bound_by_the_innermost()
    ensures { (x : List ℕ) (around : List LocalDeclaration) (b : Bound) → binding_of x around ≡ Some b → IsInnermost x around b }
{}

/// The innermost declaration of a name around a place is what the name is bound to.
pub fn innermost_binds()
    ensures { (x : List ℕ) (around : List LocalDeclaration) (b : Bound) → IsInnermost x around b → binding_of x around ≡ Some b }
{}

/// A name that is bound to nothing is declared nowhere around the place.
pub fn unbound_is_undeclared()
    ensures { (x : List ℕ) (around : List LocalDeclaration) → binding_of x around ≡ None → HasNone x around }
{}
