// A program in its resolved form.
ghost use Rattle.std.specs.Prelude.{◌≡◌};
ghost use Rattle.shim_scopes.specs.Resolving.{IsFormOfText};

use crate::form::Form;
use crate::tree::RFunction;
use shim_base::{List, Name};
use std::marker::Model;

/// A program whose names are bound. Only `resolve` makes a value of this type. The program has a text of at
/// most 1,048,576 bytes.
#[derive(Drop)]
pub struct Resolved {
    form: Form,
}

impl Model for Resolved {
    ghost use Rattle.std.specs.Coded.{codes};
    ghost use Rattle.shim_scopes.specs.contracts.tree.RFunction as function;
    ghost use Rattle.shim_scopes.specs.declared.form.Form.{Form};
    ghost use Rattle.shim_scopes.specs.Resolving.{IsFormOfText};

    ghost Value = { Form };

    ghost coded = { Prim.hlevel (codes, function.the_row.coded) };

    ghost view = { λ resolved. resolved.form };

    ghost invariant = { λ resolved. ∥ IsFormOfText resolved.form ∥₁ };
}

impl Resolved {
    /// The functions, in the order of the source.
    pub fn functions(&self) -> &[RFunction]
        ensures { result.now ≡ self.now.functions }
    {
        self.form.functions.as_slice()
    }

    /// The names of the source, each once, in the order of their first occurrences.
    pub fn names(&self) -> &[Name]
        ensures { result.now ≡ self.now.names }
    {
        self.form.names.as_slice()
    }

    /// The same names as `names`, by value; the rest is dropped.
    pub fn into_names(self) -> List<Name>
        ensures { result ≡ self.names }
    {
        self.form.names
    }

    /// Which of `functions` is `main`, counted from 0.
    pub fn main(&self) -> u32
        ensures { result ≡ self.now.main }
    {
        self.form.main
    }
}

// The resolved program in this form. What the function requires is what the type keeps.
pub fn from_form(form: Form) -> Resolved
    requires { ∥ IsFormOfText form ∥₁ }
    ensures { result ≡ form }
{
    Resolved { form }
}
