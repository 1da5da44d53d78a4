// When two accepted programs are the same.
ghost use Rattle.std.specs.Prelude.{◌≡◌, ◌↔◌, IsTrue};

use crate::same::{Same, same_all};
use crate::same_stmts::same_stmts;
use shim_scopes::UParam;
use shim_syntax::Sort;
use shim_units::{Accepted, Unit};

impl Same for Sort {
    fn same(&self, other: &Sort) -> bool {
        match (self, other) {
            (Sort::Value(one), Sort::Value(other)) => *one == *other,
            (Sort::Input, Sort::Input) => true,
            (Sort::Output, Sort::Output) => true,
            _ => false,
        }
    }
}

impl Same for UParam {
    fn same(&self, other: &UParam) -> bool {
        self.sort.same(&other.sort) && self.by_ref == other.by_ref && self.name == other.name
    }
}

// Whether they have the same parameters, slots and names of slots.
fn same_head(one: &Unit, other: &Unit) -> bool
    ensures { IsTrue result ↔ ((one.now.params ≡ other.now.params) × (one.now.slots ≡ other.now.slots) × (one.now.slot_names ≡ other.now.slot_names)) }
{
    same_all(one.params.as_slice(), other.params.as_slice())
        && same_all(one.slots.as_slice(), other.slots.as_slice())
        && same_all(one.slot_names.as_slice(), other.slot_names.as_slice())
}

// Whether they have the same title and function, as many given exceptions, and the same names of `try` statements.
fn same_title(one: &Unit, other: &Unit) -> bool
    ensures { IsTrue result ↔ ((one.now.title ≡ other.now.title) × (one.now.function ≡ other.now.function) × (one.now.throws ≡ other.now.throws) × (one.now.tries ≡ other.now.tries)) }
{
    same_all(one.title.as_slice(), other.title.as_slice())
        && one.function == other.function
        && one.throws == other.throws
        && same_all(one.tries.as_slice(), other.tries.as_slice())
}

impl Same for Unit {
    fn same(&self, other: &Unit) -> bool {
        same_title(self, other)
            && same_head(self, other)
            && same_stmts(self.body.as_slice(), other.body.as_slice())
    }
}

/// Whether they are the same program. Of two that keep the same text nothing else is looked at.
pub fn same_program(one: &Accepted, other: &Accepted) -> bool
    ensures { IsTrue result ↔ (one.now ≡ other.now) }
{
    have_same_text(one, other) || same_units(one, other)
}

// Whether both keep their text, and it is the same.
fn have_same_text(one: &Accepted, other: &Accepted) -> bool
    ensures { IsTrue result → one.now ≡ other.now }
{
    match (one.text(), other.text()) {
        (Some(one), Some(other)) => one == other,
        _ => false,
    }
}

// Whether they have the same `main`, exceptions that it throws, names and units.
fn same_units(one: &Accepted, other: &Accepted) -> bool
    ensures { IsTrue result ↔ (one.now ≡ other.now) }
{
    one.main() == other.main()
        && same_all(one.main_throws(), other.main_throws())
        && same_all(one.names(), other.names())
        && same_all(one.units(), other.units())
}
