// What is in scope at a place.
ghost use Rattle.std.specs.Prelude.{◌≡◌, take};

use shim_base::{List, Name};
use shim_syntax::Sort;
use std::mem::replace;

// What the name of a variable is bound to.
#[derive(Clone, Copy, Debug, PartialEq, Eq)]
pub struct Bound {
    pub slot: u32,
    pub sort: Sort,
}

// A declaration in scope.
#[derive(Drop)]
pub struct LocalDeclaration {
    pub name: Name,
    pub bound: Bound,
}

// An exception in scope.
#[derive(Drop)]
pub struct Handled {
    pub name: Name,
    pub number: u32,
}

// What is known at a place of a function: the declarations and exceptions in scope in textual order,
// the count of the function's own `throws`, and all slots and `try` statements so far.
#[derive(Drop)]
pub struct Scope {
    pub visible: List<LocalDeclaration>,
    pub handled: List<Handled>,
    pub throws: u32,
    pub slots: List<Sort>,
    pub slot_names: List<u32>,
    pub tries: List<u32>,
}

// Keeps the first `len` elements, or all if there are fewer, and drops the others.
pub fn cut<T: Drop>(list: &mut List<T>, len: usize)
    ensures { list.new ≡ take len list.old }
{
    let empty = List::new(list.allocator());
    let mut items = replace(list, empty).into_vec();
    items.truncate(len);
    *list = List::from(items);
}
