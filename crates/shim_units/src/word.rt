// Numbers, and what a function says of those of its variables and `try` statements.
ghost use Rattle.std.specs.Prelude.{◌≡◌, ◌+◌, ◌<◌, ◌^◌};
ghost use Rattle.shim_units.specs.Lifting.{sort_of, name_of, try_name};

use shim_base::Ty;
use shim_scopes::RFunction;
use shim_syntax::Sort;

/// A count as a number of the tree.
pub fn number(count: usize) -> u32
    requires { count < 2 ^ 32 }
    ensures { result ≡ count }
{
    count as u32
}

/// The number `first` and the count, added.
pub fn number_after(first: u32, count: usize) -> u32
    requires { first + count < 2 ^ 32 }
    ensures { result ≡ first + count }
{
    first + number(count)
}

// What the slot of a function holds, and a `bool` where the function has no such slot.
pub fn sort_of(function: &RFunction, slot: u32) -> Sort
    ensures { result ≡ sort_of function.now slot }
{
    match function.slots.get(slot as usize) {
        Some(sort) => *sort,
        None => Sort::Value(Ty::Bool),
    }
}

/// The number of the name of a function's slot, and 0 where the function has no name for it.
pub fn name_of(function: &RFunction, slot: usize) -> u32
    ensures { result ≡ name_of function.now slot }
{
    match function.slot_names.get(slot) {
        Some(name) => *name,
        None => 0,
    }
}

// The number of the name that the `try` statement of this exception catches, and 0 where there is none.
pub fn try_name(function: &RFunction, exception: u32) -> u32
    ensures { result ≡ try_name function.now exception }
{
    let at = (exception as usize).saturating_sub(function.throws.len());
    match function.tries.get(at) {
        Some(name) => *name,
        None => 0,
    }
}
