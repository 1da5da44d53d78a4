// The numbers of the locations that a unit's slots have.
ghost use Rattle.std.specs.Prelude.{◌≡◌, ◌∷◌, ◌++◌, ◌+◌, List as ListOf, IfOk};
ghost use Rattle.shim_syntax.specs.declared.Sort.{Sort as SortOf};
ghost use Rattle.shim_process.specs.Arguments.{Argument as ArgumentOf, call_slots, numbers_from};
ghost use Rattle.shim_locations.specs.Given.{argument_of, arguments_of};

use crate::argument::Argument;
use shim_base::{List, NoMemory};
use shim_syntax::Sort;
use std::alloc::Global;

fn after(number: usize) -> Result<usize, NoMemory>
    ensures { IfOk result (λ next. next ≡ number + 1) }
{
    number.checked_add(1).ok_or(NoMemory)
}

// Adds the number of the location of one argument's slot; the answer is the number of the next new location.
fn call_slot(slots: &mut List<usize>, next: usize, argument: &Argument) -> Result<usize, NoMemory>
    ensures { IfOk result (λ more. (rest : ListOf ArgumentOf) (declared : ListOf SortOf) → slots.new ++ call_slots more rest declared ≡ slots.old ++ call_slots next (argument_of argument.now ∷ rest) declared) }
{
    match argument {
        Argument::ByReference(number) => {
            slots.push(*number)?;
            Ok(next)
        }
        Argument::ByCopy(_, _) => {
            slots.push(next)?;
            after(next)
        }
        Argument::ByValue(_, _, _) => {
            slots.push(next)?;
            after(next)
        }
    }
}

/// These numbers, and then one for each declaration, which count up from `first`.
pub fn with_declared(
    slots: List<usize>,
    first: usize,
    declared: &[Sort],
) -> Result<Vec<usize>, NoMemory>
    ensures { IfOk result (λ all. all.items ≡ slots ++ numbers_from first declared.now) }
{
    let mut all = slots;
    let mut next = first;
    for _sort in declared {
        all.push(next)?;
        next = after(next)?;
    }
    Ok(all.into_vec())
}

/// The numbers of the locations of a called unit's slots. The first new location has the number `first`.
#[tactic(auto, using(crate::proofs::OneMore::one_more_slot))]
pub fn call_slots(
    alloc: Global,
    first: usize,
    given: &[Argument],
    declared: &[Sort],
) -> Result<Vec<usize>, NoMemory>
    ensures { IfOk result (λ slots. slots.items ≡ call_slots first (arguments_of given.now) declared.now) }
{
    let room = given.len().saturating_add(declared.len());
    let mut slots = List::with_capacity(alloc, room)?;
    let mut next = first;
    for argument in given {
        next = call_slot(&mut slots, next, argument)?;
    }
    with_declared(slots, next, declared)
}
