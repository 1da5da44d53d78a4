// The arguments of a call or a branch, computed, and what is made of them.
ghost use Rattle.std.specs.Prelude.{◌≡◌, ◌++◌, ◌≤◌, length, IfOk};
ghost use Rattle.shim_process.specs.Arguments as passing;
ghost use Rattle.shim_process.specs.LocalState.{type_of};
ghost use Rattle.shim_locations.specs.Given.{arguments_of};
ghost use Rattle.shim_locations.specs.ArgumentFaults.{Gives, argument_result};

use crate::argument::Argument;
use crate::argument_fault::ArgumentFault;
use crate::location::Location;
use crate::locations::number_of;
use crate::value::evaluate;
use shim_base::{List, NoMemory, Trap, Ty};
use shim_scopes::UParam;
use shim_syntax::Sort;
use shim_units::Arg;
use std::alloc::Global;

fn type_of(sort: &Sort) -> Ty
    ensures { result ≡ type_of sort.now }
{
    match sort {
        Sort::Value(ty) => *ty,
        _ => Ty::Int32,
    }
}

fn argument(
    locations: &[Option<Location>],
    slots: &[usize],
    param: &UParam,
    arg: &Arg,
) -> Result<Argument, Trap>
    ensures { argument_result result ≡ passing.argument locations.now slots.now param.now arg.now }
{
    match arg {
        Arg::Ref(slot) => Ok(Argument::ByReference(number_of(slots, *slot))),
        Arg::Pass(slot) => {
            let number = number_of(slots, *slot);
            Ok(Argument::ByCopy(type_of(&param.sort), number))
        }
        Arg::Fresh(expr) => match evaluate(expr, locations, slots) {
            Ok(value) => Ok(Argument::ByValue(type_of(&param.sort), param.name, value)),
            Err(trap) => Err(trap),
        },
    }
}

/// The arguments of a call or a branch, computed from the left, or the first trap.
pub fn arguments(
    alloc: Global,
    locations: &[Option<Location>],
    slots: &[usize],
    params: &[UParam],
    args: &[Arg],
) -> Result<List<Argument>, ArgumentFault>
    ensures { Gives result (passing.arguments locations.now slots.now params.now args.now) }
{
    let mut given = List::with_capacity(alloc, params.len())?;
    let mut rest = args;
    for param in params {
        let Some((arg, after)) = rest.split_first() else {
            return Ok(given);
        };
        given.push(argument(locations, slots, param, arg)?)?;
        rest = after;
    }
    Ok(given)
}
