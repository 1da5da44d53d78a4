// The first fork or call of a program that the sharing rule refuses, with the name of the variable.
ghost use Rattle.std.specs.Prelude.{◌≡◌, IfOk};
ghost use Rattle.shim_units.specs.Lifting.{name_of};
ghost use Rattle.shim_sharing.specs.Numbers.{HasBranchNumbers};
ghost use Rattle.shim_sharing.specs.Room.{FunctionHasRoom, FunctionsHaveRoom};
ghost use Rattle.shim_units.specs.Units.{name_or_mark};
ghost use Rattle.shim_sharing.specs.Refusals.{share_fault, function_refusal, refusal_in};
ghost use Rattle.shim_sharing.specs.Accepting.{IsMeantFault, Passes};

use crate::fault::ShareFault;
use crate::found::Offence;
use crate::offence::find_offence;
use shim_base::{Name, NoMemory};
use shim_scopes::RFunction;
use shim_units::{copy_text, name_of, number};
use std::alloc::Global;

fn make_fault(
    alloc: Global,
    names: &[Name],
    function: &RFunction,
    offence: Offence,
) -> Result<ShareFault, NoMemory>
    requires { HasBranchNumbers offence }
    ensures { IfOk result (λ fault. fault ≡ share_fault names.now function.now offence) }
{
    match offence {
        Offence::TwoWriters {
            line,
            first,
            second,
            slot,
        } => {
            let name = copy_text(alloc, names, name_of(function, slot))?;
            let first = number(first);
            let second = number(second);
            Ok(ShareFault::TwoWriters {
                line,
                name,
                first,
                second,
            })
        }
        Offence::Alias { line, slot } => {
            let name = copy_text(alloc, names, name_of(function, slot as usize))?;
            Ok(ShareFault::Alias { line, name })
        }
    }
}

fn fault_or_no_memory(
    alloc: Global,
    names: &[Name],
    function: &RFunction,
    offence: Offence,
) -> ShareFault
    requires { HasBranchNumbers offence }
    ensures { IsMeantFault result (share_fault names.now function.now offence) }
{
    match make_fault(alloc, names, function, offence) {
        Ok(fault) => fault,
        Err(_) => ShareFault::NoMemory,
    }
}

#[tactic(auto, using(crate::proofs::OffenceNumbers::offence_numbers))]
fn check_function(
    alloc: Global,
    names: &[Name],
    functions: &[RFunction],
    function: &RFunction,
) -> Result<(), ShareFault>
    requires { FunctionHasRoom 0 function.now }
    ensures { Passes result (function_refusal names.now functions.now function.now) }
{
    match find_offence(
        alloc,
        functions,
        function.slots.as_slice(),
        function.body.as_slice(),
    )? {
        None => Ok(()),
        Some(offence) => Err(fault_or_no_memory(alloc, names, function, offence)),
    }
}

// Passes only if every fork and call obeys the sharing rule. The fault is of the first that doesn't, or is
// `NoMemory`.
pub fn check(alloc: Global, names: &[Name], functions: &[RFunction]) -> Result<(), ShareFault>
    requires { FunctionsHaveRoom 0 functions.now }
    ensures { Passes result (refusal_in names.now functions.now functions.now) }
{
    for function in functions {
        check_function(alloc, names, functions, function)?;
    }
    Ok(())
}
