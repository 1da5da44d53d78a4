// A variable that a call gives by reference and again.
ghost use Rattle.std.specs.Prelude.{◌≡◌, ◌||◌, [], IfOk, Option};
ghost use Rattle.shim_units.specs.Rule.{is_bare, stands_in};
ghost use Rattle.shim_sharing.specs.Sharing.{again, given_again, alias, offence_at, first_offence};
ghost use Rattle.shim_units.specs.Calls.{paired_arguments, params_at};
ghost use Rattle.shim_units.specs.Places.{call_place};

use crate::found::Offence;
use shim_base::NoMemory;
use shim_scopes::{RCall, RFunction};
use shim_units::{Given, give, params_at};
use std::alloc::Global;

fn is_bare(slot: u32, bare: Option<u32>) -> bool
    ensures { result ≡ is_bare slot bare }
{
    match bare {
        Some(other) => other == slot,
        None => false,
    }
}

fn stands_in(slot: u32, given: &[Given]) -> bool
    ensures { result ≡ stands_in slot given.now }
{
    for one in given {
        if is_bare(slot, one.bare) {
            return true;
        }
    }
    false
}

// The variable, where it is given by reference and among the other arguments.
fn find_again(one: Given, before: &[Given], behind: &[Given]) -> Option<u32>
    ensures { result ≡ again one.lent before.now behind.now one.bare }
{
    if !one.lent {
        return None;
    }
    match one.bare {
        Some(slot) => {
            if stands_in(slot, before) || stands_in(slot, behind) {
                Some(slot)
            } else {
                None
            }
        }
        None => None,
    }
}

// The variable that a call gives by reference and as another bare argument. Of several variables it is the
// one whose argument by reference is leftmost.
fn find_given_again(given: &[Given]) -> Option<u32>
    ensures { result ≡ given_again [] given.now }
{
    for (at, one) in given.iter().enumerate() {
        match find_again(*one, &given[..at], &given[at + 1..]) {
            Some(slot) => return Some(slot),
            None => {}
        }
    }
    None
}

// What the sharing rule refuses of a call.
pub fn find_alias(
    alloc: Global,
    functions: &[RFunction],
    call: &RCall,
    line: u32,
) -> Result<Option<Offence>, NoMemory>
    ensures { IfOk result (λ found. found ≡ alias line (given_again [] (paired_arguments (params_at functions.now call.now.function) call.now.args))) }
{
    let given = give(
        alloc,
        params_at(functions, call.function),
        call.args.as_slice(),
    )?;
    match find_given_again(given.as_slice()) {
        Some(slot) => Ok(Some(Offence::Alias { line, slot })),
        None => Ok(None),
    }
}
