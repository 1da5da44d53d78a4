// Two branches of a fork that take one variable by reference.
ghost use Rattle.std.specs.Prelude.{◌≡◌, ◌+◌, ◌<◌, ◌^◌, ◌&&◌, IfOk, length, map, Option, false};
ghost use Rattle.shim_sharing.specs.Sharing.{least_below, common, clash_with, clash_from, clash_offence};
ghost use Rattle.shim_units.specs.Captures.{is_reference, captures};
ghost use Rattle.shim_units.specs.Usages.{captures_of, shared};
ghost use Rattle.shim_units.specs.Parts.{each_uses};
ghost use Rattle.shim_units.specs.PartFold.{branch_parts};

use crate::found::Offence;
use shim_base::{List, NoMemory};
use shim_scopes::{RBranch, RFunction};
use shim_syntax::Sort;
use shim_units::{Capture, capture_at, is_reference, take_all, uses_in_branch};
use std::alloc::Global;

// Two branches, and the slot of the variable that both take by reference.
#[derive(Clone, Copy, Debug, PartialEq, Eq)]
pub struct Clash {
    pub first: usize,
    pub second: usize,
    pub slot: usize,
}

fn is_common(one: &[Capture], other: &[Capture], slot: usize) -> bool
    ensures { result ≡ (is_reference (captures_of one.now slot) && is_reference (captures_of other.now slot)) }
{
    is_reference(capture_at(one, slot)) && is_reference(capture_at(other, slot))
}

// The variable declared first that both take by reference.
#[tactic(auto, using(crate::proofs::Least::least_found))]
fn find_common(count: usize, one: &[Capture], other: &[Capture]) -> Option<usize>
    ensures { result ≡ common count (captures_of one.now) (captures_of other.now) }
{
    for slot in 0..count {
        if is_common(one, other, slot) {
            return Some(slot);
        }
    }
    None
}

fn find_clash_with(
    count: usize,
    first: usize,
    one: &[Capture],
    second: usize,
    behind: &[List<Capture>],
) -> Option<Clash>
    requires { second + length behind.now < 2 ^ 64 }
    ensures { result ≡ clash_with count first (captures_of one.now) second (map captures_of behind.now) }
{
    match behind {
        [] => None,
        [other, behind @ ..] => match find_common(count, one, other.as_slice()) {
            Some(slot) => Some(Clash {
                first,
                second,
                slot,
            }),
            None => find_clash_with(count, first, one, second + 1, behind),
        },
    }
}

// The least pair of branches that take one variable by reference. The first branch of the list has the
// number `first`.
fn find_clash(count: usize, first: usize, branches: &[List<Capture>]) -> Option<Clash>
    requires { first + length branches.now < 2 ^ 64 }
    ensures { result ≡ clash_from count first (map captures_of branches.now) }
{
    match branches {
        [] => None,
        [one, behind @ ..] => match find_clash_with(
            count,
            first,
            one.as_slice(),
            first + 1,
            behind,
        ) {
            Some(clash) => Some(clash),
            None => find_clash(count, first + 1, behind),
        },
    }
}

// Whether two of the branches take the variable of a slot by reference.
fn is_shared(branches: &[List<Capture>], slot: usize) -> bool
    ensures { result ≡ shared slot false (map captures_of branches.now) }
{
    let mut taken = false;
    for one in branches {
        let by_ref = is_reference(capture_at(one.as_slice(), slot));
        if by_ref && taken {
            return true;
        }
        taken = by_ref || taken;
    }
    false
}

// The variable declared first that two of the branches take by reference.
fn find_shared(count: usize, branches: &[List<Capture>]) -> Option<usize>
    ensures { result ≡ least_below count (λ x. shared x false (map captures_of branches.now)) }
{
    for slot in 0..count {
        if is_shared(branches, slot) {
            return Some(slot);
        }
    }
    None
}

// The least pair of all branches that take one variable by reference. Pairs are compared only if there is
// one, since the comparisons grow with the square of the number of branches.
#[tactic(auto, using(crate::proofs::Shared::none_shared))]
fn find_first_clash(count: usize, branches: &[List<Capture>]) -> Option<Clash>
    ensures { result ≡ clash_from count 0 (map captures_of branches.now) }
{
    match find_shared(count, branches) {
        Some(_) => find_clash(count, 0, branches),
        None => None,
    }
}

// How each branch takes the variables.
fn take_each(
    alloc: Global,
    functions: &[RFunction],
    sorts: &[Sort],
    branches: &[RBranch],
) -> Result<List<List<Capture>>, NoMemory>
    ensures { IfOk result (λ made. map captures_of made ≡ map (captures sorts.now) (each_uses functions.now (branch_parts branches.now))) }
{
    let mut made = List::new(alloc);
    for branch in branches {
        let uses = uses_in_branch(alloc, functions, branch)?;
        made.push(take_all(alloc, sorts, uses.as_slice())?)?;
    }
    Ok(made)
}

// What the sharing rule refuses of a fork itself.
pub fn find_two_writers(
    alloc: Global,
    functions: &[RFunction],
    sorts: &[Sort],
    line: u32,
    branches: &[RBranch],
) -> Result<Option<Offence>, NoMemory>
    ensures { IfOk result (λ found. found ≡ clash_offence line (clash_from (length sorts.now) 0 (map (captures sorts.now) (each_uses functions.now (branch_parts branches.now))))) }
{
    let taken = take_each(alloc, functions, sorts, branches)?;
    match find_first_clash(sorts.len(), taken.as_slice()) {
        Some(clash) => Ok(Some(Offence::TwoWriters {
            line,
            first: clash.first,
            second: clash.second,
            slot: clash.slot,
        })),
        None => Ok(None),
    }
}
