// Giving out the work of a round.
ghost use Rattle.std.specs.Prelude.{◌≡◌, ◌≤◌, ◌<◌, ◌+◌, [], true, false, length, IfOk, OnOk};
ghost use Rattle.shim_semantics.specs.Trees.{steps};
ghost use Rattle.shim_net.specs.Progress.{GoesOn, CanGive};
ghost use Rattle.shim_workers.specs.Progress.{HaveSteps, HaveSlotsBelow};

use crate::assignment::Assignments;
use shim_base::NoMemory;
use shim_local::Local;
use shim_net::Net;
use std::alloc::Global;

// Gives a piece of work to the assignments; false where none can be given out. Pieces of the round that are out
// have a lower slot.
fn give<L: Local>(
    net: &mut Net<L>,
    assignments: &mut Assignments<L>,
    most: u64,
    slot: u64,
    round: u64,
) -> Result<bool, NoMemory>
    requires most { 1 ≤ most }
    requires below { HaveSlotsBelow slot net.old.grants }
    requires steps { HaveSteps L.ops net.old.grants }
    ensures goes_on { OnOk result (GoesOn L.ops net.old net.new) }
    ensures below { OnOk result (HaveSlotsBelow (slot + 1) net.new.grants) }
    ensures steps { OnOk result (HaveSteps L.ops net.new.grants) }
    ensures more { IfOk result (λ more. more ≡ true → steps net.old.tree + length net.old.grants < steps net.new.tree + length net.new.grants) }
    ensures none { IfOk result (λ more. more ≡ false → CanGive L.ops net.old → ⊥) }
{
    match net.grant(most, slot, round)? {
        None => Ok(false),
        Some(parcel) => {
            assignments.assign(parcel)?;
            Ok(true)
        }
    }
}

/// Gives out all that can be, to so many workers.
pub(crate) fn give_all<L: Local>(
    alloc: Global,
    net: &mut Net<L>,
    workers: u32,
    most: u64,
    round: u64,
) -> Result<Assignments<L>, NoMemory>
    requires workers { (1 ≤ workers) × (workers ≤ 16) }
    requires most { 1 ≤ most }
    requires home { net.old.grants ≡ [] }
    requires can { CanGive L.ops net.old }
    ensures goes_on { OnOk result (GoesOn L.ops net.old net.new) }
    ensures steps { OnOk result (HaveSteps L.ops net.new.grants) }
    ensures more { OnOk result (steps net.old.tree + length net.old.grants < steps net.new.tree + length net.new.grants) }
{
    let mut assignments = Assignments::new(alloc, workers);
    let mut slot = 0u64;
    while slot < u64::MAX {
        if !give(net, &mut assignments, most, slot, round)? {
            return Ok(assignments);
        }
        slot += 1;
    }
    Ok(assignments)
}
