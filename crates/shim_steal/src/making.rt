// How lanes are made.
ghost use Rattle.std.specs.Prelude.{◌≡◌, ◌≤◌, ◌<◌, ◌+◌, length, IfOk, OnOk};
ghost use Rattle.shim_steal.specs.Deques.{view_of};
ghost use Rattle.shim_steal.specs.Making.{AreNewLanes, AreLinked, IsLinked, IsUnused};

use crate::lane::Lane;
use crate::other_deque::OtherDeque;
use crate::own_deque::OwnDeque;
use shim_base::{List, NoMemory};
use std::alloc::Global;

// From now on the lane may take from this deque, and who has the answer may take from that of the lane.
fn link<T: Drop>(lane: &mut Lane<T>, deque: &mut OwnDeque<T>) -> Result<OtherDeque<T>, NoMemory>
    ensures linked { IfOk result (IsLinked lane.old lane.new deque.old deque.new) }
{
    lane.others.reserve(1)?;
    let theirs = deque.share()?;
    let mine = lane.own.share()?;
    lane.others.push_reserved(theirs);
    Ok(mine)
}

// From now on each of the lanes may take from this deque, and who has the answers may take from the deques of the
// lanes.
fn link_all<T: Drop>(
    alloc: Global,
    all: &mut Vec<Lane<T>>,
    deque: &mut OwnDeque<T>,
) -> Result<Vec<OtherDeque<T>>, NoMemory>
    requires lanes { AreNewLanes (length all.old.items) all.old.items }
    requires new { IsUnused deque.old }
    ensures linked { IfOk result (λ others. AreLinked (length all.old.items) (length all.old.items) all.new.items deque.new others.items) }
{
    let mut others = Vec::with_capacity(alloc, all.len())?;
    for home in 0..all.len() {
        others.push(link(&mut all[home], deque)?)?;
    }
    Ok(others)
}

// One lane more.
fn add_lane<T: Drop>(alloc: Global, all: &mut Vec<Lane<T>>) -> Result<(), NoMemory>
    requires lanes { AreNewLanes (length all.old.items) all.old.items }
    ensures lanes { OnOk result ((length all.new.items ≡ length all.old.items + 1) × AreNewLanes (length all.new.items) all.new.items) }
{
    let mut own = OwnDeque::new(alloc)?;
    let others = link_all(alloc, all, &mut own)?;
    let home = all.len() as u64;
    all.push(Lane { home, own, others })?;
    Ok(())
}

/// So many lanes, numbered from 0, each with a deque of its own that is made to hold 64 pieces. Each may take from
/// the deques of all.
pub fn lanes<T: Drop>(alloc: Global, count: u64) -> Result<List<Lane<T>>, NoMemory>
    requires { (1 ≤ count) × (count ≤ 16) }
    ensures count { IfOk result (λ all. length all ≡ count) }
    ensures lanes { IfOk result (AreNewLanes count) }
{
    let mut all = Vec::new(alloc);
    for _ in 0..count {
        add_lane(alloc, &mut all)?;
    }
    Ok(List::from(all))
}
