// Counts brought up to date on the way up.
ghost use Rattle.std.specs.Prelude.{◌≡◌, ◌≤◌, ◌+◌, true, false, None, if◌then◌else◌};
ghost use Rattle.shim_laws_table.specs.Counts.{going_child_status};
ghost use Rattle.shim_records.specs.Pairs.{child_status_of};
ghost use Rattle.shim_records.specs.Ways.{most_forks, StepsUp, IsUpdatedAbove, CountsMovedWithin, NoneReadied, BecomesReady, ReadiesWithin};

use crate::pair::{ChildStatus, going_child_status, move_pair, place_in, tally_ready};
use crate::record::Record;
use shim_base::Chan;

/// A place on the way up: a record, what was read of it, and what is.
#[derive(Clone, Copy)]
pub(crate) struct CountChange {
    pub(crate) at: usize,
    pub(crate) was: ChildStatus,
    pub(crate) is: ChildStatus,
}

// Whether something may be due at a fork on the channel: all are there, or there is a label.
fn may_be_due(all: bool, label: Option<u32>) -> bool
    ensures { result ≡ false → (all ≡ false) × (label ≡ None) }
{
    match label {
        None => all,
        Some(_) => true,
    }
}

// Moves the counts of the record's parent, if it has counts for the channel; the parent, where it is read
// otherwise than before, and whether anything may be due at it on the channel.
fn step_up(records: &mut Vec<Record>, c: &Chan, here: CountChange) -> (Option<CountChange>, bool)
    ensures { StepsUp c.now.channel records.old.items here result.0 result.1 records.new.items }
{
    if here.at >= records.len() {
        return (None, false);
    }
    let above = match records[here.at].parent {
        None => return (None, false),
        Some(above) => above as usize,
    };
    if above >= records.len() {
        return (None, false);
    }
    let record = &mut records[above];
    let place = match place_in(record.pairs.as_slice(), c) {
        None => return (None, false),
        Some(place) => place,
    };
    let pair = &mut record.pairs[place];
    let before = tally_ready(pair);
    move_pair(pair, here.was, here.is);
    let after = tally_ready(pair);
    let due = may_be_due(after, pair.min_dead_label);
    if before == after {
        return (None, due);
    }
    let next = CountChange {
        at: above,
        was: going_child_status(before),
        is: going_child_status(after),
    };
    (Some(next), due)
}

/// Updates the counts for a channel above a record whose status was `was` and is `is`. It goes on upward while
/// the status of the fork itself changes, through at most so many forks. No counts beyond the first so many forks
/// as it answers have changed; the answer may be too large.
pub fn update_counts_above(
    records: &mut Vec<Record>,
    at: usize,
    c: &Chan,
    was: ChildStatus,
    is: ChildStatus,
    forks: u32,
) -> u32
    ensures counts { IsUpdatedAbove c.now.channel forks at was is records.old.items records.new.items }
    ensures reaches { CountsMovedWithin c.now.channel result at records.old.items records.new.items }
    ensures most { result ≤ forks }
    ensures falls { child_status_of was ≡ going_child_status true → child_status_of is ≡ going_child_status false → NoneReadied c.now.channel records.old.items records.new.items }
{
    let mut here = CountChange { at, was, is };
    for walked in 0..forks {
        let (next, _) = step_up(records, c, here);
        match next {
            None => return walked + 1,
            Some(next) => here = next,
        }
    }
    forks
}

// How many forks are to be looked at again: `walked` and one more, if `due`, and else as many as before.
fn looked_at(before: u64, walked: u32, due: bool) -> u64
    ensures { result ≡ (if due then walked + 1 else before) }
{
    if due { walked as u64 + 1 } else { before }
}

/// Updates the counts for a channel above the record of a live process that has come to it and was at none before.
/// The answer is how many forks above it are to be looked at again. None further up became ready by its counts, and
/// none has a label for the channel if a child of it became ready.
pub fn propagate_stop_above(records: &mut Vec<Record>, at: usize, c: &Chan) -> u64
    ensures counts { BecomesReady c.now.channel most_forks at records.old.items records.new.items }
    ensures readies { ReadiesWithin c.now.channel result at records.old.items records.new.items }
{
    let mut here = CountChange {
        at,
        was: going_child_status(false),
        is: going_child_status(true),
    };
    let mut again = 0;
    // No tree is so deep: the bound is there for the proof that the loop ends.
    for walked in 0..u32::MAX {
        let (next, due) = step_up(records, c, here);
        again = looked_at(again, walked, due);
        match next {
            None => return again,
            Some(next) => here = next,
        }
    }
    u32::MAX as u64 + 1
}
