// The counts above a process that has done anything by itself, brought up to date for all channels.
ghost use Rattle.std.specs.Prelude.{◌≡◌, ◌≤◌, true, false, length};
ghost use Rattle.shim_records.specs.Pairs.{child_status_of};
ghost use Rattle.shim_records.specs.Ways.{AllCountsMovedWithin};
ghost use Rattle.shim_records.specs.Acted.{Earlier, process_status_of, UpdatesForOne, AllUpdated};
ghost use Rattle.shim_laws_table.specs.Sufficing.{leaf_status};

use crate::pair::ChildStatus;
use crate::receiving::is_at_channel;
use crate::record::{Record, Status};
use crate::upward::update_counts_above;
use shim_base::Chan;
use shim_local::Local;

// What a fork reads of a process without children whose record has this status.
fn status_now<L: Local>(process: &L, status: Status, c: &Chan) -> ChildStatus
    ensures { child_status_of result ≡ leaf_status L.ops c.now.channel process.now (process_status_of status) }
{
    match status {
        Status::Live => ChildStatus {
            going: process.shares(c),
            ready_on: is_at_channel(process, c),
            dead_on: false,
        },
        Status::Dead(_) => ChildStatus {
            going: false,
            ready_on: false,
            dead_on: process.shares(c),
        },
        Status::Free | Status::Forked(_) | Status::Ended => ChildStatus {
            going: false,
            ready_on: false,
            dead_on: false,
        },
    }
}

// Whether the channel is at no place before this one, of those that the process was given.
pub(crate) fn is_first<L: Local>(process: &L, c: &Chan, place: usize) -> bool
    ensures first { result ≡ true → Earlier L.ops process.now c.now.channel place → ⊥ }
    ensures again { result ≡ false → Earlier L.ops process.now c.now.channel place }
{
    for at in 0..place {
        match process.given(at) {
            None => {}
            Some(chan) => {
                if *chan == *c {
                    return false;
                }
            }
        }
    }
    true
}

// Updates the counts above for the channel, if the process shares it and it is at no place before this one. No
// counts beyond the first so many forks as it answers have changed; the answer may be too large.
fn update_for_one<L: Local>(
    process: &L,
    status: Status,
    records: &mut Vec<Record>,
    at: usize,
    c: &Chan,
    place: usize,
    forks: u32,
) -> u32
    ensures counts { UpdatesForOne L.ops process.now (process_status_of status) forks at c.now.channel place records.old.items records.new.items }
    ensures reaches { AllCountsMovedWithin result at records.old.items records.new.items }
    ensures most { result ≤ forks }
{
    if !process.shares(c) {
        return 0;
    }
    if !is_first(process, c, place) {
        return 0;
    }
    let was = ChildStatus {
        going: true,
        ready_on: false,
        dead_on: false,
    };
    update_counts_above(records, at, c, was, status_now(process, status, c), forks)
}

/// Brings the counts above a process up to date that has done anything by itself, and of which this came, for
/// each channel that it was given and shares. It has no children. The answer is a number of forks beyond
/// which no counts have changed, perhaps more than need be.
pub fn update_all_counts<L: Local>(
    process: &L,
    status: Status,
    records: &mut Vec<Record>,
    at: usize,
    forks: u32,
) -> u32
    requires few { length (L.ops.given process.now) ≤ 18446744073709551615 }
    ensures counts { AllUpdated L.ops process.now (process_status_of status) forks at records.old.items records.new.items }
    ensures reaches { AllCountsMovedWithin result at records.old.items records.new.items }
    ensures most { result ≤ forks }
{
    let mut furthest = 0;
    for place in 0..usize::MAX {
        match process.given(place) {
            None => return furthest,
            Some(chan) => {
                let reached = update_for_one(process, status, records, at, chan, place, forks);
                furthest = furthest.max(reached);
            }
        }
    }
    furthest
}
