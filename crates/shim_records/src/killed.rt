// The counts above a live process that was killed where it was, brought up to date for all channels.
ghost use Rattle.std.specs.Prelude.{◌≡◌, ◌≤◌, length};
ghost use Rattle.shim_records.specs.Pairs.{child_status_of};
ghost use Rattle.shim_records.specs.Killed.{living, as_dead, KillsOne, IsKilled};

use crate::acted::is_first;
use crate::pair::ChildStatus;
use crate::receiving::is_at_channel;
use crate::record::Record;
use crate::upward::update_counts_above;
use shim_base::Chan;
use shim_local::Local;

// What a fork read of the process while it lived.
fn status_alive<L: Local>(process: &L, c: &Chan) -> ChildStatus
    ensures { child_status_of result ≡ living L.ops process.now c.now.channel }
{
    ChildStatus {
        going: process.shares(c),
        ready_on: is_at_channel(process, c),
        dead_on: false,
    }
}

// What a fork reads of the process when it has died.
fn status_dead<L: Local>(process: &L, c: &Chan) -> ChildStatus
    ensures { child_status_of result ≡ as_dead L.ops process.now c.now.channel }
{
    ChildStatus {
        going: false,
        ready_on: false,
        dead_on: process.shares(c),
    }
}

// Updates the counts above for the channel, if the process shares it and it is at no place before this one.
fn kill_one<L: Local>(
    process: &L,
    records: &mut Vec<Record>,
    at: usize,
    c: &Chan,
    place: usize,
    forks: u32,
)
    ensures { KillsOne L.ops process.now forks at c.now.channel place records.old.items records.new.items }
{
    if !process.shares(c) {
        return;
    }
    if !is_first(process, c, place) {
        return;
    }
    update_counts_above(
        records,
        at,
        c,
        status_alive(process, c),
        status_dead(process, c),
        forks,
    );
}

/// Brings the counts above a process up to date that lived and was killed, for each channel that it was given
/// and shares. It may have waited at a channel, and so have been read as ready there.
pub fn kill_all<L: Local>(process: &L, records: &mut Vec<Record>, at: usize, forks: u32)
    requires few { length (L.ops.given process.now) ≤ 18446744073709551615 }
    ensures { IsKilled L.ops process.now forks at records.old.items records.new.items }
{
    for place in 0..usize::MAX {
        match process.given(place) {
            None => return,
            Some(chan) => kill_one(process, records, at, chan, place, forks),
        }
    }
}
