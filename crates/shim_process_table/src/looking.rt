// Which child of a fork is ready on a channel, and doomed there.
ghost use Rattle.std.specs.Prelude.{◌≡◌};
ghost use Rattle.shim_laws_table.specs.Dooms.{is_below};
ghost use Rattle.shim_records.specs.Pairs.{counts_ready, tally_for};
ghost use Rattle.shim_process_table.specs.Due.{ready_at, ReadyAmong, DoomedAmong};

use shim_base::Chan;
use shim_local::Local;
use shim_records::{Pair, Record, Status, is_at_channel, place_in, tally_ready};

// Whether a fork is ready on the channel by the counts that it has for that.
fn counts_all(fork: &Record, c: &Chan) -> bool
    ensures { result ≡ counts_ready (tally_for c.now.channel fork.now.pairs.items) }
{
    match place_in(fork.pairs.as_slice(), c) {
        None => false,
        Some(place) => tally_ready(&fork.pairs[place]),
    }
}

// Whether the process with this number is ready on the channel.
fn is_ready<L: Local>(states: &[L], records: &[Record], at: usize, c: &Chan) -> bool
    ensures { result ≡ ready_at L.ops c.now.channel states.now records.now at }
{
    if at >= states.len() {
        return false;
    }
    if at >= records.len() {
        return false;
    }
    match records[at].status {
        Status::Free | Status::Ended | Status::Dead(_) => false,
        Status::Live => is_at_channel(&states[at], c),
        Status::Forked(_) => counts_all(&records[at], c),
    }
}

// The first of so many from a number on that is ready on the channel.
fn first_ready<L: Local>(
    states: &[L],
    records: &[Record],
    first: u32,
    count: u32,
    c: &Chan,
) -> Option<usize>
    ensures { ReadyAmong L.ops c.now.channel states.now records.now first count result }
{
    for branch in 0..count {
        let child = first as usize + branch as usize;
        if is_ready(states, records, child, c) {
            return Some(child);
        }
    }
    None
}

// Whether there is a label, and it is below the number of exception places in force at the process.
fn is_low<L: Local>(label: Option<u32>, process: &L) -> bool
    ensures { result ≡ is_below label (L.ops.handlers process.now) }
{
    match label {
        None => false,
        Some(label) => label < process.handlers(),
    }
}

/// The first child that the pair's label dooms at a fork of this process, whose children have so many numbers
/// from the first one on.
pub(crate) fn doomed<L: Local>(
    states: &[L],
    records: &[Record],
    process: &L,
    first: u32,
    count: u32,
    pair: &Pair,
) -> Option<usize>
    ensures { DoomedAmong L.ops states.now records.now process.now first count pair.now result }
{
    if is_low(pair.min_dead_label, process) {
        first_ready(states, records, first, count, &pair.chan)
    } else {
        None
    }
}
