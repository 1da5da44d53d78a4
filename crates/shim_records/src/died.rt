// The labels above a process that has died, brought up to date for all channels.
ghost use Rattle.std.specs.Prelude.{◌≡◌, ◌≤◌, length};
ghost use Rattle.shim_records.specs.Died.{LowersForOne, IsTaken};

use crate::acted::is_first;
use crate::labels::lower_min_labels;
use crate::record::Record;
use shim_base::Chan;
use shim_local::Local;

// Takes the label in above for the channel, if the process shares it and it is at no place before this one.
fn lower_for_one<L: Local>(
    process: &L,
    records: &mut Vec<Record>,
    at: usize,
    c: &Chan,
    place: usize,
    label: u32,
    forks: u32,
)
    ensures { LowersForOne L.ops process.now label forks at c.now.channel place records.old.items records.new.items }
{
    if !process.shares(c) {
        return;
    }
    if !is_first(process, c, place) {
        return;
    }
    lower_min_labels(records, at, c, label, forks);
}

/// Takes the label of a process's death into the labels above its record, for each channel that it was given
/// and shares.
pub fn lower_all_labels<L: Local>(
    process: &L,
    records: &mut Vec<Record>,
    at: usize,
    label: u32,
    forks: u32,
)
    requires few { length (L.ops.given process.now) ≤ 18446744073709551615 }
    ensures { IsTaken L.ops process.now label forks at records.old.items records.new.items }
{
    for place in 0..usize::MAX {
        match process.given(place) {
            None => return,
            Some(chan) => lower_for_one(process, records, at, chan, place, label, forks),
        }
    }
}
