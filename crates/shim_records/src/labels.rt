// The least labels of dead sharers, brought up to date on the way up from a death.
ghost use Rattle.std.specs.Prelude.{◌≡◌, Some, false};
ghost use Rattle.shim_laws_table.specs.Dooms.{lesser};
ghost use Rattle.shim_records.specs.Pairs.{tally};
ghost use Rattle.shim_records.specs.Labels.{LowersOne, IsLoweredAbove};

use crate::pair::{Pair, place_in};
use crate::record::Record;
use shim_base::Chan;

// Takes a label into that of a pair. The answer is whether the pair's label changed: it had none, or a greater one.
fn lower_label(pair: &mut Pair, label: u32) -> bool
    ensures taken { pair.new.min_dead_label ≡ lesser pair.old.min_dead_label (Some label) }
    ensures stays { result ≡ false → pair.new.min_dead_label ≡ pair.old.min_dead_label }
    ensures chan { pair.new.chan ≡ pair.old.chan }
    ensures sharing { pair.new.sharing ≡ pair.old.sharing }
    ensures counts { tally pair.new ≡ tally pair.old }
{
    match pair.min_dead_label {
        None => {
            pair.min_dead_label = Some(label);
            true
        }
        Some(min_dead_label) => {
            if label < min_dead_label {
                pair.min_dead_label = Some(label);
                true
            } else {
                false
            }
        }
    }
}

// Takes the label into that of the record's parent, if the parent has counts for the channel. The answer is the
// parent, if its label changed.
fn lower_one(records: &mut Vec<Record>, at: usize, c: &Chan, label: u32) -> Option<usize>
    ensures { LowersOne c.now.channel label records.old.items at result records.new.items }
{
    if at >= records.len() {
        return None;
    }
    let above = match records[at].parent {
        None => return None,
        Some(above) => above as usize,
    };
    if above >= records.len() {
        return None;
    }
    let record = &mut records[above];
    let place = match place_in(record.pairs.as_slice(), c) {
        None => return None,
        Some(place) => place,
    };
    let lower = lower_label(&mut record.pairs[place], label);
    if lower { Some(above) } else { None }
}

/// Takes the label of a death of a sharer of the channel into the labels above its record, through at most
/// so many forks: as far up as a fork had none as low.
pub fn lower_min_labels(records: &mut Vec<Record>, at: usize, c: &Chan, label: u32, forks: u32)
    ensures { IsLoweredAbove c.now.channel label forks at records.old.items records.new.items }
{
    let mut here = at;
    for walked in 0..forks {
        match lower_one(records, here, c, label) {
            None => return,
            Some(above) => here = above,
        }
    }
}
