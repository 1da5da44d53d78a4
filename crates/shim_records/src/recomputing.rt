// The least labels of dead sharers, read off the forks' children again on the way up from a close.
ghost use Rattle.std.specs.Prelude.{◌≡◌, false, map};
ghost use Rattle.shim_laws_table.specs.Dooms.{lesser};
ghost use Rattle.shim_laws_table.specs.Recomputing.{label_at, min_label_among};
ghost use Rattle.shim_records.specs.Pairs.{tally, min_label_of, pair_of, record_view, min_labels_in};
ghost use Rattle.shim_records.specs.Recomputing.{RecomputesOne, IsRecomputed};

use crate::pair::{Pair, place_in};
use crate::record::{Record, Status, fork_size};
use shim_base::Chan;
use shim_local::Local;

// The lesser of two labels, where there are any.
fn lesser_of(one: Option<u32>, other: Option<u32>) -> Option<u32>
    ensures { result ≡ lesser one other }
{
    match one {
        None => other,
        Some(x) => match other {
            None => one,
            Some(y) => if x < y { one } else { other },
        },
    }
}

// The label that a fork keeps for the channel.
fn kept(fork: &Record, c: &Chan) -> Option<u32>
    ensures { result ≡ min_label_of (pair_of c.now.channel fork.now.pairs.items) }
{
    match place_in(fork.pairs.as_slice(), c) {
        None => None,
        Some(place) => fork.pairs[place].min_dead_label,
    }
}

// The label that its parent reads of the record with this number.
fn label_of_child<L: Local>(states: &[L], records: &[Record], at: usize, c: &Chan) -> Option<u32>
    ensures { result ≡ label_at L.ops c.now.channel states.now (map record_view records.now) (min_labels_in c.now.channel records.now) at }
{
    if at >= states.len() {
        return None;
    }
    if at >= records.len() {
        return None;
    }
    match records[at].status {
        Status::Free | Status::Live | Status::Ended => None,
        Status::Forked(_) => kept(&records[at], c),
        Status::Dead(death) => if states[at].shares(c) {
            Some(death.label)
        } else {
            None
        },
    }
}

// The least label that a fork reads of so many records from a number on.
fn label_of_children<L: Local>(
    states: &[L],
    records: &[Record],
    first: u32,
    count: u32,
    c: &Chan,
) -> Option<u32>
    ensures { result ≡ min_label_among L.ops c.now.channel states.now (map record_view records.now) (min_labels_in c.now.channel records.now) first count }
{
    let mut min_dead_label = None;
    for i in 0..count {
        min_dead_label = lesser_of(
            min_dead_label,
            label_of_child(states, records, first as usize + i as usize, c),
        );
    }
    min_dead_label
}

// Puts a label in place of that of a pair, and answers whether it is another one.
fn put_label(pair: &mut Pair, label: Option<u32>) -> bool
    ensures put { pair.new.min_dead_label ≡ label }
    ensures stays { result ≡ false → pair.new.min_dead_label ≡ pair.old.min_dead_label }
    ensures chan { pair.new.chan ≡ pair.old.chan }
    ensures sharing { pair.new.sharing ≡ pair.old.sharing }
    ensures counts { tally pair.new ≡ tally pair.old }
{
    let other = pair.min_dead_label != label;
    pair.min_dead_label = label;
    other
}

// Reads the label of the record's parent off its children, if it has counts for the channel; the parent,
// where the label is another than before.
fn recompute_one<L: Local>(
    states: &[L],
    records: &mut Vec<Record>,
    at: usize,
    c: &Chan,
) -> Option<usize>
    ensures { RecomputesOne L.ops c.now.channel states.now records.old.items at result records.new.items }
{
    if at >= records.len() {
        return None;
    }
    let above = match records[at].parent {
        None => return None,
        Some(above) => above as usize,
    };
    if above >= records.len() {
        return None;
    }
    let first = records[above].first;
    let count = fork_size(records[above].status);
    let label = label_of_children(states, records.as_slice(), first, count, c);
    let record = &mut records[above];
    let place = match place_in(record.pairs.as_slice(), c) {
        None => return None,
        Some(place) => place,
    };
    let other = put_label(&mut record.pairs[place], label);
    if other { Some(above) } else { None }
}

/// Reads the labels above a record off the forks' children again, through at most so many forks: as far up
/// as a fork's label was another than before.
pub fn recompute_min_labels<L: Local>(
    states: &[L],
    records: &mut Vec<Record>,
    at: usize,
    c: &Chan,
    forks: u32,
)
    ensures { IsRecomputed L.ops c.now.channel states.now forks at records.old.items records.new.items }
{
    let mut here = at;
    for walked in 0..forks {
        match recompute_one(states, records, here, c) {
            None => return,
            Some(above) => here = above,
        }
    }
}
