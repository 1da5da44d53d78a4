// What can happen at a process, by its record and those of its children.
ghost use Rattle.std.specs.Prelude.{◌≡◌, ◌≢◌, ℕ, true, false, Some, slice_get};
ghost use Rattle.shim_laws_table.specs.NodeStatus.{lives};
ghost use Rattle.shim_laws_table.specs.Counts.{tally_ready};
ghost use Rattle.shim_records.specs.Pairs.{tally};
ghost use Rattle.shim_records.specs.declared.record.Status.TheVariants.{Forked};
ghost use Rattle.shim_laws_table_events.specs.keeping.Tables.{TableView, HasProcessState};
ghost use Rattle.shim_process_table.specs.Due.{DueIs};

use crate::looking::doomed;
use crate::process_table::ProcessTable;
use shim_base::{Chan, Trap};
use shim_local::{Local, Stop};
use shim_records::{Pair, Record, Status, tally_ready};

/// What can happen at a process, other than a quiet step.
#[derive(Clone, Copy, Debug, PartialEq, Eq)]
pub enum Due {
    Nothing,
    /// It lives, and is at a `put`.
    Put,
    /// It lives, and is at a fork.
    Fork,
    /// It lives, and throws the exception of this label.
    Throw(u32),
    /// It lives, and is trapped: why, and the line.
    Trap(Trap, u32),
    /// It lives, and has nothing left to do.
    Finish,
    /// It has forked, and none of its children goes on.
    Close,
    /// It lives, and waits at a channel that it declared.
    MeetAlone,
    /// It has forked, and all who share a channel that it declared are there: the place of the channel's pair.
    Meet(usize),
    /// It has forked, and a child is ready on a channel on which a death below the fork dooms it: the place of
    /// the channel's pair, and the child's number.
    Poison(usize, usize),
}

/// Whether the process declared the channel.
pub(crate) fn declares<L: Local>(process: &L, chan: &Chan) -> bool
    ensures own { result ≡ true → L.ops.path process.now ≡ chan.now.channel.home }
    ensures other { result ≡ false → L.ops.path process.now ≢ chan.now.channel.home }
{
    *process.path() == *chan.home()
}

// What can happen at a live process other than a quiet step, whatever its number is.
fn due_alone<L: Local>(process: &L) -> Due
    ensures { (v : TableView L) (i f : ℕ) → HasProcessState v i f process.now lives → DueIs L.ops v i result }
{
    match process.stop() {
        Stop::Quiet => Due::Nothing,
        Stop::Next(chan) => {
            if declares(process, chan) {
                Due::MeetAlone
            } else {
                Due::Nothing
            }
        }
        Stop::Put => Due::Put,
        Stop::Fork => Due::Fork,
        Stop::Finish => Due::Finish,
        Stop::Throw(label) => Due::Throw(label),
        Stop::Trapped(trap, line) => Due::Trap(trap, line),
    }
}

// Whether the process declared the channel of this pair of its fork, and is ready on it by the pair's counts.
fn can_meet<L: Local>(process: &L, pair: &Pair) -> bool
    ensures met { result ≡ true → (L.ops.path process.now ≡ pair.now.chan.channel.home) × (tally_ready (tally pair.now) ≡ true) }
    ensures not_met { result ≡ false → L.ops.path process.now ≡ pair.now.chan.channel.home → tally_ready (tally pair.now) ≡ false }
{
    if tally_ready(pair) {
        declares(process, &pair.chan)
    } else {
        false
    }
}

// What can happen at a fork of this process, with this record, into so many.
fn due_below<L: Local>(
    states: &[L],
    records: &[Record],
    process: &L,
    fork: &Record,
    count: u32,
) -> Due
    ensures { (i : ℕ) → slice_get states.now i ≡ Some process.now → slice_get records.now i ≡ Some fork.now → fork.now.status ≡ Forked count → DueIs L.ops (record { states = states.now; records = records.now }) i result }
{
    if fork.going_children == 0 {
        return Due::Close;
    }
    for place in 0..fork.pairs.len() {
        let pair = &fork.pairs[place];
        if can_meet(process, pair) {
            return Due::Meet(place);
        }
        match doomed(states, records, process, fork.first, count, pair) {
            None => {}
            Some(child) => return Due::Poison(place, child),
        }
    }
    Due::Nothing
}

impl<L: Local> ProcessTable<L> {
    /// What can happen at the process with this number other than a quiet step, by its record. It takes no memory.
    pub fn due(&self, number: u32) -> Due
        ensures { DueIs L.ops self.now number result }
    {
        let at = number as usize;
        if at >= self.states.len() {
            return Due::Nothing;
        }
        if at >= self.records.len() {
            return Due::Nothing;
        }
        match self.records[at].status {
            Status::Free | Status::Ended | Status::Dead(_) => Due::Nothing,
            Status::Live => due_alone(&self.states[at]),
            Status::Forked(count) => due_below(
                self.states.as_slice(),
                self.records.as_slice(),
                &self.states[at],
                &self.records[at],
                count,
            ),
        }
    }
}
