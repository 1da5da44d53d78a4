// The close of a fork.
ghost use Rattle.std.specs.Prelude.{◌≡◌, ◌<◌, ◌≤◌, ◌+◌, ◌⊎◌, Some, true, false, ℕ, ◌≢◌, length, map, slice_get, vec_len};
ghost use Rattle.shim_local.specs.declared.death.Death.{Death as DeathOf};
ghost use Rattle.shim_semantics.specs.Acts.{thrown};
ghost use Rattle.shim_laws_table.specs.Agrees.{free};
ghost use Rattle.shim_laws_table.specs.Changes.{segment, prevailing_with, prevailing_among};
ghost use Rattle.shim_records.specs.Acted.{process_status_of};
ghost use Rattle.shim_records.specs.Pairs.{record_view, status_view};
ghost use Rattle.shim_records.specs.declared.record.Record.{Record};
ghost use Rattle.shim_records.specs.declared.record.Status.TheVariants.{Free};
ghost use Rattle.shim_records.specs.Ways.{most_forks};
ghost use Rattle.shim_laws_table_events.specs.closes.Closing.{AreFreed, HasCome, CountsOffIfOver, GivenRecomputed, RecomputedIf};
ghost use Rattle.shim_process_table.specs.Closing.{CanClose, ClosesAt, EndsInUse, status_by_close, HasJoined, TakesBack, ClosesRecord};
ghost use Rattle.shim_process_table.specs.Acting.{thrown_by};
ghost use Rattle.shim_process_table.specs.Touching.{ChangesOnlyRecords};

use crate::acting::Thrown;
use crate::process_table::ProcessTable;
use shim_local::{Death, Local};
use shim_records::{
    Record, Status, count_off, fork_size, is_free, recompute_min_labels, update_all_counts,
};

/// What came of a process whose fork has closed.
#[derive(Clone, Copy, Debug, PartialEq, Eq)]
pub enum CloseOutcome {
    /// All children had ended, and it is after the fork.
    GoesOn,
    /// A child had died, and the exception of the prevailing death was thrown in the process.
    Threw(Thrown),
}

// The prevailing one of two deaths: that of a record with this status, if it is dead, and another, if there is one.
fn prevailing(status: Status, rest: Option<Death>) -> Option<Death>
    ensures { (f : ℕ) → result ≡ prevailing_with (status_view f status) rest }
{
    match status {
        Status::Dead(death) => match rest {
            None => Some(death),
            Some(other) => Some(death.outermost(other)),
        },
        Status::Free | Status::Live | Status::Forked(_) | Status::Ended => rest,
    }
}

// The prevailing death of these children.
fn prevailing_death(records: &[Record], first: usize, count: usize) -> Option<Death>
    requires { first + count ≤ length records.now }
    ensures { result ≡ prevailing_among (segment first count (map record_view records.now)) }
{
    let mut death = None;
    let mut left = count;
    while left > 0 {
        left -= 1;
        death = prevailing(records[first + left].status, death);
    }
    death
}

// The process takes back the values of its children, whose states are after its own.
fn join_after<L: Local>(states: &mut [L], parent: usize, first: usize, count: usize, goes_on: bool)
    requires order { parent < first }
    requires inside { first + count ≤ length states.old }
    requires born { (l : L) → slice_get states.old parent ≡ Some l → L.ops.born l (segment first count states.old) }
    ensures { HasJoined L.ops parent first count goes_on states.old states.new }
{
    let (front, back) = states.split_at_mut(first);
    front[parent].join(&back[..count], goes_on);
}

// The process takes back the values of its children, whose states are before its own.
fn join_before<L: Local>(states: &mut [L], parent: usize, first: usize, count: usize, goes_on: bool)
    requires order { first + count ≤ parent }
    requires inside { parent < length states.old }
    requires born { (l : L) → slice_get states.old parent ≡ Some l → L.ops.born l (segment first count states.old) }
    ensures { HasJoined L.ops parent first count goes_on states.old states.new }
{
    let (front, back) = states.split_at_mut(parent);
    let (_, children) = front.split_at_mut(first);
    back[0].join(&children[..count], goes_on);
}

// The process takes back the values of its children, wherever their states stand.
fn join_children<L: Local>(
    states: &mut Vec<L>,
    parent: usize,
    first: usize,
    count: usize,
    goes_on: bool,
)
    requires apart { (parent < first) ⊎ (first + count ≤ parent) }
    requires parent { parent < length states.old.items }
    requires inside { first + count ≤ length states.old.items }
    requires born { (l : L) → slice_get states.old.items parent ≡ Some l → L.ops.born l (segment first count states.old.items) }
    ensures { HasJoined L.ops parent first count goes_on states.old.items states.new.items }
{
    if parent < first {
        join_after(states.as_mut_slice(), parent, first, count, goes_on);
    } else {
        join_before(states.as_mut_slice(), parent, first, count, goes_on);
    }
}

/// Throws the exception of this death in a process.
pub(crate) fn throw_in<L: Local>(process: &mut L, death: Death) -> Thrown
    requires { death.label < L.ops.handlers process.old }
    ensures { thrown_by result process.new ≡ thrown L.ops process.old death }
{
    if death.label < process.base() {
        return Thrown::Died(death);
    }
    let (name, line) = process.handler(death.label);
    process.unwind(death.label, death.handed());
    Thrown::Caught(name, line)
}

// The process takes back its children's values. If any child died, the exception of the prevailing death is thrown in
// the process.
fn join_and_throw<L: Local>(
    states: &mut Vec<L>,
    parent: usize,
    first: usize,
    count: usize,
    death: Option<Death>,
) -> CloseOutcome
    requires apart { (parent < first) ⊎ (first + count ≤ parent) }
    requires parent { parent < length states.old.items }
    requires inside { first + count ≤ length states.old.items }
    requires born { (l : L) → slice_get states.old.items parent ≡ Some l → L.ops.born l (segment first count states.old.items) }
    requires below { (l : L) (d : DeathOf) → slice_get states.old.items parent ≡ Some l → death ≡ Some d → d.label < L.ops.handlers (L.ops.join l (segment first count states.old.items) false) }
    ensures { TakesBack L.ops parent first count death result states.old.items states.new.items }
{
    join_children(states, parent, first, count, death.is_none());
    match death {
        None => CloseOutcome::GoesOn,
        Some(death) => CloseOutcome::Threw(throw_in(&mut states[parent], death)),
    }
}

// The records of so many children are free again.
fn free_children(records: &mut Vec<Record>, first: usize, count: usize)
    requires { first + count ≤ vec_len records.old }
    ensures { AreFreed first count records.old.items records.new.items }
{
    for at in first..first + count {
        records[at].status = Status::Free;
    }
}

// This came of a process, and it has no children any more.
fn come_to(parent: &mut Record, status: Status)
    requires { status ≢ Free }
    ensures { HasCome parent.old parent.new (process_status_of status) }
{
    parent.status = status;
    parent.pairs.clear();
}

// If this status is an end or a death, the record's parent counts one child less that goes on.
fn count_off_if_over(records: &mut Vec<Record>, at: usize, status: Status)
    ensures { CountsOffIfOver (process_status_of status) at records.old.items records.new.items }
{
    match status {
        Status::Free | Status::Ended | Status::Dead(_) => count_off(records, at),
        Status::Live | Status::Forked(_) => {}
    }
}

// Reads the labels above a process off again, for each channel that it was given and shares.
fn recompute_all<L: Local>(states: &[L], records: &mut Vec<Record>, at: usize, forks: u32)
    requires few { (s : L) → slice_get states.now at ≡ Some s → length (L.ops.given s) ≤ 18446744073709551615 }
    requires inside { at < length states.now }
    ensures { (s : L) → slice_get states.now at ≡ Some s → GivenRecomputed L.ops states.now s forks at records.old.items records.new.items }
{
    let process = &states[at];
    for place in 0..usize::MAX {
        match process.given(place) {
            None => return,
            Some(chan) => {
                if process.shares(chan) {
                    recompute_min_labels(states, records, at, chan, forks);
                }
            }
        }
    }
}

// If a child died, reads the labels above a process off again; else no label can have gone. The answer bounds how
// many forks above have changed records.
fn recompute_if<L: Local>(
    states: &[L],
    records: &mut Vec<Record>,
    at: usize,
    death: Option<Death>,
) -> u32
    requires few { (s : L) → slice_get states.now at ≡ Some s → length (L.ops.given s) ≤ 18446744073709551615 }
    requires inside { at < length states.now }
    ensures recomputes { (s : L) → slice_get states.now at ≡ Some s → RecomputedIf death L.ops states.now s most_forks at records.old.items records.new.items }
    ensures touches { ChangesOnlyRecords result at records.old.items records.new.items }
{
    match death {
        None => 0,
        Some(_) => {
            recompute_all(states, records, at, u32::MAX);
            u32::MAX
        }
    }
}

// Of a process whose fork has closed: its record takes this status, and all above is brought up to date. `death` is
// the prevailing one of its children, if any died. The answer bounds how many forks above have changed records.
fn close_record<L: Local>(
    states: &[L],
    records: &mut Vec<Record>,
    at: usize,
    status: Status,
    death: Option<Death>,
) -> u32
    requires few { (s : L) → slice_get states.now at ≡ Some s → length (L.ops.given s) ≤ 18446744073709551615 }
    requires of_state { at < length states.now }
    requires of_record { at < length records.old.items }
    requires status { status ≢ Free }
    ensures closes { ClosesRecord L.ops states.now at status death records.old.items records.new.items }
    ensures touches { ChangesOnlyRecords result at records.old.items records.new.items }
{
    come_to(&mut records[at], status);
    count_off_if_over(records, at, status);
    let counted = update_all_counts(&states[at], status, records, at, u32::MAX);
    let labelled = recompute_if(states, records, at, death);
    // if the process has ended or died, its parent counts one child less that goes on, though no child may have died
    labelled.max(counted).max(1)
}

// What came of a process.
fn status_after(outcome: CloseOutcome) -> Status
    ensures used { result ≢ Free }
    ensures status { process_status_of result ≡ status_by_close outcome }
{
    match outcome {
        CloseOutcome::GoesOn => Status::Live,
        CloseOutcome::Threw(Thrown::Caught(_, _)) => Status::Live,
        CloseOutcome::Threw(Thrown::Died(death)) => Status::Dead(death),
        CloseOutcome::Threw(Thrown::Trapped) => Status::Live,
    }
}

// How many records there are without the free ones at the end.
fn used_end(records: &[Record]) -> usize
    ensures free { (i : ℕ) (r : Record) → result ≤ i → slice_get records.now i ≡ Some r → record_view r ≡ free }
    ensures used { (i : ℕ) (r : Record) → result ≡ i + 1 → slice_get records.now i ≡ Some r → record_view r ≢ free }
    ensures inside { result ≤ length records.now }
{
    let mut end = records.len();
    while end > 0 {
        if !is_free(&records[end - 1]) {
            return end;
        }
        end -= 1;
    }
    end
}

impl<L: Local> ProcessTable<L> {
    /// Closes the fork of the process with this number, of which no child goes on: it takes back its
    /// children's values, and goes on after the fork, or the exception of the prevailing death of its
    /// children is thrown in it. The children's records are free, and those at the end are cut off. The number in
    /// the answer bounds how many forks above the process have changed records. It takes no memory.
    pub fn close(&mut self, number: u32) -> (CloseOutcome, u32)
        requires { CanClose self.old number }
        ensures closes { ClosesAt L.ops result.1 number result.0 self.old self.new }
        ensures end_in_use { EndsInUse self.new }
    {
        let at = number as usize;
        let first = self.records[at].first;
        let count = fork_size(self.records[at].status);
        let death = prevailing_death(self.records.as_slice(), first as usize, count as usize);
        let outcome = join_and_throw(&mut self.states, at, first as usize, count as usize, death);
        free_children(&mut self.records, first as usize, count as usize);
        self.free.give_back(first, count);
        let status = status_after(outcome);
        let forks = close_record(self.states.as_slice(), &mut self.records, at, status, death);
        let end = used_end(self.records.as_slice());
        self.records.truncate(end);
        self.states.truncate(end);
        (outcome, forks)
    }
}
