// The serial numbers of channels that no handler has taken.
ghost use Rattle.std.specs.Prelude.{◌≡◌, ◌<◌, ◌≤◌, ◌+◌, ◌-◌, ◌^◌, suc, eqb, true, false, [], ◌++◌, take, drop, reverse, None, MatchOption, vec_len, vec_capacity, IfOk, OnOk, OnErr, OnSome};
ghost use Rattle.std.specs.Option.{option_to_list};
ghost use Rattle.shim_process.specs.SerialRuns.{last_serial, is_in_run, is_in_runs, with_serial, without_serial, without_some, run_above, run_below};
ghost use Rattle.shim_locations.specs.Runs.{AreBelow, IsFound};

use shim_base::NoMemory;
use shim_process::SerialRun;
use std::alloc::Global;
use std::marker::Model;

/// Runs of consecutive numbers, with room for so many to be added or taken, which needs no memory then.
/// Contracts see the greatest run first.
#[derive(Drop)]
pub struct SerialRuns {
    runs: Vec<SerialRun>,
    room: usize,
}

impl Model for SerialRuns {
    ghost use Rattle.std.specs.Prelude.{reverse, ◌^◌, vec_len, vec_capacity};
    ghost use Rattle.shim_locations.specs.Runs.{RunsView, AreBelow, HasCapacity};

    ghost Value = { RunsView };

    ghost view = { λ c. record { runs = reverse c.runs.items; room = c.room } };

    ghost invariant = { λ c. HasCapacity (vec_len c.runs) c.room (vec_capacity c.runs) × AreBelow (2 ^ 32) (reverse c.runs.items) };
}

impl SerialRuns {
    pub fn new(alloc: Global) -> SerialRuns
        ensures { result ≡ record { runs = []; room = 0 } }
    {
        SerialRuns {
            runs: Vec::new(alloc),
            room: 0,
        }
    }

    /// The smallest run first.
    pub fn as_slice(&self) -> &[SerialRun]
        ensures { reverse result.now ≡ self.now.runs }
    {
        self.runs.as_slice()
    }

    /// How many can be added or taken.
    pub fn room(&self) -> usize
        ensures { result ≡ self.now.room }
    {
        self.room
    }

    /// Other ones of the same meaning, with the same room.
    pub fn copy(&self, alloc: Global) -> Result<SerialRuns, NoMemory>
        ensures { IfOk result (λ copy. copy ≡ self.now) }
    {
        let many = self.runs.len().checked_add(self.room).ok_or(NoMemory)?;
        let mut runs = Vec::with_capacity(alloc, many)?;
        let old = self.runs.as_slice();
        for run in old {
            runs.push_reserved(*run);
        }
        Ok(SerialRuns {
            runs,
            room: self.room,
        })
    }

    /// Room for so many numbers to be added or taken from now on. A refusal changes nothing.
    pub fn reserve(&mut self, room: usize) -> Result<(), NoMemory>
        ensures ok { OnOk result (self.new ≡ record self.old { room = room }) }
        ensures err { OnErr result (self.new ≡ self.old) }
    {
        self.runs.reserve(room)?;
        self.room = room;
        Ok(())
    }

    /// With one number that is greater than all of them, where there is room. Takes no memory.
    pub fn add(&mut self, serial: u32)
        requires below { AreBelow serial self.old.runs }
        requires room { 1 ≤ self.old.room }
        ensures { self.new ≡ record { runs = with_serial serial self.old.runs; room = self.old.room - 1 } }
    {
        push_serial(&mut self.runs, serial);
        self.room -= 1;
    }

    /// Whether the number is one of them.
    pub fn has(&self, serial: u32) -> bool
        ensures { result ≡ is_in_runs serial self.now.runs }
    {
        find(self.runs.as_slice(), serial).is_some()
    }

    /// Without this one, if there is one; then there has to be room. Takes no memory.
    pub fn take_some(&mut self, serial: Option<u32>)
        requires { OnSome serial (1 ≤ self.old.room) }
        ensures runs { self.new.runs ≡ without_some serial self.old.runs }
        ensures less { OnSome serial (self.new.room + 1 ≡ self.old.room) }
        ensures same { serial ≡ None → self.new.room ≡ self.old.room }
    {
        if let Some(serial) = serial {
            self.take(serial);
        }
    }

    /// Without this one, where there is room. Takes no memory.
    #[tactic(auto, using(crate::proofs::RunChanges::take_keeps))]
    pub fn take(&mut self, serial: u32)
        requires { 1 ≤ self.old.room }
        ensures { self.new ≡ record { runs = without_serial serial self.old.runs; room = self.old.room - 1 } }
    {
        take_serial(&mut self.runs, serial);
        self.room -= 1;
    }
}

// The number is the next one after the last of this run.
fn follows(run: SerialRun, serial: u32) -> bool
    requires { last_serial run < serial }
    ensures { result ≡ eqb serial (suc (last_serial run)) }
{
    serial - run.first - 1 == run.more
}

// With a number that is greater than all of them.
fn push_serial(runs: &mut Vec<SerialRun>, serial: u32)
    requires below { AreBelow serial (reverse runs.old.items) }
    requires room { vec_len runs.old < vec_capacity runs.old }
    ensures items { reverse runs.new.items ≡ with_serial serial (reverse runs.old.items) }
    ensures len { vec_len runs.new ≤ vec_len runs.old + 1 }
    ensures capacity { vec_capacity runs.new ≡ vec_capacity runs.old }
{
    let one = SerialRun {
        first: serial,
        more: 0,
    };
    match runs.pop() {
        None => runs.push_reserved(one),
        Some(run) => {
            if follows(run, serial) {
                runs.push_reserved(SerialRun {
                    first: run.first,
                    more: run.more + 1,
                });
            } else {
                runs.push_reserved(run);
                runs.push_reserved(one);
            }
        }
    }
}

// What a run has above one of its numbers.
fn above(run: SerialRun, serial: u32) -> Option<SerialRun>
    requires inside { is_in_run serial run ≡ true }
    requires bound { last_serial run < 2 ^ 32 }
    ensures { option_to_list result ≡ run_above serial run }
{
    let many = run.more - (serial - run.first);
    if many == 0 {
        return None;
    }
    Some(SerialRun {
        first: serial + 1,
        more: many - 1,
    })
}

// What a run has below one of its numbers.
fn below(run: SerialRun, serial: u32) -> Option<SerialRun>
    requires { is_in_run serial run ≡ true }
    ensures { option_to_list result ≡ run_below serial run }
{
    let many = serial - run.first;
    if many == 0 {
        return None;
    }
    Some(SerialRun {
        first: run.first,
        more: many - 1,
    })
}

// Whether the run has the number.
fn has_number(run: SerialRun, serial: u32) -> bool
    ensures { result ≡ is_in_run serial run }
{
    let last = u64::from(run.first) + u64::from(run.more);
    run.first <= serial && u64::from(serial) <= last
}

// The run that has the number, and its index.
#[tactic(auto, using(crate::proofs::RunChanges::looks_on, crate::proofs::RunChanges::looks_past, crate::proofs::RunChanges::looked_at_all))]
fn find(runs: &[SerialRun], serial: u32) -> Option<(usize, SerialRun)>
    ensures { MatchOption result (is_in_runs serial runs.now ≡ false) (λ found. IsFound serial runs.now found.0 found.1) }
{
    for index in 0..runs.len() {
        if let Some(run) = runs.get(index).copied() {
            if has_number(run, serial) {
                return Some((index, run));
            }
        }
    }
    None
}

// With one more at this index, if there is one.
fn insert_some(runs: &mut Vec<SerialRun>, index: usize, run: Option<SerialRun>)
    requires index { index ≤ vec_len runs.old }
    requires room { vec_len runs.old < vec_capacity runs.old }
    ensures items { runs.new.items ≡ take index runs.old.items ++ (option_to_list run ++ drop index runs.old.items) }
    ensures len { vec_len runs.new ≤ vec_len runs.old + 1 }
    ensures capacity { vec_capacity runs.old ≤ vec_capacity runs.new }
{
    if let Some(run) = run {
        // there is room, so this can't fail
        let _ = runs.insert(index, run);
    }
}

// Without a number that this run has.
fn take_from(runs: &mut Vec<SerialRun>, index: usize, run: SerialRun, serial: u32)
    requires found { IsFound serial runs.old.items index run }
    requires ordered { AreBelow (2 ^ 32) (reverse runs.old.items) }
    requires room { vec_len runs.old < vec_capacity runs.old }
    ensures items { reverse runs.new.items ≡ without_serial serial (reverse runs.old.items) }
    ensures len { vec_len runs.new ≤ vec_len runs.old + 1 }
    ensures capacity { vec_capacity runs.old ≤ vec_capacity runs.new }
{
    runs.remove(index);
    insert_some(runs, index, above(run, serial));
    insert_some(runs, index, below(run, serial));
}

// Without this number.
#[tactic(auto, using(crate::proofs::RunChanges::nothing_taken))]
fn take_serial(runs: &mut Vec<SerialRun>, serial: u32)
    requires ordered { AreBelow (2 ^ 32) (reverse runs.old.items) }
    requires room { vec_len runs.old < vec_capacity runs.old }
    ensures items { reverse runs.new.items ≡ without_serial serial (reverse runs.old.items) }
    ensures len { vec_len runs.new ≤ vec_len runs.old + 1 }
    ensures capacity { vec_capacity runs.old ≤ vec_capacity runs.new }
{
    if let Some((index, run)) = find(runs.as_slice(), serial) {
        take_from(runs, index, run, serial);
    }
}
