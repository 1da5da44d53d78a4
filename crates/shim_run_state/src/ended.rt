// What is read off a run state in the end.
ghost use Rattle.std.specs.Prelude.{◌≡◌, ◌≤◌, ◌+◌, ◌⊎◌, ◌↔◌, ◌++◌, ℕ, Some, cond, map, OnOk, IfOk, IsTrue};
ghost use Rattle.std.specs.Option.{option_copied};
ghost use Rattle.std.specs.FinMap as finite;
ghost use Rattle.shim_base.specs.Paths.{Path as PathOf};
ghost use Rattle.shim_local.specs.declared.Outcome.TheVariants.{Spent};
ghost use Rattle.shim_semantics.specs.Nodes.{Node};
ghost use Rattle.shim_semantics.specs.Trees.{IsQuiescent, steps, count_of};
ghost use Rattle.shim_semantics.specs.Endings as endings;
ghost use Rattle.shim_run_log.specs.Counted.{counted};
ghost use Rattle.shim_run_log.specs.Summed.{with_counts};
ghost use Rattle.shim_process_table.specs.Lookups.{IsInUse};
ghost use Rattle.shim_run_state.specs.RunStates.{tree_in, path_at, entry, counts_from};
ghost use Rattle.shim_run_state.specs.Fields.{count_in};
ghost use Rattle.shim_run_state.specs.CheckingOut.{NoneCheckedOut};
ghost use Rattle.shim_run_state.specs.Endings.{IsRoot, outcome_by};

use crate::run_state::{PastSteps, RunState};
use crate::waits::gather;
use shim_base::{List, NoMemory, Path};
use shim_local::{Ended, Local, Outcome, OwnSteps, WaitAt};
use shim_process_table::ProcessTable;
use shim_records::Status;
use shim_run_log::{StepCounts, Waits, logs_by_path};
use std::alloc::Global;

// How many levels of the tree are read, the root's with them: no process has more than 4294967295 forks above it.
const LEVELS: u64 = 4294967296;

// What came of a process that died of an exception with this label; 0 is a trap's.
fn outcome_of_label(label: u32) -> Outcome
    ensures { result ≡ endings.outcome_of_label label }
{
    if label == 0 {
        Outcome::Trapped
    } else {
        Outcome::Uncaught(label)
    }
}

// What came of a root whose record has this status, where nothing can happen.
fn outcome_of_root(status: Status) -> Outcome
    ensures { result ≡ outcome_by status }
{
    match status {
        Status::Free | Status::Live | Status::Forked(_) => Outcome::Blocked,
        Status::Ended => Outcome::Done,
        Status::Dead(death) => outcome_of_label(death.label),
    }
}

// How a run has ended whose tree is quiescent or not.
fn outcome_of<L: Local>(table: &ProcessTable<L>, quiescent: bool) -> Outcome
    requires { IsInUse table.now 0 }
    ensures { (levels : ℕ) (root : Node L) → IsRoot table.now levels root → result ≡ cond quiescent (endings.outcome_of_root root) Spent }
{
    if !quiescent {
        return Outcome::Spent;
    }
    match table.record(0) {
        None => unreachable!(),
        Some(root) => outcome_of_root(root.status),
    }
}

// The processes that wait, by path, where the outcome is that the run is blocked, and else none.
fn waits_of<L: Local>(
    alloc: Global,
    table: &ProcessTable<L>,
    levels: u64,
    outcome: Outcome,
) -> Result<List<WaitAt>, NoMemory>
    ensures { IfOk result (λ waits. (root : Node L) → IsRoot table.now levels root → waits ≡ endings.waits_of L.ops root outcome) }
{
    match outcome {
        Outcome::Blocked => {
            let mut waits = Waits::new(alloc);
            gather(table, levels, 0, &mut waits)?;
            waits.list(alloc)
        }
        Outcome::Done => Ok(List::new(alloc)),
        Outcome::Uncaught(_) => Ok(List::new(alloc)),
        Outcome::Trapped => Ok(List::new(alloc)),
        Outcome::Spent => Ok(List::new(alloc)),
    }
}

// The path of the process with this number, if the number is in use.
fn path_in_use<L: Local>(table: &ProcessTable<L>, number: usize) -> Option<&Path>
    ensures { option_copied result ≡ path_at L.ops table.now number }
{
    let Some(process) = table.state(number) else {
        return None;
    };
    let Some(here) = table.record(number) else {
        return None;
    };
    match here.status {
        Status::Free => None,
        Status::Live => Some(process.path()),
        Status::Forked(_) => Some(process.path()),
        Status::Ended => Some(process.path()),
        Status::Dead(_) => Some(process.path()),
    }
}

// Adds so many own steps of the process with this number, if the number is in use.
fn add_at<L: Local>(
    table: &ProcessTable<L>,
    number: usize,
    count: u64,
    sums: &mut StepCounts,
) -> Result<(), NoMemory>
    requires few { (p : PathOf) → path_at L.ops table.now number ≡ Some p → count_of sums.old p + count ≤ 4000000 }
    ensures { OnOk result (sums.new ≡ with_counts sums.old (entry (path_at L.ops table.now number) count)) }
{
    match path_in_use(table, number) {
        None => Ok(()),
        Some(path) => sums.try_add(path, count),
    }
}

// Adds the own steps of each process whose number is in use.
fn add_in_use<L: Local>(
    table: &ProcessTable<L>,
    own: &[u64],
    sums: &mut StepCounts,
) -> Result<(), NoMemory>
    requires few { (p : PathOf) → count_of (with_counts sums.old (counts_from (path_at L.ops table.now) own.now)) p ≤ 4000000 }
    ensures { OnOk result (sums.new ≡ with_counts sums.old (counts_from (path_at L.ops table.now) own.now)) }
{
    for number in 0..own.len() {
        add_at(table, number, own[number], sums)?;
    }
    Ok(())
}

// Adds the own steps of the processes that are gone, since the fork that made them has closed.
fn add_past(past: &[PastSteps], sums: &mut StepCounts) -> Result<(), NoMemory>
    requires few { (p : PathOf) → count_of (with_counts sums.old (map count_in past.now)) p ≤ 4000000 }
    ensures { OnOk result (sums.new ≡ with_counts sums.old (map count_in past.now)) }
{
    for steps in past.iter() {
        sums.try_add(&steps.path, steps.count)?;
    }
    Ok(())
}

// How many steps of its own each process did that did any, by path.
fn own_steps<L: Local>(
    alloc: Global,
    table: &ProcessTable<L>,
    own: &[u64],
    past: &[PastSteps],
) -> Result<List<OwnSteps>, NoMemory>
    requires few { (p : PathOf) → count_of (counted (counts_from (path_at L.ops table.now) own.now ++ map count_in past.now)) p ≤ 4000000 }
    ensures { IfOk result (λ list. list ≡ map endings.own_steps (finite.entries (counted (counts_from (path_at L.ops table.now) own.now ++ map count_in past.now)))) }
{
    let mut sums = StepCounts::new(alloc);
    add_in_use(table, own, &mut sums)?;
    add_past(past, &mut sums)?;
    sums.list(alloc)
}

impl<L: Local> RunState<L> {
    /// What is read off a tree in which nothing can happen, or in which the budget's steps were taken, where
    /// nobody is checked out.
    pub fn ended(&self, budget: u64) -> Result<Ended, NoMemory>
        requires none { NoneCheckedOut L.ops self.now }
        requires spent { ((steps (tree_in L.ops self.now) ≤ budget) × IsQuiescent L.ops (tree_in L.ops self.now)) ⊎ (steps (tree_in L.ops self.now) ≡ budget) }
        ensures ended { IfOk result (λ ended. ended ≡ endings.ended L.ops (tree_in L.ops self.now)) }
        ensures spent { IfOk result (λ ended. (ended.outcome ≡ Spent) ↔ (IsQuiescent L.ops (tree_in L.ops self.now) → ⊥)) }
    {
        self.ended_of(self.quiescent())
    }

    // What is read off a tree that is quiescent or not.
    fn ended_of(&self, quiescent: bool) -> Result<Ended, NoMemory>
        requires { IsTrue quiescent ↔ IsQuiescent L.ops (tree_in L.ops self.now) }
        ensures ended { IfOk result (λ ended. ended ≡ endings.ended L.ops (tree_in L.ops self.now)) }
        ensures spent { IfOk result (λ ended. (ended.outcome ≡ Spent) ↔ (IsQuiescent L.ops (tree_in L.ops self.now) → ⊥)) }
    {
        let alloc = *self.output.allocator();
        let outcome = outcome_of(&self.table, quiescent);
        Ok(Ended {
            output: List::from_slice(alloc, self.output.as_slice())?,
            histories: self.histories.list(alloc)?,
            logs: logs_by_path(alloc, self.logs.as_slice())?,
            waits: waits_of(alloc, &self.table, LEVELS, outcome)?,
            own: own_steps(
                alloc,
                &self.table,
                self.process_lists.own(),
                self.past.as_slice(),
            )?,
            events: self.events,
            steps: self.taken,
            outcome,
        })
    }
}
