// Processes that are before a quiet step: which of them are checked out, and the steps that they do.
ghost use Rattle.std.specs.Prelude.{◌≡◌, ◌≤◌, ◌+◌, ℕ, true, false};
ghost use Rattle.shim_semantics.specs.Trees.{steps};
ghost use Rattle.shim_laws_table.specs.NodeStatus.{ProcessStatus};
ghost use Rattle.shim_laws_table_events.specs.keeping.Tables.{HasProcessState};
ghost use Rattle.shim_laws_table_events.specs.queues.EventQueue.{is_listed};
ghost use Rattle.shim_process_table.specs.Lookups.{IsInUse, IsForAll};
ghost use Rattle.shim_run_state.specs.RunStates.{tree_in, IsQuietAt};
ghost use Rattle.shim_run_state.specs.Enqueueing.{KeepsQuietListed, IsListedHome};
ghost use Rattle.shim_run_state.specs.CheckingOut.{IsHomeAt, IsNextQuiet, ChecksOut, CheckedOutReaches, ChecksIn, StepsIn};

use crate::run_state::RunState;
use shim_base::Path;
use shim_local::{Local, Quiet};
use shim_process_table::ProcessTable;
use shim_records::Worklist;

// Whether the process with this number is before a quiet step, and isn't checked out.
fn is_at_home<L: Local>(table: &ProcessTable<L>, checked_out: &[bool], number: u32) -> bool
    requires { IsForAll table.now checked_out.now }
    ensures home { result ≡ true → (l : L) × IsQuietAt L.ops table.now number l × (is_listed checked_out.now number ≡ false) }
    ensures other { result ≡ false → (l : L) → IsQuietAt L.ops table.now number l → is_listed checked_out.now number ≡ true }
{
    if !table.is_before_quiet(number) {
        return false;
    }
    !checked_out[number as usize]
}

// A listed number of a process that is before a quiet step and isn't checked out; it is looked for from the one
// listed last on. Those that were looked at before it are listed no more.
pub(crate) fn first_at_home<L: Local>(
    table: &ProcessTable<L>,
    checked_out: &[bool],
    ready_queue: &mut Worklist,
) -> Option<u32>
    requires { IsForAll table.now checked_out.now }
    ensures still { KeepsQuietListed L.ops table.now checked_out.now ready_queue.old ready_queue.new }
    ensures first { IsListedHome L.ops table.now checked_out.now ready_queue.new result }
{
    while let Some(number) = ready_queue.take() {
        if is_at_home(table, checked_out, number) {
            ready_queue.add(number);
            return Some(number);
        }
    }
    None
}

impl<L: Local> RunState<L> {
    /// The number of a process that is before a quiet step and isn't checked out; `None` exactly where each such
    /// process is checked out. It takes no memory.
    pub fn next_quiet(&mut self) -> Option<u32>
        ensures { IsNextQuiet L.ops self.old self.new result }
    {
        self.process_lists.next_at_home(&self.table)
    }

    /// The process with this number, which is in use.
    pub fn process(&self, number: u32) -> &L
        requires { IsInUse self.now.table number }
        ensures { (f : ℕ) × (k : ProcessStatus) × HasProcessState self.now.table number f result.now k }
    {
        self.table.process(number)
    }

    /// The path of the process with this number, which is in use.
    pub fn path(&self, number: u32) -> &Path
        requires { IsInUse self.now.table number }
        ensures { (f : ℕ) (l : L) (k : ProcessStatus) → HasProcessState self.now.table number f l k → result.now ≡ L.ops.path l }
    {
        self.table.path(number)
    }

    /// Checks out the process with this number, which is before a quiet step and isn't checked out: until it is
    /// checked in, it stays as it is. It takes no memory.
    pub fn check_out(&mut self, number: u32)
        requires { (l : L) × IsHomeAt L.ops self.old number l }
        ensures { (l : L) → IsHomeAt L.ops self.old number l → ChecksOut L.ops self.old self.new number l }
    {
        self.process_lists.set_out(&self.table, number, true);
    }

    /// The checked out process with this number did so many quiet steps elsewhere, which led to this state. It is
    /// checked out no more. With these steps the tree has at most 4,000,000. It takes no memory.
    pub fn check_in(&mut self, number: u32, last: L, taken: u64)
        requires did { (l : L) × CheckedOutReaches L.ops self.old number taken l last }
        requires few { steps (tree_in L.ops self.old) + taken ≤ 4000000 }
        ensures { (l : L) → CheckedOutReaches L.ops self.old number taken l last → ChecksIn L.ops self.old self.new number taken l last }
    {
        let to_requeue = self.table.advance(number, last);
        self.process_lists.set_out(&self.table, number, false);
        self.process_lists
            .acted(&self.table, number, taken, to_requeue);
        self.taken += taken;
    }

    /// The process with this number, which is before a quiet step and isn't checked out, does up to `most` quiet
    /// steps in place. It does fewer only where it comes to another stop, or memory runs out.
    /// With `most` more the tree has at most 4,000,000 steps.
    pub fn step(&mut self, number: u32, most: u64) -> Quiet
        requires home { (l : L) × IsHomeAt L.ops self.old number l }
        requires few { steps (tree_in L.ops self.old) + most ≤ 4000000 }
        ensures { (l : L) → IsHomeAt L.ops self.old number l → StepsIn L.ops self.old self.new number most result l }
    {
        let (did, to_requeue) = self.table.step(number, most);
        self.process_lists
            .acted(&self.table, number, did.taken, to_requeue);
        self.taken += did.taken;
        did
    }
}
