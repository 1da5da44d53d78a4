// What is read off a run state.
ghost use Rattle.std.specs.Prelude.{◌↔◌, IsTrue};
ghost use Rattle.shim_semantics.specs.Trees.{IsQuiescent};
ghost use Rattle.shim_run_state.specs.RunStates.{tree_in};
ghost use Rattle.shim_run_state.specs.CheckingOut.{NoneCheckedOut};
ghost use Rattle.shim_run_state.specs.Quiescence.{NoneQuiet, NoneDue};

use crate::run_state::RunState;
use crate::settling::is_something;
use shim_local::Local;
use shim_process_table::ProcessTable;

// Whether none of the processes with these numbers is before a quiet step.
fn none_quiet<L: Local>(table: &ProcessTable<L>, numbers: &[u32]) -> bool
    ensures { NoneQuiet L.ops table.now numbers.now result }
{
    for at in 0..numbers.len() {
        if table.is_before_quiet(numbers[at]) {
            return false;
        }
    }
    true
}

// Whether nothing but a quiet step can happen at any of these numbers.
fn none_due<L: Local>(table: &ProcessTable<L>, numbers: &[u32]) -> bool
    ensures { NoneDue L.ops table.now numbers.now result }
{
    for at in 0..numbers.len() {
        let number = numbers[at];
        if is_something(table.due(number)) {
            return false;
        }
    }
    true
}

impl<L: Local> RunState<L> {
    /// Whether no event is enabled, where nobody is checked out. It takes no memory.
    pub fn quiescent(&self) -> bool
        requires { NoneCheckedOut L.ops self.now }
        ensures { IsTrue result ↔ IsQuiescent L.ops (tree_in L.ops self.now) }
    {
        if !none_quiet(&self.table, self.process_lists.ready_queue()) {
            return false;
        }
        none_due(&self.table, self.process_lists.event_queue())
    }
}
