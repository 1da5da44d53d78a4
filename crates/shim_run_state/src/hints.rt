// What a scheduler may go by. No clause says anything of it.
use crate::run_state::RunState;
use shim_local::Local;

impl<L: Local> RunState<L> {
    /// About how many quiet steps take as long as handing over one of its processes does: the root's stands for
    /// all, since they have program and input in common.
    pub fn hand_over_cost(&self) -> u64 {
        match self.table.state(0) {
            None => 0, // there is always a root
            Some(root) => root.hand_over_cost(),
        }
    }

    /// How many processes are listed as standing before a quiet step: each one that does and isn't checked out, and
    /// perhaps some that have come to another stop since.
    pub fn listed_quiet(&self) -> usize {
        self.process_lists.ready_queue().len()
    }

    /// How many records it has: those of the root and of all children of forks that haven't closed, and free
    /// ones between them.
    pub fn records(&self) -> usize {
        self.table.len()
    }
}
