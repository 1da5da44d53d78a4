// What a scheduler may go by. No clause says anything of it.
use crate::net::Net;
use shim_local::Local;

impl<L: Local> Net<L> {
    /// About how many quiet steps take as long as giving out a process does, and taking it back.
    pub fn hand_over_cost(&self) -> u64 {
        self.tree.hand_over_cost()
    }

    /// How many processes may have quiet steps to do, at home or out. It is meant to be at least as many as have.
    pub fn runnable(&self) -> usize {
        self.tree.listed_quiet().saturating_add(self.grants.len())
    }

    /// How many records of processes it has: those of the root and of all children of forks that haven't closed,
    /// and free ones between them.
    pub fn records(&self) -> usize {
        self.tree.records()
    }
}
