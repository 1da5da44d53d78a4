// Quiet steps in place.
ghost use Rattle.std.specs.Prelude.{◌≡◌, ◌≢◌, ◌≤◌, ◌<◌, ℕ, true, false};
ghost use Rattle.shim_local.specs.Process.{AtQuiet};
ghost use Rattle.shim_process_table.specs.Stepping.{LivesAt, StepsAt, QuietlyReaches, is_live, IsLive, IsBeforeQuiet};
ghost use Rattle.shim_process_table.specs.Touching.{ReadiesAbove};
ghost use Rattle.shim_process_table.specs.Queue.{QueueIs};

use crate::process_table::ProcessTable;
use crate::propagating::{Requeue, propagate_stop};
use shim_local::{Local, Quiet, Stop};
use shim_records::Status;

// Whether the process has a quiet step to do.
fn is_quiet<L: Local>(process: &L) -> bool
    ensures quiet { result ≡ true → L.ops.stop process.now ≡ AtQuiet }
    ensures other { result ≡ false → L.ops.stop process.now ≢ AtQuiet }
{
    match process.stop() {
        Stop::Quiet => true,
        Stop::Next(_)
        | Stop::Put
        | Stop::Fork
        | Stop::Finish
        | Stop::Throw(_)
        | Stop::Trapped(_, _) => false,
    }
}

// Whether a process with this status lives.
fn lives_on(status: Status) -> bool
    ensures { result ≡ is_live status }
{
    match status {
        Status::Live => true,
        Status::Free | Status::Forked(_) | Status::Ended | Status::Dead(_) => false,
    }
}

impl<L: Local> ProcessTable<L> {
    /// The process with this number, which lives and is before a quiet step, does up to `most` of them in place, and
    /// fewer only where it comes to another stop, or memory is wanted. The answer says how many, and what is to be
    /// queued again.
    pub fn step(&mut self, number: u32, most: u64) -> (Quiet, Requeue)
        requires { LivesAt L.ops self.old number AtQuiet }
        ensures steps { StepsAt L.ops number result.0.taken self.old self.new }
        ensures most { result.0.taken ≤ most }
        ensures newly_ready { ReadiesAbove L.ops result.1.forks number self.old self.new }
        ensures queue { QueueIs L.ops self.new number result.1.queue }
        ensures fewer { result.0.taken < most → result.0.short ≡ false → IsBeforeQuiet L.ops number self.new false }
    {
        let at = number as usize;
        let quiet = self.states[at].quiet(most);
        let to_requeue = propagate_stop(&self.states[at], &mut self.records, at);
        (quiet, to_requeue)
    }

    /// The process with this number, which lives and is before a quiet step, did so many of them elsewhere as lead to
    /// this state. The answer says what is to be queued again. It takes no memory.
    pub fn advance(&mut self, number: u32, last: L) -> Requeue
        requires comes { (taken : ℕ) × QuietlyReaches L.ops self.old number taken last }
        ensures steps { (taken : ℕ) → QuietlyReaches L.ops self.old number taken last → StepsAt L.ops number taken self.old self.new }
        ensures newly_ready { ReadiesAbove L.ops result.forks number self.old self.new }
        ensures queue { QueueIs L.ops self.new number result.queue }
    {
        let at = number as usize;
        self.states[at] = last;
        propagate_stop(&self.states[at], &mut self.records, at)
    }

    /// Whether the process with this number lives and has a quiet step to do. It takes no memory.
    pub fn is_before_quiet(&self, number: u32) -> bool
        ensures { IsBeforeQuiet L.ops number self.now result }
    {
        let at = number as usize;
        if !self.lives(at) {
            return false;
        }
        is_quiet(&self.states[at])
    }

    // Whether the process with this number lives.
    pub(crate) fn lives(&self, at: usize) -> bool
        ensures { IsLive at self.now result }
    {
        if at >= self.states.len() {
            return false;
        }
        if at >= self.records.len() {
            return false;
        }
        lives_on(self.records[at].status)
    }
}
