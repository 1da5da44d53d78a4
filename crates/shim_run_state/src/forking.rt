// A fork, and the queues that its children are put in.
ghost use Rattle.std.specs.Prelude.{◌≡◌, ◌≤◌, ◌<◌, ◌+◌, ℕ, true, false, length, replicate, vec_len, OnOk, OnErr, IfOk};
ghost use Rattle.shim_local.specs.Process.{AtFork};
ghost use Rattle.shim_semantics.specs.Trees.{steps, Own};
ghost use Rattle.shim_laws_table.specs.NodeStatus.{lives};
ghost use Rattle.shim_records.specs.Blocks.{with_block};
ghost use Rattle.shim_laws_table_events.specs.keeping.Tables.{HasProcessState};
ghost use Rattle.shim_run_log.specs.Events.{event_of};
ghost use Rattle.shim_process_table.specs.Stepping.{LivesAt};
ghost use Rattle.shim_process_table.specs.Forking.{ForkComesTo, forked_count};
ghost use Rattle.shim_run_state.specs.RunStates.{tree_in};
ghost use Rattle.shim_run_state.specs.CheckingOut.{HappensIn};
ghost use Rattle.shim_run_state.specs.Room.{IsLonger, HasMoreRoom, HasRoomFor, block_of};
ghost use Rattle.shim_run_state.specs.Settling.{StaysAs};

use crate::run_state::RunState;
use shim_base::NoMemory;
use shim_local::Local;
use shim_process_table::{Fork, ForkOutcome, Requeue};
use shim_records::Worklist;
use shim_run_log::Event;

// Counts of 0 for all numbers below this one that have none. An error changes nothing.
pub(crate) fn grow_counts(own: &mut Vec<u64>, end: usize) -> Result<(), NoMemory>
    ensures longer { IsLonger 0 own.old.items own.new.items }
    ensures ok { OnOk result (end ≤ length own.new.items) }
    ensures grows { length own.old.items ≤ end → length own.new.items ≤ end }
    ensures stays { end ≤ length own.old.items → own.new.items ≡ own.old.items }
{
    if own.len() < end {
        own.resize(end, 0)?;
    }
    Ok(())
}

// Flags that aren't set for all numbers below this one that have none. An error changes nothing.
pub(crate) fn grow_flags(flags: &mut Vec<bool>, end: usize) -> Result<(), NoMemory>
    ensures longer { IsLonger false flags.old.items flags.new.items }
    ensures ok { OnOk result (end ≤ length flags.new.items) }
{
    if flags.len() < end {
        flags.resize(end, false)?;
    }
    Ok(())
}

// The counts of so many numbers from one on begin at 0.
pub(crate) fn begin_counts(own: &mut Vec<u64>, first: u32, count: u32)
    requires { first + count ≤ vec_len own.old }
    ensures { own.new.items ≡ with_block first (replicate count 0) own.old.items }
{
    for branch in 0..count {
        own[first as usize + branch as usize] = 0;
    }
}

// So many numbers from one on are listed.
pub(crate) fn list_block(list: &mut Worklist, first: u32, count: u32)
    requires within { first + count ≤ length list.old }
    requires few { first + count ≤ 4294967295 }
    ensures { list.new ≡ with_block first (replicate count true) list.old }
{
    for branch in 0..count {
        list.add(first + branch);
    }
}

// The number of the first child, and how many there are; both are 0 where the fork trapped.
fn children_of(outcome: ForkOutcome) -> (u32, u32)
    ensures { result ≡ block_of outcome }
{
    match outcome {
        ForkOutcome::Forked(first, count) => (first, count),
        ForkOutcome::Trapped => (0, 0),
    }
}

impl<L: Local> RunState<L> {
    // The fork at which the process is. What may be refused comes first, since what is done can't be taken
    // back.
    pub(crate) fn fork(&mut self, number: u32) -> Result<Event, NoMemory>
        requires few { steps (tree_in L.ops self.old) < 4000000 }
        requires lives_at { LivesAt L.ops self.old.table number AtFork }
        ensures ok { IfOk result (λ e. HappensIn L.ops self.old self.new (event_of e)) }
        ensures err { OnErr result (StaysAs L.ops self.old self.new) }
    {
        let event = Event::Own(self.table.path(number).copy()?);
        let fork = self.table.fork_of(number)?;
        let end = self.table.len().checked_add(fork.count()).ok_or(NoMemory)?;
        self.make_room(end)?;
        self.put_fork(number, fork)?;
        Ok(event)
    }

    // Room for all numbers below this one. An error leaves the tree as it was.
    fn make_room(&mut self, end: usize) -> Result<(), NoMemory>
        ensures same { HasMoreRoom self.old self.new }
        ensures ok { OnOk result (HasRoomFor end self.new.process_lists) }
    {
        self.process_lists.grow_to(end)?;
        Ok(())
    }

    // The process forks, or its fork traps, as `fork` says. Its children are put in both queues, with counts of 0.
    // The process and the forks above that may have other counts are queued again.
    fn put_fork(&mut self, number: u32, fork: Fork<L>) -> Result<(), NoMemory>
        requires few { steps (tree_in L.ops self.old) < 4000000 }
        requires its { fork.number ≡ number }
        requires comes { ForkComesTo L.ops self.old.table fork.number fork.parent fork.came }
        requires room { HasRoomFor (length self.old.table.records + forked_count fork.came) self.old.process_lists }
        ensures ok { OnOk result ((f : ℕ) (l : L) → HasProcessState self.old.table number f l lives → HappensIn L.ops self.old self.new (Own (L.ops.path l))) }
        ensures err { OnErr result (StaysAs L.ops self.old self.new) }
    {
        let alloc = *self.output.allocator();
        let (outcome, forks) = self.table.put_fork(alloc, fork)?;
        let (first, count) = children_of(outcome);
        self.process_lists.add_children(first, count);
        let to_requeue = Requeue {
            queue: self.table.queue(number),
            // a child of the next fork up may have another record than before
            forks: forks as u64 + 1,
        };
        self.process_lists.acted(&self.table, number, 1, to_requeue);
        self.taken += 1;
        Ok(())
    }
}
