// What the scheduler keeps of each process, by its number.
ghost use Rattle.std.specs.Prelude.{◌≡◌, ◌≤◌, ◌<◌, ◌+◌, ℕ, true, false, Some, [], ◌∷◌, length, slice_get, IfOk, OnOk};
ghost use Rattle.shim_records.specs.Waiting.{AreListedIn};
ghost use Rattle.shim_process_table.specs.Queue.{QueueIs};
ghost use Rattle.shim_process_table.specs.Lookups.{IsInUse, AreInUse};
ghost use Rattle.shim_run_state.specs.ProcessLists.{Serves};
ghost use Rattle.shim_run_state.specs.Room.{IsRoomier, HasNewChildren, HasRoomFor};
ghost use Rattle.shim_run_state.specs.Settling.{KeepsEventsListed, IsNextDue};
ghost use Rattle.shim_run_state.specs.Several.{RequeuesEach};
ghost use Rattle.shim_run_state.specs.Enqueueing.{KeepsQuietListed, IsListedHome, HasCounted, Requeues, SetsCheckedOut, IsButEventQueue, IsButReadyQueue};

use crate::checking_out::first_at_home;
use crate::enqueueing::{count_steps, enqueue_as};
use crate::enqueueing_all::enqueue_all;
use crate::forking::{begin_counts, grow_counts, grow_flags, list_block};
use crate::settling::first_due;
use shim_base::NoMemory;
use shim_local::Local;
use shim_process_table::{Due, ProcessTable, Requeue};
use shim_records::Worklist;
use std::alloc::Global;
use std::marker::Model;

/// What the scheduler keeps of each process, by its number: how many steps of its own it did, whether it is
/// checked out, and in which queues it is. Contracts see the counts and the flags; no list of flags is shorter than
/// that of the counts, so whoever has a count has its place in all.
#[derive(Drop)]
pub(crate) struct ProcessLists {
    own: Vec<u64>,
    /// The numbers at which something but a quiet step may happen.
    event_queue: Worklist,
    /// The numbers of processes that may be before a quiet step.
    ready_queue: Worklist,
    checked_out: Vec<bool>,
}

impl Model for ProcessLists {
    ghost use Rattle.shim_run_state.specs.ProcessLists.{ProcessListsView, FlagsReachAll};

    ghost Value = { ProcessListsView };

    ghost view = { λ s. record { own = s.own.items; event_queue = s.event_queue; ready_queue = s.ready_queue; checked_out = s.checked_out.items } };

    ghost invariant = { λ s. FlagsReachAll (record { own = s.own.items; event_queue = s.event_queue; ready_queue = s.ready_queue; checked_out = s.checked_out.items }) };
}

impl ProcessLists {
    /// The lists of one process, which did nothing yet and may do anything.
    pub(crate) fn first(alloc: Global) -> Result<ProcessLists, NoMemory>
        ensures { IfOk result (λ s. s ≡ record { own = 0 ∷ []; event_queue = true ∷ []; ready_queue = true ∷ []; checked_out = false ∷ [] }) }
    {
        let mut own = Vec::new(alloc);
        own.push(0)?;
        let mut checked_out = Vec::new(alloc);
        checked_out.push(false)?;
        let mut event_queue = Worklist::new(alloc);
        event_queue.grow_to(1)?;
        event_queue.add(0);
        let mut ready_queue = Worklist::new(alloc);
        ready_queue.grow_to(1)?;
        ready_queue.add(0);
        Ok(ProcessLists {
            own,
            event_queue,
            ready_queue,
            checked_out,
        })
    }

    /// Room for all numbers below this one. Running out of memory leaves all that is counted, listed and checked out.
    pub(crate) fn grow_to(&mut self, end: usize) -> Result<(), NoMemory>
        ensures same { IsRoomier self.old self.new }
        ensures ok { OnOk result (HasRoomFor end self.new) }
    {
        grow_flags(&mut self.checked_out, end)?;
        self.event_queue.grow_to(end)?;
        self.ready_queue.grow_to(end)?;
        // last, since no other list may be shorter
        grow_counts(&mut self.own, end)?;
        Ok(())
    }

    /// So many children have come, from a number on.
    pub(crate) fn add_children(&mut self, first: u32, count: u32)
        requires within { first + count ≤ length self.old.own }
        requires few { first + count ≤ 4294967295 }
        ensures { HasNewChildren first count self.old self.new }
    {
        begin_counts(&mut self.own, first, count);
        list_block(&mut self.event_queue, first, count);
        list_block(&mut self.ready_queue, first, count);
    }

    /// The process did so many steps of its own, which are counted: it is put in the queue of `to_requeue`, if in
    /// any. The forks above it at which more may be due are put in the event queue. It takes no memory.
    pub(crate) fn acted<L: Local>(
        &mut self,
        table: &ProcessTable<L>,
        number: u32,
        steps: u64,
        to_requeue: Requeue,
    )
        requires used { IsInUse table.now number }
        requires serves { Serves table.now self.old }
        requires queue { QueueIs L.ops table.now number to_requeue.queue }
        requires few { (count : ℕ) → slice_get self.old.own number ≡ Some count → count + steps ≤ 4000000 }
        ensures counted { HasCounted number steps self.old.own self.new.own }
        ensures requeues { Requeues L.ops table.now to_requeue.forks number self.old self.new }
    {
        count_steps(&mut self.own, number, steps);
        enqueue_as(
            table,
            number,
            to_requeue,
            &mut self.event_queue,
            &mut self.ready_queue,
        );
    }

    /// Does what `acted` does, for a process that did no step of its own.
    pub(crate) fn requeue<L: Local>(
        &mut self,
        table: &ProcessTable<L>,
        number: u32,
        to_requeue: Requeue,
    )
        requires used { IsInUse table.now number }
        requires serves { Serves table.now self.old }
        requires queue { QueueIs L.ops table.now number to_requeue.queue }
        ensures own { self.new.own ≡ self.old.own }
        ensures requeues { Requeues L.ops table.now to_requeue.forks number self.old self.new }
    {
        enqueue_as(
            table,
            number,
            to_requeue,
            &mut self.event_queue,
            &mut self.ready_queue,
        );
    }

    /// The processes with these numbers have changed, and perhaps all forks above them.
    pub(crate) fn requeue_each<L: Local>(&mut self, table: &ProcessTable<L>, numbers: &[u32])
        requires used { AreInUse table.now numbers.now }
        requires serves { Serves table.now self.old }
        ensures { RequeuesEach L.ops table.now numbers.now self.old self.new }
    {
        enqueue_all(table, numbers, &mut self.event_queue, &mut self.ready_queue);
    }

    /// From now on the process is checked out, or isn't. It takes no memory.
    pub(crate) fn set_out<L: Local>(
        &mut self,
        table: &ProcessTable<L>,
        number: u32,
        checked_out: bool,
    )
        requires used { IsInUse table.now number }
        requires serves { Serves table.now self.old }
        ensures { SetsCheckedOut number checked_out self.old self.new }
    {
        self.checked_out[number as usize] = checked_out;
    }

    /// The number, among those that are listed, of a process that is before a quiet step and isn't checked out; it is
    /// looked for from the one listed last on. Those that were looked at before it are listed no more.
    pub(crate) fn next_at_home<L: Local>(&mut self, table: &ProcessTable<L>) -> Option<u32>
        requires { Serves table.now self.old }
        ensures still { KeepsQuietListed L.ops table.now self.old.checked_out self.old.ready_queue self.new.ready_queue }
        ensures first { IsListedHome L.ops table.now self.old.checked_out self.new.ready_queue result }
        ensures rest { IsButReadyQueue self.old self.new }
    {
        first_at_home(table, self.checked_out.as_slice(), &mut self.ready_queue)
    }

    /// The next listed number at which something other than a quiet step can happen, and what. It stays listed;
    /// those before it are listed no more.
    pub(crate) fn next_due<L: Local>(&mut self, table: &ProcessTable<L>) -> Option<(u32, Due)>
        ensures still { KeepsEventsListed L.ops table.now self.old.event_queue self.new.event_queue }
        ensures due { IsNextDue L.ops table.now self.new.event_queue result }
        ensures rest { IsButEventQueue self.old self.new }
    {
        first_due(table, &mut self.event_queue)
    }

    /// By number, how many steps of its own each process did.
    pub(crate) fn own(&self) -> &[u64]
        ensures { result.now ≡ self.now.own }
    {
        self.own.as_slice()
    }

    /// The numbers at which something but a quiet step may happen.
    pub(crate) fn event_queue(&self) -> &[u32]
        ensures { AreListedIn result.now self.now.event_queue }
    {
        self.event_queue.numbers()
    }

    /// The numbers of processes that may be before a quiet step.
    pub(crate) fn ready_queue(&self) -> &[u32]
        ensures { AreListedIn result.now self.now.ready_queue }
    {
        self.ready_queue.numbers()
    }
}
