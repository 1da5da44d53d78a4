// Numbers that are listed again, since something has changed there, and steps that are counted.
ghost use Rattle.std.specs.Prelude.{◌≡◌, ◌≤◌, ◌<◌, ◌+◌, ℕ, Some, length, vec_len, slice_get};
ghost use Rattle.shim_process_table.specs.Queue.{QueueIs};
ghost use Rattle.shim_process_table.specs.Lookups.{IsInUse, IsForAll};
ghost use Rattle.shim_run_state.specs.Enqueueing.{IsPutIn, ListsInEventQueue, ListsInReadyQueue, HasCounted};

use shim_local::Local;
use shim_process_table::{ProcessTable, Queue, Requeue};
use shim_records::Worklist;

// Puts the number into the queue in which its process belongs, if into any.
fn put_in(number: u32, queue: Queue, event_queue: &mut Worklist, ready_queue: &mut Worklist)
    requires event_queues { number < length event_queue.old }
    requires ready_queues { number < length ready_queue.old }
    ensures { IsPutIn queue number event_queue.old ready_queue.old event_queue.new ready_queue.new }
{
    match queue {
        Queue::Neither => {}
        Queue::Ready => ready_queue.add(number),
        Queue::Event => event_queue.add(number),
    }
}

/// The process with this number has changed: it is put in the queue of `to_requeue`, if in any. The forks above it at
/// which more may be due are put in the event queue. It takes no memory.
pub(crate) fn enqueue_as<L: Local>(
    table: &ProcessTable<L>,
    number: u32,
    to_requeue: Requeue,
    event_queue: &mut Worklist,
    ready_queue: &mut Worklist,
)
    requires used { IsInUse table.now number }
    requires queue { QueueIs L.ops table.now number to_requeue.queue }
    requires event_queues { IsForAll table.now event_queue.old }
    requires ready_queues { IsForAll table.now ready_queue.old }
    ensures event_queue { ListsInEventQueue L.ops table.now to_requeue.forks number event_queue.old event_queue.new }
    ensures ready_queue { ListsInReadyQueue L.ops table.now number ready_queue.old ready_queue.new }
{
    put_in(number, to_requeue.queue, event_queue, ready_queue);
    table.list_above(number, to_requeue.forks, event_queue);
}

/// The process with this number has changed: it is put in the queue in which it belongs, if in any, and so many
/// forks above it are listed. It takes no memory.
pub(crate) fn enqueue<L: Local>(
    table: &ProcessTable<L>,
    number: u32,
    forks: u64,
    event_queue: &mut Worklist,
    ready_queue: &mut Worklist,
)
    requires used { IsInUse table.now number }
    requires event_queues { IsForAll table.now event_queue.old }
    requires ready_queues { IsForAll table.now ready_queue.old }
    ensures event_queue { ListsInEventQueue L.ops table.now forks number event_queue.old event_queue.new }
    ensures ready_queue { ListsInReadyQueue L.ops table.now number ready_queue.old ready_queue.new }
{
    let queue = table.queue(number);
    enqueue_as(
        table,
        number,
        Requeue { queue, forks },
        event_queue,
        ready_queue,
    );
}

/// The process with this number did so many steps of its own more.
pub(crate) fn count_steps(own: &mut Vec<u64>, number: u32, steps: u64)
    requires within { number < vec_len own.old }
    requires few { (count : ℕ) → slice_get own.old.items number ≡ Some count → count + steps ≤ 4000000 }
    ensures { HasCounted number steps own.old.items own.new.items }
{
    own[number as usize] += steps;
}
