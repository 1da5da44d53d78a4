// Several numbers that are listed again, since something has changed there.
ghost use Rattle.shim_process_table.specs.Lookups.{IsForAll, AreInUse};
ghost use Rattle.shim_run_state.specs.Several.{ListsEach, ListsEachQuiet};

use crate::enqueueing::enqueue;
use shim_local::Local;
use shim_process_table::ProcessTable;
use shim_records::Worklist;

/// The processes with these numbers have changed, and perhaps all forks above them: each is put in the queue in
/// which it belongs, if in any, and all forks above are put in the event queue. It takes no memory.
pub(crate) fn enqueue_all<L: Local>(
    table: &ProcessTable<L>,
    numbers: &[u32],
    event_queue: &mut Worklist,
    ready_queue: &mut Worklist,
)
    requires used { AreInUse table.now numbers.now }
    requires event_queues { IsForAll table.now event_queue.old }
    requires ready_queues { IsForAll table.now ready_queue.old }
    ensures event_queue { ListsEach L.ops table.now numbers.now event_queue.old event_queue.new }
    ensures ready_queue { ListsEachQuiet L.ops table.now numbers.now ready_queue.old ready_queue.new }
{
    for place in 0..numbers.len() {
        enqueue(
            table,
            numbers[place],
            u32::MAX as u64 + 1,
            event_queue,
            ready_queue,
        );
    }
}
