// In which queue a process belongs.
ghost use Rattle.std.specs.Prelude.{◌≡◌, ℕ};
ghost use Rattle.shim_local.specs.Process.{AtNext};
ghost use Rattle.shim_laws_table.specs.NodeStatus.{lives};
ghost use Rattle.shim_laws_table_events.specs.keeping.Tables.{TableView, HasProcessState};
ghost use Rattle.shim_process_table.specs.Lookups.{IsInUse};
ghost use Rattle.shim_process_table.specs.Queue.{QueueIs};

use crate::due::declares;
use crate::process_table::ProcessTable;
use shim_base::Chan;
use shim_local::{Local, Stop};
use shim_records::Status;

/// In which queue a process belongs, by what it can do next.
#[derive(Clone, Copy, Debug, PartialEq, Eq)]
pub enum Queue {
    /// In none: it has ended or died, or waits at a channel that another process declared.
    Neither,
    /// A quiet step comes next.
    Ready,
    /// Anything else may be due. This may be said too often, where nothing is.
    Event,
}

/// Where a live process belongs that waits at the channel.
pub(crate) fn queue_at<L: Local>(process: &L, chan: &Chan) -> Queue
    ensures { (v : TableView L) (i f : ℕ) → HasProcessState v i f process.now lives → L.ops.stop process.now ≡ AtNext chan.now → QueueIs L.ops v i result }
{
    if declares(process, chan) {
        Queue::Event
    } else {
        Queue::Neither
    }
}

// Where a live process belongs.
fn queue_alone<L: Local>(process: &L) -> Queue
    ensures { (v : TableView L) (i f : ℕ) → HasProcessState v i f process.now lives → QueueIs L.ops v i result }
{
    match process.stop() {
        Stop::Quiet => Queue::Ready,
        Stop::Next(chan) => queue_at(process, chan),
        Stop::Put | Stop::Fork | Stop::Finish | Stop::Throw(_) | Stop::Trapped(_, _) => {
            Queue::Event
        }
    }
}

impl<L: Local> ProcessTable<L> {
    /// In which queue the process with this number belongs, which has to be in use. It takes no memory.
    pub fn queue(&self, number: u32) -> Queue
        requires { IsInUse self.now number }
        ensures { QueueIs L.ops self.now number result }
    {
        let at = number as usize;
        match self.records[at].status {
            Status::Free | Status::Ended | Status::Dead(_) => Queue::Neither,
            Status::Live => queue_alone(&self.states[at]),
            Status::Forked(_) => Queue::Event,
        }
    }
}
