// A live process that has changed, and may have come to a channel.
ghost use Rattle.std.specs.Prelude.{ℕ};
ghost use Rattle.shim_laws_table.specs.NodeStatus.{lives};
ghost use Rattle.shim_records.specs.Ways.{most_forks};
ghost use Rattle.shim_laws_table_events.specs.keeping.Tables.{TableView, HasProcessState};
ghost use Rattle.shim_laws_table_events.specs.keeping.Propagating.{PropagatesStop};
ghost use Rattle.shim_process_table.specs.Touching.{StopReadies};
ghost use Rattle.shim_process_table.specs.Queue.{QueueIs};

use crate::queue::{Queue, queue_at};
use shim_local::{Local, Stop};
use shim_records::{Record, propagate_stop_above};

/// What is to be queued again after a step: in which queue the process belongs now, and how many forks above it
/// are to be looked at again, since more may be due there.
#[derive(Clone, Copy, Debug, PartialEq, Eq)]
pub struct Requeue {
    pub queue: Queue,
    pub forks: u64,
}

/// Brings the counts above a live process up to date that has changed, if it waits at a channel now and waited at
/// none before. The answer says what is to be queued again.
pub(crate) fn propagate_stop<L: Local>(process: &L, records: &mut Vec<Record>, at: usize) -> Requeue
    ensures propagates { PropagatesStop L.ops process.now most_forks at records.old.items records.new.items }
    ensures newly_ready { StopReadies L.ops process.now result.forks at records.old.items records.new.items }
    ensures queue { (v : TableView L) (i f : ℕ) → HasProcessState v i f process.now lives → QueueIs L.ops v i result.queue }
{
    match process.stop() {
        Stop::Next(chan) => {
            let forks = propagate_stop_above(records, at, chan);
            Requeue {
                queue: queue_at(process, chan),
                forks,
            }
        }
        Stop::Quiet => Requeue {
            queue: Queue::Ready,
            forks: 0,
        },
        Stop::Put | Stop::Fork | Stop::Finish | Stop::Throw(_) | Stop::Trapped(_, _) => Requeue {
            queue: Queue::Event,
            forks: 0,
        },
    }
}
