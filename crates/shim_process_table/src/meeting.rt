// A rendezvous, one process after the other.
ghost use Rattle.std.specs.Prelude.{ℕ};
ghost use Rattle.shim_laws_table.specs.NodeStatus.{lives};
ghost use Rattle.shim_records.specs.Ways.{most_forks, NoneReadied};
ghost use Rattle.shim_laws_table_events.specs.keeping.Tables.{TableView, HasProcessState};
ghost use Rattle.shim_laws_table_events.specs.meetings.Receiving.{MovesOn};
ghost use Rattle.shim_laws_table_events.specs.meetings.Meetings.{ReceivesOne};
ghost use Rattle.shim_process_table.specs.Meeting.{WaitsAt, LeavesChannel, ReceivesHere};
ghost use Rattle.shim_process_table.specs.Queue.{QueueIs};
ghost use Rattle.shim_process_table.specs.Touching.{MoveReadies};

use crate::process_table::ProcessTable;
use crate::propagating::Requeue;
use crate::queue::{Queue, queue_at};
use shim_base::Chan;
use shim_local::{Local, Stop};
use shim_records::{
    Record, going_child_status, is_at_channel, propagate_stop_above, update_counts_above,
};

// Brings the counts above a process up to date that was at the channel and is there no more. No fork
// becomes ready by that.
fn leave_channel(c: &Chan, records: &mut Vec<Record>, at: usize)
    ensures leaves { LeavesChannel c.now.channel most_forks at records.old.items records.new.items }
    ensures none { NoneReadied c.now.channel records.old.items records.new.items }
{
    update_counts_above(
        records,
        at,
        c,
        going_child_status(true),
        going_child_status(false),
        u32::MAX,
    );
}

// Brings the counts above a process up to date that was at the channel and has received there. The answer says what
// is to be queued again.
fn move_on<L: Local>(process: &L, c: &Chan, records: &mut Vec<Record>, at: usize) -> Requeue
    ensures moves { MovesOn L.ops process.now c.now.channel most_forks at records.old.items records.new.items }
    ensures newly_ready { MoveReadies L.ops process.now c.now.channel result.forks at records.old.items records.new.items }
    ensures queue { (v : TableView L) (i f : ℕ) → HasProcessState v i f process.now lives → QueueIs L.ops v i result.queue }
{
    match process.stop() {
        Stop::Next(chan) => {
            let queue = queue_at(process, chan);
            if *c == *chan {
                return Requeue { queue, forks: 0 };
            }
            leave_channel(c, records, at);
            let forks = propagate_stop_above(records, at, chan);
            Requeue { queue, forks }
        }
        Stop::Quiet => {
            leave_channel(c, records, at);
            Requeue {
                queue: Queue::Ready,
                forks: 0,
            }
        }
        Stop::Put | Stop::Fork | Stop::Finish | Stop::Throw(_) | Stop::Trapped(_, _) => {
            leave_channel(c, records, at);
            Requeue {
                queue: Queue::Event,
                forks: 0,
            }
        }
    }
}

impl<L: Local> ProcessTable<L> {
    /// The process with this number receives the value of a rendezvous of the channel, if it lives and waits at it.
    /// The answer then says what is to be queued again. `None` where it doesn't wait there, and nothing changes. It
    /// takes no memory.
    pub fn receive(&mut self, number: u32, c: &Chan, v: i64) -> Option<Requeue>
        ensures receives { ReceivesOne L.ops c.now.channel v number self.old self.new }
        ensures here { ReceivesHere L.ops c.now.channel v number result self.old self.new }
    {
        let at = number as usize;
        if !self.waits_at(at, c) {
            return None;
        }
        self.states[at].receive(v);
        let to_requeue = move_on(&self.states[at], c, &mut self.records, at);
        Some(to_requeue)
    }

    // Whether the process with this number lives and is at the channel.
    fn waits_at(&self, at: usize, c: &Chan) -> bool
        ensures { WaitsAt L.ops c.now.channel at self.now result }
    {
        if !self.lives(at) {
            return false;
        }
        is_at_channel(&self.states[at], c)
    }
}
