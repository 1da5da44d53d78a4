// What a rendezvous reads of a tree, and what it leaves.
ghost use Rattle.std.specs.Prelude.{◌≡◌, cond, unwrap_or};
ghost use Rattle.shim_semantics.specs.Nodes.{is_next, received, source, value_of, next_channel, name_for, first_name};
ghost use Rattle.shim_tree.specs.NodeStatus.{node};
ghost use Rattle.shim_tree.specs.Meeting.{valued, value_carried};

use crate::node_status::NodeStatus;
use crate::ready::waits_at;
use shim_base::Chan;
use shim_local::{Local, Stop};

// A process that stands at the channel receives the value.
fn receive_here<L: Local>(process: &mut L, chan: &Chan, value: i64)
    ensures { process.new ≡ cond (is_next (L.ops.stop process.old) chan.now.channel) (L.ops.receive process.old value) process.old }
{
    if waits_at(process, chan) {
        process.receive(value);
    }
}

/// Each live process here and below that waits at the channel receives the value.
pub(crate) fn receive_at<L: Local>(
    process: &mut L,
    status: &mut NodeStatus<L>,
    chan: &Chan,
    value: i64,
)
    ensures { node process.new status.new ≡ received L.ops chan.now.channel value (node process.old status.old) }
{
    match status {
        NodeStatus::Live => receive_here(process, chan, value),
        NodeStatus::Ended | NodeStatus::Dead(_) => {}
        NodeStatus::Forked(processes, statuses) => {
            for i in 0..processes.len() {
                if i < statuses.len() {
                    receive_at(&mut processes[i], &mut statuses[i], chan, value);
                } else {
                    receive_here(&mut processes[i], chan, value);
                }
            }
        }
    }
}

// The value of the channel, where this process carries it.
fn value_here<L: Local>(process: &L, chan: &Chan) -> Option<i64>
    ensures { result ≡ value_carried L.ops chan.now.channel process.now }
{
    if process.carries(chan) {
        Some(process.value(chan))
    } else {
        None
    }
}

// The value of the channel at the first process here or below that carries it.
fn value_at<L: Local>(process: &L, status: &NodeStatus<L>, chan: &Chan) -> Option<i64>
    ensures { result ≡ valued L.ops chan.now.channel (source L.ops chan.now.channel (node process.now status.now)) }
{
    let here = value_here(process, chan);
    if here.is_some() {
        return here;
    }
    match status {
        NodeStatus::Live | NodeStatus::Ended | NodeStatus::Dead(_) => None,
        NodeStatus::Forked(processes, statuses) => {
            for i in 0..processes.len() {
                let found = if i < statuses.len() {
                    value_at(&processes[i], &statuses[i], chan)
                } else {
                    value_here(&processes[i], chan)
                };
                if found.is_some() {
                    return found;
                }
            }
            None
        }
    }
}

/// The value that a rendezvous on the channel gives: that of its source, and 0 where there is none.
pub(crate) fn value_met<L: Local>(process: &L, status: &NodeStatus<L>, chan: &Chan) -> i64
    ensures { result ≡ value_of L.ops chan.now.channel (source L.ops chan.now.channel (node process.now status.now)) }
{
    value_at(process, status, chan).unwrap_or(0)
}

// The name that the process has for the channel, where it stands there.
fn own_name<L: Local>(process: &L, chan: &Chan) -> Option<u32>
    ensures { result ≡ name_for chan.now.channel (next_channel (L.ops.stop process.now)) }
{
    match process.stop() {
        Stop::Next(next) => {
            if next == chan {
                Some(next.name())
            } else {
                None
            }
        }
        Stop::Quiet
        | Stop::Put
        | Stop::Fork
        | Stop::Finish
        | Stop::Throw(_)
        | Stop::Trapped(_, _) => None,
    }
}

// The name that the first live process which stands at the channel has for it.
fn name_at<L: Local>(process: &L, status: &NodeStatus<L>, chan: &Chan) -> Option<u32>
    ensures { result ≡ first_name L.ops chan.now.channel (node process.now status.now) }
{
    match status {
        NodeStatus::Live => own_name(process, chan),
        NodeStatus::Ended | NodeStatus::Dead(_) => None,
        NodeStatus::Forked(processes, statuses) => {
            for i in 0..processes.len() {
                let found = if i < statuses.len() {
                    name_at(&processes[i], &statuses[i], chan)
                } else {
                    own_name(&processes[i], chan)
                };
                if found.is_some() {
                    return found;
                }
            }
            None
        }
    }
}

/// The name by which a rendezvous on the channel is printed, and 0 where no process waits there.
pub(crate) fn name_met<L: Local>(process: &L, status: &NodeStatus<L>, chan: &Chan) -> u32
    ensures { result ≡ unwrap_or (first_name L.ops chan.now.channel (node process.now status.now)) 0 }
{
    name_at(process, status, chan).unwrap_or(0)
}
