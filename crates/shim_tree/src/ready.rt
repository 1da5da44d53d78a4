// Whether all whom a channel concerns wait at it.
ghost use Rattle.std.specs.Prelude.{◌≡◌, ◌&&◌, not, true, IsTrue};
ghost use Rattle.std.specs.Option.{option_copied};
ghost use Rattle.shim_semantics.specs.Nodes.{next_channel, is_next, has_ended, ready};
ghost use Rattle.shim_tree.specs.NodeStatus.{node, nodes};
ghost use Rattle.shim_tree.specs.Beside.{nth_child};

use crate::node_status::NodeStatus;
use shim_base::Chan;
use shim_local::{Local, Stop};

/// The channel at which the process stands.
pub(crate) fn stands_at<L: Local>(l: &L) -> Option<&Chan>
    ensures { option_copied result ≡ next_channel (L.ops.stop l.now) }
{
    match l.stop() {
        Stop::Next(c) => Some(c),
        Stop::Quiet
        | Stop::Put
        | Stop::Fork
        | Stop::Finish
        | Stop::Throw(_)
        | Stop::Trapped(_, _) => None,
    }
}

/// Whether the process, which lives, waits at the channel.
pub(crate) fn waits_at<L: Local>(l: &L, c: &Chan) -> bool
    ensures { result ≡ is_next (L.ops.stop l.now) c.now.channel }
{
    match stands_at(l) {
        Some(d) => d == c,
        None => false,
    }
}

// Whether a process with this status has ended.
fn is_ended<L>(status: &NodeStatus<L>) -> bool
    ensures { (l : L) → result ≡ has_ended (node l status.now) }
{
    match status {
        NodeStatus::Ended => true,
        NodeStatus::Live | NodeStatus::Dead(_) | NodeStatus::Forked(_, _) => false,
    }
}

/// Whether the child in this place has ended, given what came of the children.
pub(crate) fn is_ended_at<L>(statuses: &[NodeStatus<L>], i: usize) -> bool
    ensures { (l : L) → result ≡ has_ended (nth_child l (nodes statuses.now) i) }
{
    if i < statuses.len() {
        is_ended(&statuses[i])
    } else {
        false
    }
}

// Whether the child in this place shares the channel and hasn't ended.
fn is_concerned<L: Local>(child: &L, statuses: &[NodeStatus<L>], i: usize, c: &Chan) -> bool
    ensures { result ≡ L.ops.shares child.now c.now.channel && not (has_ended (nth_child child.now (nodes statuses.now) i)) }
{
    child.shares(c) && !is_ended_at(statuses, i)
}

/// Whether the process waits at the channel, or has forked and each of its children that shares the
/// channel and hasn't ended is ready on it, and there is one.
pub(crate) fn is_ready<L: Local>(l: &L, status: &NodeStatus<L>, c: &Chan) -> bool
    ensures { result ≡ ready L.ops c.now.channel (node l.now status.now) }
{
    match status {
        NodeStatus::Live => waits_at(l, c),
        NodeStatus::Ended | NodeStatus::Dead(_) => false,
        NodeStatus::Forked(children, statuses) => {
            let mut any = false;
            for i in 0..children.len() {
                let child = &children[i];
                if is_concerned(child, statuses.as_slice(), i, c) {
                    let ready = if i < statuses.len() {
                        is_ready(child, &statuses[i], c)
                    } else {
                        waits_at(child, c)
                    };
                    if !ready {
                        return false;
                    }
                    any = true;
                }
            }
            any
        }
    }
}
