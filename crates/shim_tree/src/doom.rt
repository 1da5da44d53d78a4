// Whether a death at or below another child dooms a child on a channel.
ghost use Rattle.std.specs.Prelude.{◌≡◌, ◌&&◌, not, eqb};
ghost use Rattle.shim_tree.specs.NodeStatus.{node, nodes, together};
ghost use Rattle.shim_tree.specs.Beside.{nth_child};
ghost use Rattle.shim_semantics.specs.Poison as poison;
ghost use Rattle.shim_semantics.specs.Poison.{dooms};

use crate::node_status::NodeStatus;
use shim_base::Chan;
use shim_local::Local;

// Whether at this process or below it a dead one shares the channel, of a label below this one.
fn is_dooming<L: Local>(l: &L, status: &NodeStatus<L>, c: &Chan, label: u32) -> bool
    ensures { result ≡ dooms L.ops label c.now.channel (node l.now status.now) }
{
    match status {
        NodeStatus::Live | NodeStatus::Ended => false,
        NodeStatus::Dead(death) => l.shares(c) && death.label < label,
        NodeStatus::Forked(children, statuses) => {
            for i in 0..children.len() {
                // a child without a status lives, and dooms none
                if i < statuses.len() {
                    if is_dooming(&children[i], &statuses[i], c, label) {
                        return true;
                    }
                }
            }
            false
        }
    }
}

// Whether at the child in this place or below it a dead process shares the channel, of a label below
// this one, given what came of the children.
fn is_dooming_at<L: Local>(
    child: &L,
    statuses: &[NodeStatus<L>],
    i: usize,
    c: &Chan,
    label: u32,
) -> bool
    ensures { result ≡ dooms L.ops label c.now.channel (nth_child child.now (nodes statuses.now) i) }
{
    if i < statuses.len() {
        is_dooming(child, &statuses[i], c, label)
    } else {
        false
    }
}

// Whether the child in place `i` is another than that in place `at`, and at it or below it a dead process
// shares the channel, of a label below this one.
fn is_another_dooming<L: Local>(
    child: &L,
    statuses: &[NodeStatus<L>],
    i: usize,
    at: usize,
    c: &Chan,
    label: u32,
) -> bool
    ensures { result ≡ (not (eqb i at) && dooms L.ops label c.now.channel (nth_child child.now (nodes statuses.now) i)) }
{
    i != at && is_dooming_at(child, statuses, i, c, label)
}

/// Whether the child in place `at` is doomed on the channel: another of these children, or a process
/// below it, died of a label below this one and shares the channel.
pub(crate) fn is_doomed<L: Local>(
    children: &[L],
    statuses: &[NodeStatus<L>],
    at: usize,
    c: &Chan,
    label: u32,
) -> bool
    ensures { result ≡ poison.is_doomed L.ops label c.now.channel at (together children.now (nodes statuses.now)) }
{
    for i in 0..children.len() {
        if is_another_dooming(&children[i], statuses, i, at, c, label) {
            return true;
        }
    }
    false
}
