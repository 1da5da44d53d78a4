// The processes that stand before a quiet step, by their number.
ghost use Rattle.std.specs.Prelude.{◌≡◌, slice_get};
ghost use Rattle.std.specs.Option.{option_copied};
ghost use Rattle.shim_semantics.specs.Nodes.{Live};
ghost use Rattle.shim_semantics.specs.Quiets.{quiets};
ghost use Rattle.shim_tree.specs.NodeStatus.{node};
ghost use Rattle.shim_tree.specs.Sought.{seek, sought_of};

use crate::node_status::NodeStatus;
use shim_local::{Local, Stop};

/// What a search for the process of a number has come to: the process, or how many are still to go
/// after those that it has passed.
#[derive(Drop)]
pub(crate) enum Sought<'a, L> {
    Here(&'a L),
    Passed(usize),
}

// The search at a live process.
fn seek_live<L: Local>(l: &L, left: usize) -> Sought<'_, L>
    ensures { sought_of result ≡ seek (quiets L.ops (Live l.now)) left }
{
    match l.stop() {
        Stop::Quiet => {
            if left == 0 {
                Sought::Here(l)
            } else {
                Sought::Passed(left - 1)
            }
        }
        Stop::Next(_)
        | Stop::Put
        | Stop::Fork
        | Stop::Finish
        | Stop::Throw(_)
        | Stop::Trapped(_, _) => Sought::Passed(left),
    }
}

// The search here and below.
fn seek_quiet<'a, L: Local>(l: &'a L, status: &'a NodeStatus<L>, left: usize) -> Sought<'a, L>
    ensures { sought_of result ≡ seek (quiets L.ops (node l.now status.now)) left }
{
    match status {
        NodeStatus::Live => seek_live(l, left),
        NodeStatus::Ended | NodeStatus::Dead(_) => Sought::Passed(left),
        NodeStatus::Forked(children, statuses) => {
            let mut more = left;
            for i in 0..children.len() {
                let sought = if i < statuses.len() {
                    seek_quiet(&children[i], &statuses[i], more)
                } else {
                    seek_live(&children[i], more)
                };
                match sought {
                    Sought::Here(found) => return Sought::Here(found),
                    Sought::Passed(still) => more = still,
                }
            }
            Sought::Passed(more)
        }
    }
}

/// The live process here or below that has this number among those that stand before a quiet step,
/// from the root with leftmost children first. It takes no memory.
pub(crate) fn quiet_from<'a, L: Local>(
    l: &'a L,
    status: &'a NodeStatus<L>,
    at: usize,
) -> Option<&'a L>
    ensures { option_copied result ≡ slice_get (quiets L.ops (node l.now status.now)) at }
{
    match seek_quiet(l, status, at) {
        Sought::Here(found) => Some(found),
        Sought::Passed(_) => None,
    }
}
