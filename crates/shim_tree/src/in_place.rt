// Quiet steps of a process of a tree, in place.
ghost use Rattle.shim_semantics.specs.Nodes.{Live};
ghost use Rattle.shim_semantics.specs.Places.{branches};
ghost use Rattle.shim_tree.specs.NodeStatus.{node};
ghost use Rattle.shim_tree.specs.Stepping.{QuietAt};

use crate::node_status::NodeStatus;
use shim_local::{Local, Quiet};

// Nothing was done, and no memory was refused.
const NONE_TAKEN: Quiet = Quiet {
    taken: 0,
    short: false,
};

// What `go_quietly_at` does at a live process: its quiet steps where there is no pair, else nothing.
fn go_quietly_live<L: Local>(process: &mut L, pairs: &[(u32, u32)], most: u64) -> Quiet
    ensures { QuietAt L.ops (branches pairs.now) most result (Live process.old) (Live process.new) }
{
    if pairs.is_empty() {
        process.quiet(most)
    } else {
        NONE_TAKEN
    }
}

/// Up to `most` quiet steps of the live process to which these pairs of a path lead from here. Of pairs that lead to
/// none the clause says nothing.
pub(crate) fn go_quietly_at<L: Local>(
    process: &mut L,
    status: &mut NodeStatus<L>,
    pairs: &[(u32, u32)],
    most: u64,
) -> Quiet
    ensures { QuietAt L.ops (branches pairs.now) most result (node process.old status.old) (node process.new status.new) }
{
    let Some((first, rest)) = pairs.split_first() else {
        return process.quiet(most);
    };
    match status {
        NodeStatus::Live | NodeStatus::Ended | NodeStatus::Dead(_) => NONE_TAKEN,
        NodeStatus::Forked(processes, statuses) => {
            let place = first.1 as usize;
            if place >= processes.len() {
                NONE_TAKEN
            } else if place < statuses.len() {
                go_quietly_at(&mut processes[place], &mut statuses[place], rest, most)
            } else {
                go_quietly_live(&mut processes[place], rest, most)
            }
        }
    }
}
