// The state of one process put in place of another in a tree.
ghost use Rattle.std.specs.Prelude.{◌≡◌, ℕ, List, Some, drop};
ghost use Rattle.shim_semantics.specs.Nodes.{Live};
ghost use Rattle.shim_semantics.specs.Places.{branches, route};
ghost use Rattle.shim_tree.specs.NodeStatus.{node};
ghost use Rattle.shim_tree.specs.Advancing.{led_on};
ghost use Rattle.shim_semantics.specs.Advancing.{with_state_at};

use crate::node_status::NodeStatus;
use shim_local::Local;
use std::mem::swap;

// The branch that the process's path takes at the pair in this place, with the place after it; `None`
// where the path has ended.
fn next_branch<L: Local>(process: &L, at: usize) -> Option<(usize, usize)>
    ensures { led_on (L.ops.path process.now) result ≡ branches (drop at (L.ops.path process.now)) }
{
    let pairs = process.path().pairs();
    if at < pairs.len() {
        Some((pairs[at].1 as usize, at + 1))
    } else {
        None
    }
}

// What `swap_at` does at a live process: where the path of the state has no pair from this place on, the state goes
// to its place, and what stood there comes out. Else nothing changes.
fn swap_live<L: Local>(process: &mut L, at: usize, last: &mut L)
    ensures { Live process.new ≡ with_state_at last.old (branches (drop at (L.ops.path last.old))) (Live process.old) }
{
    if next_branch(last, at).is_none() {
        swap(process, last);
    }
}

// The state goes to where its path leads from here by the pairs from this place on, and what stood there comes out.
// Where they lead to no process nothing changes.
fn swap_at<L: Local>(process: &mut L, status: &mut NodeStatus<L>, at: usize, last: &mut L)
    ensures { node process.new status.new ≡ with_state_at last.old (branches (drop at (L.ops.path last.old))) (node process.old status.old) }
{
    let Some((branch, rest)) = next_branch(last, at) else {
        swap(process, last);
        return;
    };
    match status {
        NodeStatus::Live | NodeStatus::Ended | NodeStatus::Dead(_) => {}
        NodeStatus::Forked(processes, statuses) => {
            if branch < processes.len() {
                if branch < statuses.len() {
                    swap_at(&mut processes[branch], &mut statuses[branch], rest, last);
                } else {
                    swap_live(&mut processes[branch], rest, last);
                }
            }
        }
    }
}

/// The state takes the place of that of the process of its path, which comes out.
pub(crate) fn swap_on<L: Local>(root: &mut L, status: &mut NodeStatus<L>, last: &mut L)
    ensures { (q : List ℕ) → route (L.ops.path root.old) (L.ops.path last.old) ≡ Some q → node root.new status.new ≡ with_state_at last.old q (node root.old status.old) }
{
    let front = root.path().pairs().len();
    swap_at(root, status, front, last);
}
