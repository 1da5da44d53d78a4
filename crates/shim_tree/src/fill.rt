// Filling up lists of statuses, which changes nothing of what they mean.
ghost use Rattle.std.specs.Prelude.{◌≡◌, ◌≤◌, true, List, OnOk, length, vec_len, drop};
ghost use Rattle.shim_tree.specs.NodeStatus.{node, nodes, together};
ghost use Rattle.shim_tree.specs.Filled.{is_filled, are_filled};

use crate::node_status::NodeStatus;
use shim_base::NoMemory;

/// Gives each of so many processes a status: one that had none lives.
pub(crate) fn fill_to<L: Drop>(
    count: usize,
    statuses: &mut Vec<NodeStatus<L>>,
) -> Result<(), NoMemory>
    ensures same { (ls : List L) → together ls (nodes statuses.new.items) ≡ together ls (nodes statuses.old.items) }
    ensures ok { OnOk result (count ≤ vec_len statuses.new) }
    ensures filled { are_filled statuses.old.items ≡ true → are_filled statuses.new.items ≡ true }
{
    while statuses.len() < count {
        statuses.push(NodeStatus::Live)?;
    }
    Ok(())
}

/// Gives each of these processes a status: one that had none lives.
pub(crate) fn fill<L: Drop>(
    processes: &[L],
    statuses: &mut Vec<NodeStatus<L>>,
) -> Result<(), NoMemory>
    ensures same { together processes.now (nodes statuses.new.items) ≡ together processes.now (nodes statuses.old.items) }
    ensures ok { OnOk result (length processes.now ≤ vec_len statuses.new) }
{
    fill_to(processes.len(), statuses)
}

/// Gives each process below this one a status.
pub(crate) fn fill_below<L: Drop>(status: &mut NodeStatus<L>) -> Result<(), NoMemory>
    ensures same { (l : L) → node l status.new ≡ node l status.old }
    ensures ok { OnOk result (is_filled status.new ≡ true) }
{
    match status {
        NodeStatus::Live | NodeStatus::Ended | NodeStatus::Dead(_) => Ok(()),
        NodeStatus::Forked(processes, statuses) => {
            for i in 0..statuses.len() {
                fill_below(&mut statuses[i])?;
            }
            fill_to(processes.len(), statuses)
        }
    }
}

/// What is left of the pairs behind the first so many.
pub(crate) fn behind(pairs: &[(u32, u32)], front: usize) -> &[(u32, u32)]
    requires { front ≤ length pairs.now }
    ensures { result.now ≡ drop front pairs.now }
{
    &pairs[front..]
}
