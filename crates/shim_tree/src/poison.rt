// What poison does: at and below a child, each live process that shares the channel dies.
ghost use Rattle.std.specs.Prelude.{◌≡◌, ◌≢◌, ◌<◌, true, Some, None, OnOk, OnErr, length};
ghost use Rattle.shim_tree.specs.NodeStatus.{node, nodes, together};
ghost use Rattle.shim_tree.specs.Filled.{is_filled};
ghost use Rattle.shim_semantics.specs.Nodes.{death};
ghost use Rattle.shim_semantics.specs.Poison.{poisoned, one_poisoned, poison_node};
ghost use Rattle.shim_tree.specs.Poisoning.{poison_by, poison_among};
ghost use Rattle.shim_semantics.specs.Trees.{poisons};

use crate::fill::{behind, fill_below, fill_to};
use crate::node_status::NodeStatus;
use shim_base::{Chan, NoMemory, Path};
use shim_local::{Death, Local};

// Each live process here and below that shares the channel dies of this label. Since each of them has
// a status, it takes no memory.
fn poison_filled<L: Local>(process: &L, status: &mut NodeStatus<L>, chan: &Chan, label: u32)
    requires filled { is_filled status.old ≡ true }
    ensures { node process.now status.new ≡ poisoned L.ops chan.now.channel (death label) (node process.now status.old) }
{
    match status {
        NodeStatus::Live => {
            if process.shares(chan) {
                *status = NodeStatus::Dead(Death { label, given: None });
            }
        }
        NodeStatus::Ended | NodeStatus::Dead(_) => {}
        NodeStatus::Forked(processes, statuses) => {
            for i in 0..processes.len() {
                poison_filled(&processes[i], &mut statuses[i], chan, label);
            }
        }
    }
}

// Each live process here and below that shares the channel dies of this label. The lists of their
// statuses are filled up first, which takes memory.
fn poison_below<L: Local>(
    process: &L,
    status: &mut NodeStatus<L>,
    chan: &Chan,
    label: u32,
) -> Result<(), NoMemory>
    ensures ok { OnOk result (node process.now status.new ≡ poisoned L.ops chan.now.channel (death label) (node process.now status.old)) }
    ensures err { OnErr result (node process.now status.new ≡ node process.now status.old) }
{
    fill_below(status)?;
    poison_filled(process, status, chan, label);
    Ok(())
}

// Each live process at and below the child in this place that shares the channel dies of this label.
// The processes stay as they are, and are lent as a match lends them.
fn poison_child<L: Local>(
    processes: &mut Vec<L>,
    statuses: &mut Vec<NodeStatus<L>>,
    place: usize,
    chan: &Chan,
    label: u32,
) -> Result<(), NoMemory>
    requires there { place < length processes.old.items }
    ensures ok { OnOk result (together processes.new.items (nodes statuses.new.items) ≡ one_poisoned L.ops chan.now.channel (death label) place (together processes.old.items (nodes statuses.old.items))) }
    ensures err { OnErr result (together processes.new.items (nodes statuses.new.items) ≡ together processes.old.items (nodes statuses.old.items)) }
{
    // takes memory, so it comes before anything has changed
    fill_to(processes.len(), statuses)?;
    poison_below(&processes[place], &mut statuses[place], chan, label)
}

// The child in this place of the fork of the process is poisoned.
fn poison_node<L: Local>(
    process: &L,
    status: &mut NodeStatus<L>,
    place: usize,
    chan: &Chan,
) -> Result<(), NoMemory>
    requires enabled { poison_node L.ops chan.now.channel place (node process.now status.old) ≢ None }
    ensures ok { OnOk result (poison_node L.ops chan.now.channel place (node process.now status.old) ≡ Some (node process.now status.new)) }
    ensures err { OnErr result (node process.now status.new ≡ node process.now status.old) }
{
    match status {
        NodeStatus::Forked(processes, statuses) => {
            let label = process.handlers() - 1;
            poison_child(processes, statuses, place, chan, label)
        }
        NodeStatus::Live | NodeStatus::Ended | NodeStatus::Dead(_) => Ok(()),
    }
}

// The child to which the branch of this place, then the next branch, and then those of the pairs lead is poisoned.
// The processes stay as they are here, too.
#[cycle(poison)]
fn poison_among<L: Local>(
    processes: &mut Vec<L>,
    statuses: &mut Vec<NodeStatus<L>>,
    place: usize,
    next: usize,
    pairs: &[(u32, u32)],
    chan: &Chan,
) -> Result<(), NoMemory>
    requires enabled { poison_among L.ops chan.now.channel place next pairs.now (together processes.old.items (nodes statuses.old.items)) ≢ None }
    ensures ok { OnOk result (poison_among L.ops chan.now.channel place next pairs.now (together processes.old.items (nodes statuses.old.items)) ≡ Some (together processes.new.items (nodes statuses.new.items))) }
    ensures err { OnErr result (together processes.new.items (nodes statuses.new.items) ≡ together processes.old.items (nodes statuses.old.items)) }
{
    // takes memory, so it comes before anything has changed
    fill_to(processes.len(), statuses)?;
    poison_at(&processes[place], &mut statuses[place], next, pairs, chan)
}

// The child is poisoned to which the branch of this place and then those of the pairs lead from here.
#[cycle(poison)]
fn poison_at<L: Local>(
    process: &L,
    status: &mut NodeStatus<L>,
    place: usize,
    pairs: &[(u32, u32)],
    chan: &Chan,
) -> Result<(), NoMemory>
    requires enabled { poison_by L.ops chan.now.channel place pairs.now (node process.now status.old) ≢ None }
    ensures ok { OnOk result (poison_by L.ops chan.now.channel place pairs.now (node process.now status.old) ≡ Some (node process.now status.new)) }
    ensures err { OnErr result (node process.now status.new ≡ node process.now status.old) }
{
    let Some((first, rest)) = pairs.split_first() else {
        return poison_node(process, status, place, chan);
    };
    match status {
        NodeStatus::Forked(processes, statuses) => {
            poison_among(processes, statuses, place, first.1 as usize, rest, chan)
        }
        NodeStatus::Live | NodeStatus::Ended | NodeStatus::Dead(_) => Ok(()),
    }
}

/// The child of this path is poisoned on the channel. Running out of memory changes nothing.
pub(crate) fn poison_on<L: Local>(
    process: &L,
    status: &mut NodeStatus<L>,
    path: &Path,
    chan: &Chan,
) -> Result<(), NoMemory>
    requires enabled { poisons L.ops path.now chan.now.channel (node process.now status.old) ≢ None }
    ensures ok { OnOk result (poisons L.ops path.now chan.now.channel (node process.now status.old) ≡ Some (node process.now status.new)) }
    ensures err { OnErr result (node process.now status.new ≡ node process.now status.old) }
{
    let front = process.path().pairs().len();
    match behind(path.pairs(), front).split_first() {
        Some((first, rest)) => poison_at(process, status, first.1 as usize, rest, chan),
        // the root is no child
        None => Ok(()),
    }
}
