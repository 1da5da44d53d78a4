// What is read off a tree in the end.
ghost use Rattle.std.specs.Prelude.{◌≡◌, cond, OnOk, IfOk};
ghost use Rattle.shim_local.specs.declared.Outcome.TheVariants.{Spent};
ghost use Rattle.shim_tree.specs.NodeStatus.{node};
ghost use Rattle.shim_semantics.specs.Nodes.{next_channel};
ghost use Rattle.shim_semantics.specs.Endings as endings;
ghost use Rattle.shim_run_log.specs.Waits.{with_waits};

use crate::node_status::NodeStatus;
use shim_base::{List, NoMemory};
use shim_local::{Local, Outcome, Stop, WaitAt};
use shim_run_log::Waits;
use std::alloc::Global;

/// How a run has ended: by the root's status if its tree is quiescent, and else `Spent`.
pub(crate) fn outcome_of<L>(status: &NodeStatus<L>, quiescent: bool) -> Outcome
    ensures { (l : L) → result ≡ cond quiescent (endings.outcome_of_root (node l status.now)) Spent }
{
    if quiescent {
        outcome_of_root(status)
    } else {
        Outcome::Spent
    }
}

// What came of the root of a tree in which nothing can happen.
fn outcome_of_root<L>(status: &NodeStatus<L>) -> Outcome
    ensures { (l : L) → result ≡ endings.outcome_of_root (node l status.now) }
{
    match status {
        NodeStatus::Live | NodeStatus::Forked(_, _) => Outcome::Blocked,
        NodeStatus::Ended => Outcome::Done,
        NodeStatus::Dead(death) => outcome_of_label(death.label),
    }
}

// What came of a process that died of an exception with this label; 0 is a trap's.
fn outcome_of_label(label: u32) -> Outcome
    ensures { result ≡ endings.outcome_of_label label }
{
    if label == 0 {
        Outcome::Trapped
    } else {
        Outcome::Uncaught(label)
    }
}

/// The processes that wait, by path, where the outcome is that the run is blocked, and else none.
pub(crate) fn waits_of<L: Local>(
    alloc: Global,
    root: &L,
    status: &NodeStatus<L>,
    outcome: Outcome,
) -> Result<List<WaitAt>, NoMemory>
    ensures { IfOk result (λ waits. waits ≡ endings.waits_of L.ops (node root.now status.now) outcome) }
{
    match outcome {
        Outcome::Blocked => {
            let mut waits = Waits::new(alloc);
            gather(root, status, &mut waits)?;
            waits.list(alloc)
        }
        Outcome::Done => Ok(List::new(alloc)),
        Outcome::Uncaught(_) => Ok(List::new(alloc)),
        Outcome::Trapped => Ok(List::new(alloc)),
        Outcome::Spent => Ok(List::new(alloc)),
    }
}

// Adds each live process here and below that stands at a channel.
fn gather<L: Local>(root: &L, status: &NodeStatus<L>, waits: &mut Waits) -> Result<(), NoMemory>
    ensures { OnOk result (waits.new ≡ with_waits waits.old (endings.waiting L.ops (node root.now status.now))) }
{
    match status {
        NodeStatus::Live => gather_live(root, waits),
        NodeStatus::Ended => Ok(()),
        NodeStatus::Dead(_) => Ok(()),
        NodeStatus::Forked(children, came) => {
            for i in 0..children.len() {
                if i < came.len() {
                    gather(&children[i], &came[i], waits)?;
                } else {
                    gather_live(&children[i], waits)?;
                }
            }
            Ok(())
        }
    }
}

// Adds this live process, if it stands at a channel.
fn gather_live<L: Local>(process: &L, waits: &mut Waits) -> Result<(), NoMemory>
    ensures { OnOk result (waits.new ≡ with_waits waits.old (endings.wait_of (L.ops.path process.now) (next_channel (L.ops.stop process.now)))) }
{
    match process.stop() {
        Stop::Next(chan) => waits.add(process.path(), chan),
        Stop::Quiet => Ok(()),
        Stop::Put => Ok(()),
        Stop::Fork => Ok(()),
        Stop::Finish => Ok(()),
        Stop::Throw(_) => Ok(()),
        Stop::Trapped(_, _) => Ok(()),
    }
}
