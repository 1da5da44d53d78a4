// The live process of a path, and whether it stands before a quiet step.
ghost use Rattle.std.specs.Prelude.{◌≡◌, ◌↔◌, Some, IsTrue};
ghost use Rattle.std.specs.Option.{option_copied};
ghost use Rattle.shim_base.specs.Paths.{Path};
ghost use Rattle.shim_local.specs.Process.{AtQuiet};
ghost use Rattle.shim_semantics.specs.Nodes.{Live};
ghost use Rattle.shim_semantics.specs.Places.{SoundBelow, StandsAt, at, branches};
ghost use Rattle.shim_tree.specs.ChildCounts.{live_in};
ghost use Rattle.shim_tree.specs.NodeStatus.{node};

use crate::fill::behind;
use crate::node_status::NodeStatus;
use shim_base::Path;
use shim_local::{Local, Stop};

// The process, if it lives.
fn live_here<'a, L: Local>(process: &'a L, status: &NodeStatus<L>) -> Option<&'a L>
    ensures { option_copied result ≡ live_in (Some (node process.now status.now)) }
{
    match status {
        NodeStatus::Live => Some(process),
        NodeStatus::Ended => None,
        NodeStatus::Dead(_) => None,
        NodeStatus::Forked(_, _) => None,
    }
}

/// The live process to which these pairs of a path lead from here, if there is one.
pub(crate) fn live_at<'a, L: Local>(
    process: &'a L,
    status: &'a NodeStatus<L>,
    pairs: &[(u32, u32)],
) -> Option<&'a L>
    ensures { option_copied result ≡ live_in (at (branches pairs.now) (node process.now status.now)) }
{
    let Some((first, rest)) = pairs.split_first() else {
        return live_here(process, status);
    };
    match status {
        NodeStatus::Live | NodeStatus::Ended | NodeStatus::Dead(_) => None,
        NodeStatus::Forked(children, statuses) => {
            let place = first.1 as usize;
            if place >= children.len() {
                return None;
            }
            let child = &children[place];
            if place < statuses.len() {
                live_at(child, &statuses[place], rest)
            } else if rest.is_empty() {
                Some(child)
            } else {
                None
            }
        }
    }
}

/// Whether the process is that of the path.
pub(crate) fn is_of<L: Local>(process: &L, path: &Path) -> bool
    ensures { IsTrue result ↔ (L.ops.path process.now ≡ path.now) }
{
    process.path() == path
}

/// The process of this path, if it lives in the tree of this root.
pub(crate) fn live_of<'a, L: Local>(
    root: &'a L,
    status: &'a NodeStatus<L>,
    path: &Path,
) -> Option<&'a L>
    requires sound { SoundBelow L.ops (node root.now status.now) }
    ensures { (l : L) → (option_copied result ≡ Some l) ↔ StandsAt L.ops (node root.now status.now) path.now (Live l) }
{
    let front = root.path().pairs().len();
    if path.pairs().len() < front {
        return None;
    }
    match live_at(root, status, behind(path.pairs(), front)) {
        None => None,
        Some(process) => {
            if is_of(process, path) {
                Some(process)
            } else {
                None
            }
        }
    }
}

/// Whether the process stands before a quiet step.
pub(crate) fn stands_quiet<L: Local>(process: &L) -> bool
    ensures { IsTrue result ↔ (L.ops.stop process.now ≡ AtQuiet) }
{
    match process.stop() {
        Stop::Quiet => true,
        Stop::Next(_)
        | Stop::Put
        | Stop::Fork
        | Stop::Finish
        | Stop::Throw(_)
        | Stop::Trapped(_, _) => false,
    }
}
