// The counts of the children that a process would have by its next step.
ghost use Rattle.std.specs.Prelude.{◌≡◌, ◌≢◌, None, Some, OnOk};
ghost use Rattle.std.specs.Option.{option_copied};
ghost use Rattle.shim_local.specs.Process.{AtFork};
ghost use Rattle.shim_local.specs.Laws.{AllOf};
ghost use Rattle.shim_semantics.specs.Places.{led_to};
ghost use Rattle.shim_tree.specs.NodeStatus.{node};
ghost use Rattle.shim_tree.specs.Acting.{acted_on};
ghost use Rattle.shim_run_log.specs.Reserved.{stepped, HasCount, KeepsCounts};
ghost use Rattle.shim_tree.specs.ChildCounts.{live_in, forked_children, ChildCountsReserved};

use crate::fill::behind;
use crate::node_status::NodeStatus;
use crate::standing::live_at;
use shim_base::{NoMemory, Path};
use shim_local::{Forked, Local, Stop};
use shim_run_log::StepCounts;

// The process of this path, if it lives.
fn live_on<'a, L: Local>(root: &'a L, status: &'a NodeStatus<L>, path: &Path) -> Option<&'a L>
    requires acts { acted_on L.ops path.now (node root.now status.now) ≢ None }
    ensures { option_copied result ≡ live_in (led_to L.ops (node root.now status.now) path.now) }
{
    let front = root.path().pairs().len();
    live_at(root, status, behind(path.pairs(), front))
}

// The children of the fork at which the process stands get their counts. They are found by a copy of
// it, since a fork can't be taken back.
fn reserve_children<L: Local>(process: &L, counts: &mut StepCounts) -> Result<(), NoMemory>
    requires { L.ops.stop process.now ≡ AtFork }
    ensures ok { OnOk result (AllOf (λ (l : L). HasCount counts.new (L.ops.path l)) (forked_children (L.ops.fork process.now))) }
    ensures keeps { KeepsCounts counts.old counts.new }
    ensures same { stepped counts.new ≡ stepped counts.old }
{
    let mut copy = process.copy()?;
    match copy.fork()? {
        Forked::Children(children) => counts.reserve_all(children.as_slice()),
        Forked::Trapped => Ok(()),
    }
}

// The children that the process would have by its next step get their counts. Where it stands at no
// fork, it has none by that.
fn reserve_next<L: Local>(process: &L, counts: &mut StepCounts) -> Result<(), NoMemory>
    ensures ok { OnOk result (ChildCountsReserved L.ops counts.new (Some process.now)) }
    ensures keeps { KeepsCounts counts.old counts.new }
    ensures same { stepped counts.new ≡ stepped counts.old }
{
    match process.stop() {
        Stop::Fork => reserve_children(process, counts),
        Stop::Quiet => Ok(()),
        Stop::Next(_) => Ok(()),
        Stop::Put => Ok(()),
        Stop::Finish => Ok(()),
        Stop::Throw(_) => Ok(()),
        Stop::Trapped(_, _) => Ok(()),
    }
}

/// The children that the process of this path would have by its next step get their counts. Running out of
/// memory may leave some of them without.
pub(crate) fn reserve_child_counts<L: Local>(
    root: &L,
    status: &NodeStatus<L>,
    path: &Path,
    counts: &mut StepCounts,
) -> Result<(), NoMemory>
    requires acts { acted_on L.ops path.now (node root.now status.now) ≢ None }
    ensures ok { OnOk result (ChildCountsReserved L.ops counts.new (live_in (led_to L.ops (node root.now status.now) path.now))) }
    ensures keeps { KeepsCounts counts.old counts.new }
    ensures same { stepped counts.new ≡ stepped counts.old }
{
    match live_on(root, status, path) {
        Some(process) => reserve_next(process, counts),
        None => Ok(()),
    }
}
