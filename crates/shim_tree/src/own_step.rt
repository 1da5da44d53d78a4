// What a process does by itself, with its effects put and logged.
ghost use Rattle.std.specs.Prelude.{◌≡◌, ◌≢◌, None, OnOk, OnErr};
ghost use Rattle.shim_semantics.specs.Places.{SoundBelow};
ghost use Rattle.shim_tree.specs.NodeStatus.{node};
ghost use Rattle.shim_tree.specs.Acting.{acted_on};
ghost use Rattle.shim_tree.specs.Advancing.{AllHaveCounts};
ghost use Rattle.shim_run_log.specs.Reserved.{stepped, KeepsCounts};
ghost use Rattle.shim_run_log.specs.Logged.{logged};
ghost use Rattle.shim_tree.specs.OwnStepEffects.{DoesOwnStep, ChangesNothing};

use crate::act::act_on;
use crate::child_counts::reserve_child_counts;
use crate::effects::Effects;
use crate::node_status::NodeStatus;
use shim_base::{NoMemory, Path};
use shim_local::{Local, Log};
use shim_run_log::StepCounts;

/// The process of this path does the one thing that it can do by itself, and the byte that it puts, or
/// what is logged of it, comes after the others. The children that it then has have their counts. Running out
/// of memory changes nothing, but for counts of 0.
pub(crate) fn own_step<L: Local>(
    root: &mut L,
    status: &mut NodeStatus<L>,
    output: &mut Vec<u8>,
    logs: &mut Vec<Log>,
    counts: &mut StepCounts,
    path: &Path,
) -> Result<(), NoMemory>
    requires sound { SoundBelow L.ops (node root.old status.old) }
    requires acts { acted_on L.ops path.now (node root.old status.old) ≢ None }
    ensures ok { OnOk result (DoesOwnStep L.ops path.now (node root.old status.old) (node root.new status.new) output.old.items output.new.items (logged logs.old.items) (logged logs.new.items)) }
    ensures err { OnErr result (ChangesNothing (node root.old status.old) (node root.new status.new) output.old.items output.new.items (logged logs.old.items) (logged logs.new.items)) }
    ensures places { AllHaveCounts L.ops counts.old (node root.old status.old) → AllHaveCounts L.ops counts.new (node root.new status.new) }
    ensures keeps { KeepsCounts counts.old counts.new }
    ensures same { stepped counts.new ≡ stepped counts.old }
{
    // what may be refused comes first, since what is done can't be taken back
    output.reserve(1)?;
    logs.reserve(1)?;
    let logged = path.copy()?;
    reserve_child_counts(root, status, path, counts)?;
    match act_on(root, status, path)? {
        Effects::Nothing => {}
        Effects::Byte(byte) => output.push_reserved(byte),
        Effects::Log(what) => logs.push_reserved(Log { path: logged, what }),
    }
    Ok(())
}
