// What a process does by itself: a step of its own, its end, or the close of its fork.
ghost use Rattle.std.specs.Prelude.{◌≡◌, ◌≢◌, ◌<◌, ◌≤◌, None, is_none, IfOk, OnOk, OnErr, length, vec_len, drop};
ghost use Rattle.shim_local.specs.Process.{AtQuiet, AtPut, AtFork, AtThrow};
ghost use Rattle.shim_semantics.specs.Nodes.{prevailing_death};
ghost use Rattle.shim_semantics.specs.Acts.{nothing, putting, throwing, act_here, act, act_child};
ghost use Rattle.shim_semantics.specs.Places.{SoundBelow, branches};
ghost use Rattle.shim_tree.specs.NodeStatus.{node, nodes, together};
ghost use Rattle.shim_tree.specs.Beside.{nth_child};
ghost use Rattle.shim_tree.specs.Labels.{death_of, prevailing_of, ThrowLeaves};
ghost use Rattle.shim_tree.specs.Acting.{effects_of, ActsAtNode, ActsAt, ActsAmong, SoundAmong, acted_on, ActsOn};

use crate::effects::Effects;
use crate::fill::{behind, fill};
use crate::node_status::NodeStatus;
use shim_base::{NoMemory, Path};
use shim_local::{Death, Forked, Local, LogWhat, Stop};

// One quiet step.
fn step_quietly<L: Local>(process: &mut L) -> Result<(), NoMemory>
    requires { L.ops.stop process.old ≡ AtQuiet }
    ensures ok { OnOk result (process.new ≡ L.ops.quiet process.old) }
    ensures err { OnErr result (process.new ≡ process.old) }
{
    let quiet = process.quiet(1);
    if quiet.taken == 0 {
        return Err(NoMemory);
    }
    Ok(())
}

// The put at which the process is. Where its expression traps, there is no effect yet, and the
// process stands trapped.
fn put<L: Local>(process: &mut L) -> Effects
    requires { L.ops.stop process.old ≡ AtPut }
    ensures effects { effects_of result ≡ putting (L.ops.byte process.old) }
    ensures after { process.new ≡ L.ops.put process.old }
{
    match process.put() {
        Some(byte) => Effects::Byte(byte),
        None => Effects::Nothing,
    }
}

// The children of the fork at which the process stands come to be, and live, or the fork traps.
fn fork<L: Local>(process: &mut L, status: &mut NodeStatus<L>) -> Result<(), NoMemory>
    requires lives { status.old ≡ NodeStatus.Live }
    requires forks { L.ops.stop process.old ≡ AtFork }
    ensures ok { OnOk result (ActsAtNode L.ops (node process.old status.old) nothing (node process.new status.new)) }
    ensures err { OnErr result (node process.new status.new ≡ node process.old status.old) }
{
    match process.fork()? {
        Forked::Children(children) => {
            let statuses = Vec::new(children.allocator());
            *status = NodeStatus::Forked(children.into_vec(), statuses);
        }
        // it stands trapped, and lives
        Forked::Trapped => {}
    }
    Ok(())
}

// The exception of this death is thrown in the process, whatever came of it until now. It dies of a
// label that is none of its own handlers', and else goes on at the handler.
fn throw<L: Local>(process: &mut L, status: &mut NodeStatus<L>, death: Death) -> Effects
    requires { death.label < L.ops.handlers process.old }
    ensures { ThrowLeaves L.ops process.old death (effects_of result) (node process.new status.new) }
{
    if death.label < process.base() {
        *status = NodeStatus::Dead(death);
        return Effects::Nothing;
    }
    let (name, line) = process.handler(death.label);
    process.unwind(death.label, death.handed());
    *status = NodeStatus::Live;
    Effects::Log(LogWhat::Caught(name, line))
}

// The throw of this label at which the process is. Where its expression traps, there is no effect yet, and
// the process stands trapped.
fn execute_throw<L: Local>(process: &mut L, status: &mut NodeStatus<L>, label: u32) -> Effects
    requires lives { status.old ≡ NodeStatus.Live }
    requires sound { L.ops.sound process.old }
    requires throws { L.ops.stop process.old ≡ AtThrow label }
    ensures { throwing L.ops process.old label (L.ops.number process.old) ≡ record { node = node process.new status.new; effects = effects_of result } }
{
    match process.thrown() {
        None => Effects::Nothing,
        Some(number) => throw(
            process,
            status,
            Death {
                label,
                given: Some(number),
            },
        ),
    }
}

// A live process does what it stands at.
fn act_live<L: Local>(process: &mut L, status: &mut NodeStatus<L>) -> Result<Effects, NoMemory>
    requires lives { status.old ≡ NodeStatus.Live }
    requires sound { SoundBelow L.ops (node process.old status.old) }
    requires acts { act_here L.ops (node process.old status.old) ≢ None }
    ensures ok { IfOk result (λ effects. ActsAtNode L.ops (node process.old status.old) (effects_of effects) (node process.new status.new)) }
    ensures err { OnErr result (node process.new status.new ≡ node process.old status.old) }
{
    match process.stop() {
        Stop::Quiet => {
            step_quietly(process)?;
            Ok(Effects::Nothing)
        }
        Stop::Put => Ok(put(process)),
        Stop::Fork => {
            fork(process, status)?;
            Ok(Effects::Nothing)
        }
        Stop::Finish => {
            *status = NodeStatus::Ended;
            Ok(Effects::Nothing)
        }
        Stop::Throw(label) => Ok(execute_throw(process, status, label)),
        // a trap is the exception of a label that no handler has
        Stop::Trapped(kind, line) => {
            *status = NodeStatus::Dead(Death {
                label: 0,
                given: Some(0),
            });
            Ok(Effects::Log(LogWhat::Trap(kind, line)))
        }
        // it waits, and does nothing by itself
        Stop::Next(_) => Ok(Effects::Nothing),
    }
}

// How a process with this status died, if it did.
fn death_of<L>(status: &NodeStatus<L>) -> Option<Death>
    ensures { (l : L) → result ≡ death_of (node l status.now) }
{
    match status {
        NodeStatus::Dead(death) => Some(*death),
        NodeStatus::Live | NodeStatus::Ended | NodeStatus::Forked(_, _) => None,
    }
}

// How the child in this place died, given what came of the children.
fn death_at<L>(statuses: &[NodeStatus<L>], i: usize) -> Option<Death>
    ensures { (l : L) → result ≡ death_of (nth_child l (nodes statuses.now) i) }
{
    if i < statuses.len() {
        death_of(&statuses[i])
    } else {
        None
    }
}

// The prevailing one of two deaths, of which each may be missing.
fn prevailing(one: Option<Death>, other: Option<Death>) -> Option<Death>
    ensures { result ≡ prevailing_of one other }
{
    match one {
        None => other,
        Some(x) => match other {
            None => one,
            Some(y) => Some(x.outermost(y)),
        },
    }
}

// The prevailing death among these children, if one died.
fn prevailing_death<L>(children: &[L], statuses: &[NodeStatus<L>]) -> Option<Death>
    ensures { result ≡ prevailing_death (together children.now (nodes statuses.now)) }
{
    let mut death = None;
    let mut left = children.len();
    while left > 0 {
        left -= 1;
        death = prevailing(death_at(statuses, left), death);
    }
    death
}

// The process takes back the values of its children, each of which has ended or died. The answer is
// the prevailing death, whose exception is then to be thrown where the process still stands.
fn take_back<L: Local>(process: &mut L, children: &[L], statuses: &[NodeStatus<L>]) -> Option<Death>
    requires { L.ops.born process.old children.now }
    ensures death { result ≡ prevailing_death (together children.now (nodes statuses.now)) }
    ensures joined { process.new ≡ L.ops.join process.old children.now (is_none result) }
{
    let death = prevailing_death(children, statuses);
    process.join(children, death.is_none());
    death
}

// The process does the one thing that it can do by itself.
fn act_alone<L: Local>(process: &mut L, status: &mut NodeStatus<L>) -> Result<Effects, NoMemory>
    requires sound { SoundBelow L.ops (node process.old status.old) }
    requires acts { act_here L.ops (node process.old status.old) ≢ None }
    ensures ok { IfOk result (λ effects. ActsAtNode L.ops (node process.old status.old) (effects_of effects) (node process.new status.new)) }
    ensures err { OnErr result (node process.new status.new ≡ node process.old status.old) }
{
    match status {
        NodeStatus::Live => act_live(process, status),
        NodeStatus::Forked(processes, statuses) => {
            match take_back(process, processes.as_slice(), statuses.as_slice()) {
                None => {
                    *status = NodeStatus::Live;
                    Ok(Effects::Nothing)
                }
                Some(death) => Ok(throw(process, status, death)),
            }
        }
        NodeStatus::Ended | NodeStatus::Dead(_) => Ok(Effects::Nothing),
    }
}

// The child in this place, or the process below it to which the pairs lead, does the one thing that it
// can do by itself.
#[cycle(act)]
fn act_child<L: Local>(
    processes: &mut Vec<L>,
    statuses: &mut Vec<NodeStatus<L>>,
    place: usize,
    pairs: &[(u32, u32)],
) -> Result<Effects, NoMemory>
    requires sound { SoundAmong L.ops (together processes.old.items (nodes statuses.old.items)) }
    requires acts { act_child L.ops place (branches pairs.now) (together processes.old.items (nodes statuses.old.items)) ≢ None }
    ensures ok { IfOk result (λ effects. ActsAmong L.ops place (branches pairs.now) (together processes.old.items (nodes statuses.old.items)) (effects_of effects) (together processes.new.items (nodes statuses.new.items))) }
    ensures err { OnErr result (together processes.new.items (nodes statuses.new.items) ≡ together processes.old.items (nodes statuses.old.items)) }
{
    // takes memory, so it comes before anything has changed
    fill(processes, statuses)?;
    act_at(&mut processes[place], &mut statuses[place], pairs)
}

/// The process to which these pairs of a path lead from here does the one thing that it can do by
/// itself. The answer is the effect of that. Running out of memory changes nothing.
#[cycle(act)]
pub(crate) fn act_at<L: Local>(
    process: &mut L,
    status: &mut NodeStatus<L>,
    pairs: &[(u32, u32)],
) -> Result<Effects, NoMemory>
    requires sound { SoundBelow L.ops (node process.old status.old) }
    requires acts { act L.ops (branches pairs.now) (node process.old status.old) ≢ None }
    ensures ok { IfOk result (λ effects. ActsAt L.ops (branches pairs.now) (node process.old status.old) (effects_of effects) (node process.new status.new)) }
    ensures err { OnErr result (node process.new status.new ≡ node process.old status.old) }
{
    let Some((first, rest)) = pairs.split_first() else {
        return act_alone(process, status);
    };
    match status {
        NodeStatus::Forked(processes, statuses) => act_child(
            processes,
            statuses,
            first.1 as usize,
            rest,
        ),
        NodeStatus::Live | NodeStatus::Ended | NodeStatus::Dead(_) => Ok(Effects::Nothing),
    }
}

/// The process of this path does the one thing that it can do by itself. The answer is the effect of
/// that. Running out of memory changes nothing.
pub(crate) fn act_on<L: Local>(
    process: &mut L,
    status: &mut NodeStatus<L>,
    path: &Path,
) -> Result<Effects, NoMemory>
    requires sound { SoundBelow L.ops (node process.old status.old) }
    requires acts { acted_on L.ops path.now (node process.old status.old) ≢ None }
    ensures ok { IfOk result (λ effects. ActsOn L.ops path.now (node process.old status.old) (effects_of effects) (node process.new status.new)) }
    ensures err { OnErr result (node process.new status.new ≡ node process.old status.old) }
{
    let front = process.path().pairs().len();
    act_at(process, status, behind(path.pairs(), front))
}
