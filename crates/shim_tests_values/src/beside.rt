// Two processes of different kinds that are in the same state, taken to their end beside one another. After
// each call they have to be in the same state again.
ghost use Rattle.std.specs.Prelude.{◌≡◌, ◌↔◌, IsTrue, IfOk, MatchOption, OnOk};
ghost use Rattle.shim_base.specs.Paths.{NamedChannel};
ghost use Rattle.shim_local.specs.Process.{AtFork, AtNext, AtPut, AtThrow};
ghost use Rattle.shim_local.specs.Laws.{AllOf};
ghost use Rattle.shim_tests_values.specs.Kept.{StaysChild, StayChildren};

use crate::tracing::{Fate, outermost};
use shim_base::NoMemory;
use shim_local::{Death, Forked, Local, Stop};
use shim_walk::has_process::HasProcess;
use std::mem;

// The value that each rendezvous gives.
const MET: i64 = 300;

// What came of one call of a process.
#[derive(Clone, Copy, Debug, PartialEq, Eq)]
enum Called {
    // So many quiet steps were done, of at most one.
    Quiet(u64),
    Put(Option<u8>),
    Met,
    // The name and the line of the `try` whose handler it went to.
    Caught(u32, u32),
    // It stands at a fork.
    Forks,
    Ended,
    // The expression of its throw traps.
    NoNumber,
    // It died this death.
    Dead(Death),
}

impl Called {
    fn fate(self) -> Fate {
        match self {
            Called::Quiet(_) | Called::Put(_) | Called::Met => Fate::Live,
            Called::Caught(_, _) | Called::NoNumber => Fate::Live,
            Called::Forks | Called::Ended => Fate::Ended,
            Called::Dead(death) => Fate::Dead(death),
        }
    }
}

/// Why two processes weren't taken to their ends.
#[derive(Clone, Copy)]
pub enum Apart {
    NoMemory,
    /// What differs between them, or which limit they passed: that of calls or that of levels of forks.
    By(&'static str),
}

impl From<NoMemory> for Apart {
    fn from(_error: NoMemory) -> Apart {
        Apart::NoMemory
    }
}

// Whether both processes are the same state.
fn agree<A: HasProcess, B: HasProcess>(one: &A, other: &B) -> Result<(), Apart> {
    if one.process().same(other.process()) {
        Ok(())
    } else {
        Err(Apart::By("states"))
    }
}

// An error unless one call came to the same for both.
fn agree_on(called: Called, wanted: Called) -> Result<(), Apart> {
    if called == wanted {
        Ok(())
    } else {
        Err(Apart::By("calls"))
    }
}

fn at_fork<L: Local>(process: &L) -> bool
    ensures { IsTrue result ↔ (L.ops.stop process.now ≡ AtFork) }
{
    match process.stop() {
        Stop::Fork => true,
        _ => false,
    }
}

// Does that at which the process stands, but no fork.
fn call<L: Local>(process: &mut L) -> Called
    ensures { StaysChild L.ops process.old process.new }
{
    match process.stop() {
        Stop::Quiet => go_quietly(process),
        Stop::Next(_) => meet(process),
        Stop::Put => put(process),
        Stop::Fork => Called::Forks,
        Stop::Finish => Called::Ended,
        Stop::Throw(label) => throw(process, label),
        Stop::Trapped(_, _) => Called::Dead(Death {
            label: 0,
            given: Some(0),
        }),
    }
}

fn go_quietly<L: Local>(process: &mut L) -> Called
    ensures { StaysChild L.ops process.old process.new }
{
    let _path = process.path(); // its state is sound
    let quiet = process.quiet(1);
    Called::Quiet(quiet.taken)
}

fn meet<L: Local>(process: &mut L) -> Called
    requires { (c : NamedChannel) × (L.ops.stop process.old ≡ AtNext c) }
    ensures { StaysChild L.ops process.old process.new }
{
    let _path = process.path(); // its state is sound
    process.receive(MET);
    Called::Met
}

fn put<L: Local>(process: &mut L) -> Called
    requires { L.ops.stop process.old ≡ AtPut }
    ensures { StaysChild L.ops process.old process.new }
{
    let _path = process.path(); // its state is sound
    Called::Put(process.put())
}

// The throw of this label at which the process stands.
fn throw<L: Local>(process: &mut L, label: u32) -> Called
    requires { L.ops.stop process.old ≡ AtThrow label }
    ensures { StaysChild L.ops process.old process.new }
{
    let _path = process.path(); // its state is sound
    match process.thrown() {
        None => Called::NoNumber,
        Some(number) => {
            let death = Death {
                label,
                given: Some(number),
            };
            unwind(process, death)
        }
    }
}

// Goes to the handler of the exception, where that is the process's own. Else the answer is this death, and the
// process stays as it is.
fn unwind<L: Local>(process: &mut L, death: Death) -> Called
    ensures { StaysChild L.ops process.old process.new }
{
    let _path = process.path(); // its state is sound
    let label = death.label;
    if process.base() <= label && label < process.handlers() {
        let handler = process.handler(label);
        process.unwind(label, death.handed());
        Called::Caught(handler.0, handler.1)
    } else {
        Called::Dead(death)
    }
}

// Each state is one that a process comes to.
fn are_sound<L: Local>(children: &[L])
    ensures { AllOf L.ops.sound children.now }
{
    for child in children {
        let _path = child.path();
    }
}

/// Takes both to their end. A process makes at most 3,000 calls, and has at most `levels` levels of forks below it.
///
/// Before each call the second is copied, and one of the two, each every other time, does that call ahead:
/// the other stays as it was, and then does the same.
#[cycle(go)]
pub fn go<A: Local + HasProcess, B: Local + HasProcess>(
    one: &mut A,
    other: &mut B,
    levels: u32,
) -> Result<Fate, Apart>
    ensures { OnOk result (StaysChild A.ops one.old one.new × StaysChild B.ops other.old other.new) }
{
    agree(one, other)?;
    for at in 0..3000 {
        let mut ahead = other.copy()?;
        if at % 2 == 1 {
            mem::swap(other, &mut ahead);
        }
        let fate = go_on(one, other, &mut ahead, levels)?;
        if fate != Fate::Live {
            return Ok(fate);
        }
    }
    Err(Apart::By("no end"))
}

// One call of both, and of a copy of the second.
#[cycle(go)]
fn go_on<A: Local + HasProcess, B: Local + HasProcess>(
    one: &mut A,
    other: &mut B,
    ahead: &mut B,
    levels: u32,
) -> Result<Fate, Apart>
    ensures { OnOk result (StaysChild A.ops one.old one.new × StaysChild B.ops other.old other.new) }
{
    if at_fork(one) && at_fork(other) {
        if at_fork(ahead) {
            let _children = ahead.fork()?;
        }
        agree(one, other)?;
        return fork(one, other, levels);
    }
    let called = call(ahead);
    agree(one, other)?;
    agree_on(call(one), called)?;
    agree(one, ahead)?;
    agree_on(call(other), called)?;
    agree(one, other)?;
    Ok(called.fate())
}

// The children of the fork at which the process stands; none where it traps.
fn children_of<L: Local>(process: &mut L) -> Result<Option<Vec<L>>, NoMemory>
    requires { L.ops.stop process.old ≡ AtFork }
    ensures stays { OnOk result (StaysChild L.ops process.old process.new) }
    ensures born { IfOk result (λ children. MatchOption children (StaysChild L.ops process.old process.new) (λ some. L.ops.born process.new some.items)) }
{
    let _path = process.path(); // its state is sound
    match process.fork()? {
        Forked::Trapped => Ok(None),
        Forked::Children(children) => Ok(Some(children.into_vec())),
    }
}

// Takes back the children of the last fork, which stayed those of their parent.
fn take_back<L: Local>(process: &mut L, children: &[L], goes_on: bool)
    requires { L.ops.born process.old children.now }
    ensures { StaysChild L.ops process.old process.new }
{
    let _path = process.path(); // its state is sound
    are_sound(children);
    process.join(children, goes_on);
}

// Makes the children of both, takes them to their ends, and takes back what they have.
#[cycle(go)]
fn fork<A: Local + HasProcess, B: Local + HasProcess>(
    one: &mut A,
    other: &mut B,
    levels: u32,
) -> Result<Fate, Apart>
    requires one { A.ops.stop one.old ≡ AtFork }
    requires other { B.ops.stop other.old ≡ AtFork }
    ensures { OnOk result (StaysChild A.ops one.old one.new × StaysChild B.ops other.old other.new) }
{
    if levels == 0 {
        return Err(Apart::By("levels"));
    }
    let ones = children_of(one)?;
    let others = children_of(other)?;
    agree(one, other)?;
    if ones.is_some() != others.is_some() {
        return Err(Apart::By("children"));
    }
    let (Some(mut ones), Some(mut others)) = (ones, others) else {
        return Ok(Fate::Live);
    };
    let least = go_all(&mut ones, &mut others, levels - 1)?;
    take_back(one, ones.as_slice(), least.is_none());
    take_back(other, others.as_slice(), least.is_none());
    agree(one, other)?;
    come_back(one, other, least)
}

// Takes the children of both to their ends, and answers the prevailing death of those that are dead.
#[cycle(go)]
fn go_all<A: Local + HasProcess, B: Local + HasProcess>(
    ones: &mut Vec<A>,
    others: &mut Vec<B>,
    levels: u32,
) -> Result<Option<Death>, Apart>
    ensures { OnOk result (StayChildren A.ops ones.old.items ones.new.items × StayChildren B.ops others.old.items others.new.items) }
{
    if ones.len() != others.len() {
        return Err(Apart::By("children"));
    }
    let mut least = None;
    for at in 0..ones.len() {
        let Some(one) = ones.get_mut(at) else {
            return Ok(least);
        };
        let Some(other) = others.get_mut(at) else {
            return Ok(least);
        };
        let fate = go(one, other, levels)?;
        least = outermost(least, fate);
    }
    Ok(least)
}

// Both go on after the fork. If a child died, both go to the handler of the prevailing death, or die of it.
fn come_back<A: Local + HasProcess, B: Local + HasProcess>(
    one: &mut A,
    other: &mut B,
    least: Option<Death>,
) -> Result<Fate, Apart>
    ensures { OnOk result (StaysChild A.ops one.old one.new × StaysChild B.ops other.old other.new) }
{
    match least {
        None => Ok(Fate::Live),
        Some(death) => {
            let called = unwind(one, death);
            agree_on(unwind(other, death), called)?;
            agree(one, other)?;
            Ok(called.fate())
        }
    }
}
