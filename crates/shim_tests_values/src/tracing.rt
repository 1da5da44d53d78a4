// What a process does from where it stands to its end, written down.
ghost use Rattle.std.specs.Prelude.{◌≡◌, IfOk, OnOk};
ghost use Rattle.shim_base.specs.Paths.{NamedChannel};
ghost use Rattle.shim_local.specs.Process.{AtNext, AtPut, AtFork, AtThrow};
ghost use Rattle.shim_local.specs.Laws.{AllOf};
ghost use Rattle.shim_tests_values.specs.Kept.{StaysChild, StayChildren};

use crate::tell::{at_line, channel, count, trap, value, word};
use shim_base::{Chan, List, Name, NoMemory};
use shim_local::{Death, Forked, Local, Stop};
use std::mem;
use std::sync::Arc;

// The value that a rendezvous gives to a process which doesn't carry the channel's own variable.
const MET: i64 = 7;

/// What has become of a process.
#[derive(Clone, Copy, Debug, PartialEq, Eq)]
pub enum Fate {
    Live,
    Ended,
    /// It died this death.
    Dead(Death),
}

impl Fate {
    /// The process died of the exception of this label, with the number 0, as after a trap.
    pub fn died_of(label: u32) -> Fate {
        Fate::Dead(Death {
            label,
            given: Some(0),
        })
    }
}

/// Takes the process from where it stands to its end, and tells what it does on the way. Of a process
/// that forks more levels of children than these, or doesn't come to its end in 300 stops, it tells `..`.
///
/// At each stop a copy has to be in the same state, or `other` is told. Every other time the copy goes on in place
/// of the process. If a stop leaves the state as it was, `same` is told.
#[cycle(trace)]
pub fn trace<L: Local>(
    process: &mut L,
    names: &[Name],
    levels: u32,
    reply: &mut List<u8>,
) -> Result<Fate, NoMemory>
    ensures { OnOk result (StaysChild L.ops process.old process.new) }
{
    for stop in 0..300 {
        let mut before = another(process, reply)?;
        if stop % 2 == 1 {
            mem::swap(process, &mut before);
        }
        let fate = go_on(process, names, levels, reply)?;
        if fate != Fate::Live {
            tell_own(process, reply)?;
            return Ok(fate);
        }
        if process.same(&before) {
            word(reply, b"same")?;
        }
    }
    word(reply, b"..")?;
    Ok(Fate::Ended)
}

// A copy of the process, in the same state; tells `other` where the two are told apart.
fn another<L: Local>(process: &L, reply: &mut List<u8>) -> Result<L, NoMemory>
    ensures { IfOk result (λ other. other ≡ process.now) }
{
    let other = process.copy()?;
    if !other.same(process) || !process.same(&other) {
        word(reply, b"other")?;
    }
    Ok(other)
}

// Does that at which the process stands, and tells it.
#[cycle(trace)]
fn go_on<L: Local>(
    process: &mut L,
    names: &[Name],
    levels: u32,
    reply: &mut List<u8>,
) -> Result<Fate, NoMemory>
    ensures { OnOk result (StaysChild L.ops process.old process.new) }
{
    match process.stop() {
        Stop::Quiet => go_quietly(process, reply),
        Stop::Next(chan) => {
            let chan = chan.copy()?;
            meet(process, &chan, names, reply)
        }
        Stop::Put => put(process, reply),
        Stop::Fork => fork(process, names, levels, reply),
        Stop::Finish => {
            word(reply, b"end")?;
            Ok(Fate::Ended)
        }
        Stop::Throw(label) => throw(process, label, names, reply),
        Stop::Trapped(kind, line) => {
            trap(reply, kind, line)?;
            Ok(Fate::died_of(0))
        }
    }
}

fn go_quietly<L: Local>(process: &mut L, reply: &mut List<u8>) -> Result<Fate, NoMemory>
    ensures { OnOk result (StaysChild L.ops process.old process.new) }
{
    let _path = process.path(); // its state is sound
    let quiet = process.quiet(1000);
    count(reply, b"q", quiet.taken)?;
    Ok(Fate::Live)
}

fn meet<L: Local>(
    process: &mut L,
    chan: &Chan,
    names: &[Name],
    reply: &mut List<u8>,
) -> Result<Fate, NoMemory>
    requires { (c : NamedChannel) × (L.ops.stop process.old ≡ AtNext c) }
    ensures { OnOk result (StaysChild L.ops process.old process.new) }
{
    let _path = process.path(); // its state is sound
    word(reply, b"next ")?;
    channel(reply, names, chan)?;
    let met = met(process, chan, reply)?;
    process.receive(met);
    Ok(Fate::Live)
}

// What the rendezvous on the channel gives the process: the value of its own variable, where the process
// carries that, which is told then.
fn met<L: Local>(process: &L, chan: &Chan, reply: &mut List<u8>) -> Result<i64, NoMemory> {
    if process.carries(chan) {
        let own = process.value(chan);
        value(reply, b"=", own)?;
        Ok(own)
    } else {
        Ok(MET)
    }
}

fn put<L: Local>(process: &mut L, reply: &mut List<u8>) -> Result<Fate, NoMemory>
    requires { L.ops.stop process.old ≡ AtPut }
    ensures { OnOk result (StaysChild L.ops process.old process.new) }
{
    let _path = process.path(); // its state is sound
    match process.put() {
        Some(byte) => count(reply, b"put=", byte as u64)?,
        None => word(reply, b"put=none")?,
    }
    Ok(Fate::Live)
}

// The throw of this label at which the process stands.
fn throw<L: Local>(
    process: &mut L,
    label: u32,
    names: &[Name],
    reply: &mut List<u8>,
) -> Result<Fate, NoMemory>
    requires { L.ops.stop process.old ≡ AtThrow label }
    ensures { OnOk result (StaysChild L.ops process.old process.new) }
{
    let _path = process.path(); // its state is sound
    match process.thrown() {
        None => {
            word(reply, b"throw=none")?;
            Ok(Fate::Live)
        }
        Some(number) => {
            let death = Death {
                label,
                given: Some(number),
            };
            unwind(process, death, names, reply)
        }
    }
}

// Goes to the handler of the exception, where that is the process's own. Else the answer is this death, and the
// process stays as it is.
fn unwind<L: Local>(
    process: &mut L,
    death: Death,
    names: &[Name],
    reply: &mut List<u8>,
) -> Result<Fate, NoMemory>
    ensures { OnOk result (StaysChild L.ops process.old process.new) }
{
    let _path = process.path(); // its state is sound
    let label = death.label;
    if process.base() <= label && label < process.handlers() {
        let handler = process.handler(label);
        process.unwind(label, death.handed());
        word(reply, b"catch ")?;
        at_line(reply, names, handler.0, handler.1)?;
        Ok(Fate::Live)
    } else {
        count(reply, b"throw ", label as u64)?;
        Ok(Fate::Dead(death))
    }
}

// Goes on after a fork. If a child died, goes to the handler of the prevailing death, or dies of it.
fn come_back<L: Local>(
    process: &mut L,
    least: Option<Death>,
    names: &[Name],
    reply: &mut List<u8>,
) -> Result<Fate, NoMemory>
    ensures { OnOk result (StaysChild L.ops process.old process.new) }
{
    match least {
        None => Ok(Fate::Live),
        Some(death) => unwind(process, death, names, reply),
    }
}

// Takes each child to its end, and what they have is the process's again.
#[cycle(trace)]
fn fork<L: Local>(
    process: &mut L,
    names: &[Name],
    levels: u32,
    reply: &mut List<u8>,
) -> Result<Fate, NoMemory>
    requires { L.ops.stop process.old ≡ AtFork }
    ensures { OnOk result (StaysChild L.ops process.old process.new) }
{
    if levels == 0 {
        word(reply, b"..")?;
        return Ok(Fate::Ended);
    }
    let _path = process.path(); // its state is sound
    match process.fork()? {
        Forked::Trapped => {
            word(reply, b"fork=none")?;
            Ok(Fate::Live)
        }
        Forked::Children(children) => {
            let mut children = children.into_vec();
            word(reply, b"fork(")?;
            let least = trace_all(&mut children, names, levels - 1, reply)?;
            reply.extend_from_slice(b")")?;
            are_sound(children.as_slice());
            process.join(children.as_slice(), least.is_none());
            come_back(process, least, names, reply)
        }
    }
}

// Takes each child to its end, and answers the prevailing death of those that are dead. The children stay
// those of their parent.
#[cycle(trace)]
fn trace_all<L: Local>(
    children: &mut Vec<L>,
    names: &[Name],
    levels: u32,
    reply: &mut List<u8>,
) -> Result<Option<Death>, NoMemory>
    ensures { OnOk result (StayChildren L.ops children.old.items children.new.items) }
{
    let mut least = None;
    for at in 0..children.len() {
        separate(reply, at)?;
        let Some(child) = children.get_mut(at) else {
            return Ok(least);
        };
        tell_given(child, names, reply)?;
        let fate = trace(child, names, levels, reply)?;
        least = outermost(least, fate);
    }
    Ok(least)
}

// A bar stands between two children.
fn separate(reply: &mut List<u8>, at: usize) -> Result<(), NoMemory> {
    if at == 0 {
        Ok(())
    } else {
        reply.extend_from_slice(b"|")
    }
}

/// The outermost of `least` and the death of `fate`; if only one of them is there, that one.
pub fn outermost(least: Option<Death>, fate: Fate) -> Option<Death> {
    match fate {
        Fate::Dead(death) => match least {
            Some(other) => Some(other.outermost(death)),
            None => Some(death),
        },
        _ => least,
    }
}

// Each state is one that a process comes to.
fn are_sound<L: Local>(children: &[L])
    ensures { AllOf L.ops.sound children.now }
{
    for child in children {
        let _path = child.path();
    }
}

// Tells the channels that a fork gave the process, and whether it has the output, as in `<a#0 b#1 o>`.
fn tell_given<L: Local>(process: &L, names: &[Name], reply: &mut List<u8>) -> Result<(), NoMemory> {
    reply.extend_from_slice(b"<")?;
    let mut between = b"".as_slice();
    for at in 0..32 {
        if let Some(chan) = process.given(at) {
            reply.extend_from_slice(between)?;
            channel(reply, names, chan)?;
            between = b" ".as_slice();
        }
    }
    if process.holds_output() {
        reply.extend_from_slice(between)?;
        reply.extend_from_slice(b"o")?;
    }
    reply.extend_from_slice(b">")
}

// Tells the own variables that the process carries of the first ten channels that it declared, each by
// its channel's serial.
fn tell_own<L: Local>(process: &L, reply: &mut List<u8>) -> Result<(), NoMemory> {
    let alloc = reply.allocator();
    let home = Arc::new(alloc, process.path().copy()?)?;
    for serial in 0..10 {
        let chan = Chan::new(Arc::try_clone(&home)?, serial, 0);
        if process.carries(&chan) {
            count(reply, b"#", serial as u64)?;
            value(reply, b"=", process.value(&chan))?;
        }
    }
    Ok(())
}
