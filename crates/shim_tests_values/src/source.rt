// Whole sources, each with what is told of the process that runs its `main`, and whether two are the same.
use crate::beside::{Apart, go};
use crate::code::{tell_code, tell_throws};
use crate::met::tell_met;
use crate::places::tell_places;
use crate::shared::tell_shared;
use crate::tell::{count, value, word};
use crate::tracing::{Fate, trace};
use shim_base::{List, Name, NoMemory, Shared};
use shim_code::compile;
use shim_front_end::read_source;
use shim_local::Local;
use shim_sharing::Accepted;
use shim_vm::Body;
use shim_walk::Walk;
use shim_walk::has_process::HasProcess;
use std::alloc::Global;

// A source has at most so many bytes.
const MOST_BYTES: usize = 1_048_576;

// The units of a text, or nothing where it is too long or refused, or memory ran out for it.
fn units_of(alloc: Global, text: &[u8]) -> Option<Accepted> {
    if text.len() > MOST_BYTES {
        return None;
    }
    match read_source(alloc, text) {
        Ok(accepted) => Some(accepted),
        Err(_) => None,
    }
}

// The program of a text, or nothing where it is refused.
fn program_of(alloc: Global, text: &[u8]) -> Result<Option<Shared<Accepted>>, NoMemory> {
    match units_of(alloc, text) {
        None => Ok(None),
        Some(units) => Ok(Some(Shared::new(alloc, units)?)),
    }
}

// The process over the syntax that runs the `main` of a program on this input.
fn walk_of(alloc: Global, program: Shared<Accepted>, input: &[u8]) -> Result<Walk, NoMemory> {
    let input = Shared::new(alloc, List::from_slice(alloc, input)?)?;
    Walk::main(alloc, program, input)
}

// The process over compiled code that runs the `main` of a program on this input.
fn body_of(alloc: Global, program: &Accepted, input: &[u8]) -> Result<Body, NoMemory> {
    let input = Shared::new(alloc, List::from_slice(alloc, input)?)?;
    let code = Shared::new(alloc, compile(alloc, program)?)?;
    Body::main(alloc, code, input)
}

/// Over what a process is run.
#[derive(Clone, Copy)]
pub enum Over {
    Syntax,
    /// Compiled code.
    Code,
}

/// What is asked of a process.
#[derive(Clone, Copy)]
pub enum Question {
    /// Its trace, from where it stands.
    Trace,
    /// Which of the root's first four channels it shares after at most so many quiet steps, as in `#0 #2`; where it
    /// stands at a fork then, also those of each child, after a bar.
    Shares(u64),
    /// Whether it and a copy are the same, once the rendezvous after one quiet step gave the first value to it and the
    /// second to the copy.
    Met(i64, i64),
    /// Whether it runs compiled code.
    Compiled,
}

fn compiled<L: Local>() -> &'static [u8] {
    if L::COMPILED {
        b"compiled".as_slice()
    } else {
        b"not compiled".as_slice()
    }
}

fn reply<L: Local>(
    alloc: Global,
    process: L,
    question: Question,
    names: &[Name],
) -> Result<List<u8>, NoMemory> {
    let mut process = process;
    let mut reply = List::new(alloc);
    match question {
        Question::Trace => {
            trace(&mut process, names, 8, &mut reply)?;
        }
        Question::Shares(taken) => {
            process.quiet(taken);
            tell_shared(&mut process, &mut reply)?;
        }
        Question::Met(one, other) => {
            process.quiet(1);
            tell_met(&mut process, one, other, &mut reply)?;
        }
        Question::Compiled => word(&mut reply, compiled::<L>())?,
    }
    Ok(reply)
}

// The reply of a process over syntax.
fn reply_of_walk(
    alloc: Global,
    walk: Walk,
    question: Question,
    names: &[Name],
) -> Result<List<u8>, NoMemory> {
    reply(alloc, walk, question, names)
}

// The reply of a process over compiled code.
fn reply_of_body(
    alloc: Global,
    body: Body,
    question: Question,
    names: &[Name],
) -> Result<List<u8>, NoMemory> {
    reply(alloc, body, question, names)
}

fn told_over_syntax(
    alloc: Global,
    program: Shared<Accepted>,
    input: &[u8],
    question: Question,
) -> Result<List<u8>, NoMemory> {
    let kept = program.share()?;
    let walk = walk_of(alloc, program, input)?;
    reply_of_walk(alloc, walk, question, kept.names())
}

fn told_over_code(
    alloc: Global,
    program: &Accepted,
    input: &[u8],
    question: Question,
) -> Result<List<u8>, NoMemory> {
    let body = body_of(alloc, program, input)?;
    reply_of_body(alloc, body, question, program.names())
}

/// The answer of the process that runs the `main` of a text on this input; nothing where the text is refused.
pub fn reply_of(
    alloc: Global,
    text: &[u8],
    input: &[u8],
    over: Over,
    question: Question,
) -> Result<Option<List<u8>>, NoMemory> {
    let Some(program) = program_of(alloc, text)? else {
        return Ok(None);
    };
    let reply = match over {
        Over::Syntax => told_over_syntax(alloc, program, input, question)?,
        Over::Code => told_over_code(alloc, &program, input, question)?,
    };
    Ok(Some(reply))
}

/// A source whose `main` has this input and is to take at most so many quiet steps.
#[derive(Drop)]
pub struct AfterSteps<'a> {
    pub text: &'a [u8],
    pub input: &'a [u8],
    pub taken: u64,
}

// ---- whether two are the same

// The process over syntax of a source after its steps; nothing where the source is refused.
fn walk_after(alloc: Global, behind: &AfterSteps) -> Result<Option<Walk>, NoMemory> {
    let Some(program) = program_of(alloc, behind.text)? else {
        return Ok(None);
    };
    let mut walk = walk_of(alloc, program, behind.input)?;
    walk.quiet(behind.taken);
    Ok(Some(walk))
}

// The process over compiled code of a source after its steps; nothing where the source is refused.
fn body_after(alloc: Global, behind: &AfterSteps) -> Result<Option<Body>, NoMemory> {
    let Some(program) = program_of(alloc, behind.text)? else {
        return Ok(None);
    };
    let mut body = body_of(alloc, &program, behind.input)?;
    body.quiet(behind.taken);
    Ok(Some(body))
}

/// Whether both of two states tell that the other is the same, only one of them does, or none.
pub fn told_same<L: Local>(one: &L, other: &L) -> &'static [u8] {
    let there = one.same(other);
    let back = other.same(one);
    if there != back {
        b"the same one way".as_slice()
    } else if there {
        b"the same".as_slice()
    } else {
        b"told apart".as_slice()
    }
}

// What is told of whether two processes over syntax are the same.
fn reply_of_walks(one: &Walk, other: &Walk) -> &'static [u8] {
    told_same(one, other)
}

// What is told of whether two processes over compiled code are the same.
fn reply_of_bodies(one: &Body, other: &Body) -> &'static [u8] {
    told_same(one, other)
}

fn beside_walk(
    alloc: Global,
    one: &Walk,
    other: &AfterSteps,
) -> Result<Option<&'static [u8]>, NoMemory> {
    match walk_after(alloc, other)? {
        None => Ok(None),
        Some(other) => Ok(Some(reply_of_walks(one, &other))),
    }
}

fn beside_body(
    alloc: Global,
    one: &Body,
    other: &AfterSteps,
) -> Result<Option<&'static [u8]>, NoMemory> {
    match body_after(alloc, other)? {
        None => Ok(None),
        Some(other) => Ok(Some(reply_of_bodies(one, &other))),
    }
}

fn same_over_syntax(
    alloc: Global,
    one: &AfterSteps,
    other: &AfterSteps,
) -> Result<Option<&'static [u8]>, NoMemory> {
    match walk_after(alloc, one)? {
        None => Ok(None),
        Some(one) => beside_walk(alloc, &one, other),
    }
}

fn same_over_code(
    alloc: Global,
    one: &AfterSteps,
    other: &AfterSteps,
) -> Result<Option<&'static [u8]>, NoMemory> {
    match body_after(alloc, one)? {
        None => Ok(None),
        Some(one) => beside_body(alloc, &one, other),
    }
}

/// Whether two processes are told apart or the same; nothing where a source is refused.
pub fn same_of(
    alloc: Global,
    one: &AfterSteps,
    other: &AfterSteps,
    over: Over,
) -> Result<Option<List<u8>>, NoMemory> {
    let reply = match over {
        Over::Syntax => same_over_syntax(alloc, one, other)?,
        Over::Code => same_over_code(alloc, one, other)?,
    };
    match reply {
        None => Ok(None),
        Some(reply) => Ok(Some(List::from_slice(alloc, reply)?)),
    }
}

/// Whether the process over syntax of the first source and the process over compiled code of the second are told
/// apart or the same; nothing where a source is refused.
pub fn same_across(
    alloc: Global,
    one: &AfterSteps,
    other: &AfterSteps,
) -> Result<Option<List<u8>>, NoMemory> {
    let Some(walk) = walk_after(alloc, one)? else {
        return Ok(None);
    };
    match body_after(alloc, other)? {
        None => Ok(None),
        Some(body) => Ok(Some(List::from_slice(alloc, told_across(&walk, &body))?)),
    }
}

fn told_across(walk: &Walk, body: &Body) -> &'static [u8] {
    if walk.process().same(body.process()) {
        b"the same".as_slice()
    } else {
        b"told apart".as_slice()
    }
}

// ---- both kinds beside one another

// More levels than forks have: at most 64 forks lead to a process, and a fork below these traps.
const LEVELS: u32 = 66;

// To what both come.
fn gone(walk: Walk, body: Body) -> Result<Fate, Apart> {
    let mut walk = walk;
    let mut body = body;
    go(&mut walk, &mut body, LEVELS)
}

// Tells to what both came: `ended`, `died of LABEL`, with the number that was thrown, if any, or what differs.
fn tell_gone(gone: Result<Fate, Apart>, reply: &mut List<u8>) -> Result<(), NoMemory> {
    match gone {
        Err(Apart::NoMemory) => Err(NoMemory),
        Err(Apart::By(what)) => {
            word(reply, b"differ:")?;
            word(reply, what.as_bytes())
        }
        Ok(Fate::Dead(death)) => {
            count(reply, b"died of ", death.label as u64)?;
            match death.given {
                None => Ok(()),
                Some(number) => value(reply, b" with ", number),
            }
        }
        Ok(Fate::Ended) => word(reply, b"ended"),
        Ok(Fate::Live) => word(reply, b"live"),
    }
}

/// To what the `main` of a text comes on this input, as both kinds of process call by call, or what differs first;
/// nothing where the text is refused.
pub fn beside_of(alloc: Global, text: &[u8], input: &[u8]) -> Result<Option<List<u8>>, NoMemory> {
    let Some(program) = program_of(alloc, text)? else {
        return Ok(None);
    };
    let body = body_of(alloc, &program, input)?;
    let walk = walk_of(alloc, program, input)?;
    let mut reply = List::new(alloc);
    tell_gone(gone(walk, body), &mut reply)?;
    Ok(Some(reply))
}

// ---- compiled code

/// What the code of a text keeps beside its listing; nothing where the text is refused.
pub fn code_of(alloc: Global, text: &[u8]) -> Result<Option<List<u8>>, NoMemory> {
    match program_of(alloc, text)? {
        None => Ok(None),
        Some(program) => {
            let body = body_of(alloc, &program, b"")?;
            let mut reply = List::new(alloc);
            tell_code(body.code(), &mut reply)?;
            Ok(Some(reply))
        }
    }
}

/// The unit of a text's `main`, and the exceptions that each call and branch hands on; nothing where the text is
/// refused.
pub fn throws_of(alloc: Global, text: &[u8]) -> Result<Option<List<u8>>, NoMemory> {
    match units_of(alloc, text) {
        None => Ok(None),
        Some(accepted) => {
            let mut reply = List::new(alloc);
            count(&mut reply, b"main ", accepted.main() as u64)?;
            tell_throws(accepted.units(), &mut reply)?;
            Ok(Some(reply))
        }
    }
}

/// Where the process over the code of a text stands before its first step and after each quiet step and `put`, up to
/// another stop; nothing where the text is refused.
pub fn places_of(alloc: Global, text: &[u8]) -> Result<Option<List<u8>>, NoMemory> {
    match program_of(alloc, text)? {
        None => Ok(None),
        Some(program) => {
            let mut body = body_of(alloc, &program, b"")?;
            let mut reply = List::new(alloc);
            tell_places(&mut body, &mut reply)?;
            Ok(Some(reply))
        }
    }
}
