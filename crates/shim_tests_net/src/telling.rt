// What is told of a net: a line for each thing.
use shim_base::{Chan, List, NoMemory, Path, push_decimal};
use shim_local::{Ended, Local, Outcome};
use shim_net::{Entry, Net, Standing};
use shim_run_log::Event;
use std::alloc::Global;
use std::sync::Arc;

pub fn add_number(reply: &mut List<u8>, before: &[u8], number: u64) -> Result<(), NoMemory> {
    reply.extend_from_slice(before)?;
    push_decimal(reply, number)
}

pub fn add_path(reply: &mut List<u8>, before: &[u8], path: &Path) -> Result<(), NoMemory> {
    reply.extend_from_slice(before)?;
    reply.extend_from_slice(b" root")?;
    for pair in path.pairs() {
        add_number(reply, b"/", pair.0 as u64)?;
        add_number(reply, b".", pair.1 as u64)?;
    }
    Ok(())
}

fn add_event(reply: &mut List<u8>, event: &Event) -> Result<(), NoMemory> {
    match event {
        Event::Own(path) => add_path(reply, b" own", path),
        Event::Meet(chan) => add_number(reply, b" meet ", chan.serial() as u64),
        Event::Poison(path, _) => add_path(reply, b" poison", path),
        Event::Close(path) => add_path(reply, b" close", path),
        Event::End(path) => add_path(reply, b" end", path),
    }
}

fn add_entry(reply: &mut List<u8>, entry: &Entry) -> Result<(), NoMemory> {
    match entry {
        Entry::Quiet { path, steps } => {
            add_path(reply, b" quiet", path)?;
            add_number(reply, b" ", *steps)?;
        }
        Entry::Did(event) => add_event(reply, event)?,
    }
    reply.push(b',')
}

fn add_values(reply: &mut List<u8>, values: &[i64]) -> Result<(), NoMemory> {
    for value in values {
        add_number(reply, b" ", value.unsigned_abs())?;
    }
    Ok(())
}

fn outcome_word(outcome: Outcome) -> &'static [u8] {
    match outcome {
        Outcome::Done => b"done",
        Outcome::Uncaught(_) => b"uncaught",
        Outcome::Trapped => b"trapped",
        Outcome::Blocked => b"blocked",
        Outcome::Spent => b"spent",
    }
}

fn add_ended(reply: &mut List<u8>, ended: &Ended) -> Result<(), NoMemory> {
    reply.extend_from_slice(outcome_word(ended.outcome))?;
    add_number(reply, b" after ", ended.steps)
}

// Tells how the net stands, and what is read off it where that isn't `Running`.
fn add_standing<L: Local>(reply: &mut List<u8>, net: &Net<L>) -> Result<(), NoMemory> {
    match net.standing() {
        Standing::Running => reply.extend_from_slice(b"running")?,
        Standing::Quiescent => add_ended(reply, &net.ended()?)?,
        Standing::Spent => add_ended(reply, &net.ended()?)?,
    }
    reply.push(b'\n')
}

fn add_journal(reply: &mut List<u8>, steps: u64, journal: &[Entry]) -> Result<(), NoMemory> {
    add_number(reply, b"steps ", steps)?;
    reply.push(b':')?;
    for entry in journal {
        add_entry(reply, entry)?;
    }
    Ok(())
}

// Tells what was met, if something was.
fn add_met(reply: &mut List<u8>, met: Option<&[i64]>) -> Result<(), NoMemory> {
    match met {
        Some(values) => {
            reply.extend_from_slice(b" met")?;
            add_values(reply, values)?;
        }
        None => reply.extend_from_slice(b" none met")?,
    }
    reply.push(b'\n')
}

// The channel that the root shares.
fn shared(alloc: Global) -> Result<Chan, NoMemory> {
    Ok(Chan::new(Arc::new(alloc, Path::root(alloc))?, 2, 0))
}

/// Tells what can be seen of a net at any time: its standing, steps and journal, and what was met.
pub fn add_net<L: Local>(reply: &mut List<u8>, net: &Net<L>) -> Result<(), NoMemory> {
    add_standing(reply, net)?;
    add_journal(reply, net.steps(), net.journal())?;
    let chan = shared(reply.allocator())?;
    add_met(reply, net.history(&chan))
}
