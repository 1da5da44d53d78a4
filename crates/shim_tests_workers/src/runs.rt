// One net, run by any number of workers in rounds, over a board or out of lanes: what is told in the end, and what a
// gate sees.
ghost use Rattle.std.specs.Prelude.{◌⊎◌, IfOk};
ghost use Rattle.shim_net.specs.Standings.{IsQuiescentNet, IsSpentNet};

use crate::gates::{Hold, WatchingGate};
use shim_base::{List, NoMemory, push_decimal};
use shim_local::{Ended, Local, Outcome};
use shim_net::{Entry, Gate, Net, NoOpGate};
use shim_tests_net::start;
use shim_tests_small::Step;
use shim_workers::{drive, drive_steal, rounds};
use std::alloc::Global;
use std::sync::Wait;
use std::thread::Threads;

/// The call that runs a net.
#[derive(Clone, Copy)]
pub enum Runner {
    Rounds,
    Drive,
    DriveSteal,
}

/// A net of a root with these steps to do, and how it is run.
#[derive(Clone, Copy)]
pub struct NetRun<'a> {
    pub left: &'a [Step],
    pub budget: u16,
    pub runner: Runner,
    pub workers: u32,
    /// The most steps of a piece at first.
    pub quantum: u64,
    /// Before, a piece of at most so many steps is given out and lost; none for 0.
    pub lost: u64,
    /// Whether a gate counts the pieces.
    pub is_watched: bool,
}

pub(crate) fn add_number(reply: &mut List<u8>, before: &[u8], number: u64) -> Result<(), NoMemory> {
    reply.extend_from_slice(before)?;
    push_decimal(reply, number)
}

fn outcome_word(outcome: Outcome) -> &'static [u8] {
    match outcome {
        Outcome::Done => b"done",
        Outcome::Uncaught(_) => b"uncaught",
        Outcome::Trapped => b"trapped",
        Outcome::Blocked => b"blocked",
        Outcome::Spent => b"spent",
    }
}

// How many entries of quiet steps the journal has. Each is of a piece that was taken in, or of steps that the net did
// itself.
fn pieces<L: Local>(net: &Net<L>) -> u64 {
    let mut count = 0u64;
    for entry in net.journal() {
        if let Entry::Quiet { .. } = entry {
            count = count.saturating_add(1);
        }
    }
    count
}

// Runs a net by at least one worker and at most 16, in pieces of a step or more at first.
fn run<L: Local, G: Gate, R: Threads + Wait + Sync>(
    rt: &R,
    alloc: Global,
    net: Net<L>,
    asked: &NetRun<'_>,
    gate: &G,
) -> Result<Net<L>, NoMemory>
    ensures { IfOk result (λ n. IsQuiescentNet L.ops n ⊎ IsSpentNet L.ops n) }
{
    let workers = asked.workers.clamp(1, 16);
    let quantum = asked.quantum.clamp(1, 10000);
    match asked.runner {
        Runner::Rounds => rounds(rt, alloc, net, workers, quantum, gate),
        Runner::Drive => drive(rt, alloc, net, workers, quantum, gate),
        Runner::DriveSteal => drive_steal(rt, alloc, net, workers, quantum, gate),
    }
}

// Tells how a net ended, and how many pieces were taken in.
fn tell_net<L: Local>(reply: &mut List<u8>, net: &Net<L>) -> Result<(), NoMemory>
    requires { IsQuiescentNet L.ops net.now ⊎ IsSpentNet L.ops net.now }
{
    let ended = net.ended()?;
    reply.extend_from_slice(outcome_word(ended.outcome))?;
    add_number(reply, b" after ", ended.steps)?;
    add_number(reply, b": pieces ", pieces(net))
}

// Tells how often a gate was entered, how often not by the root, and how often by compiled code.
fn tell_gate(reply: &mut List<u8>, gate: &WatchingGate) -> Result<(), NoMemory> {
    let compiled = gate.entries().saturating_sub(gate.not_compiled());
    add_number(reply, b", entries ", gate.entries())?;
    add_number(reply, b", others ", gate.children())?;
    add_number(reply, b", compiled ", compiled)
}

// The net after a piece of at most so many steps was given out with slot 0 and round 0, and lost. Where a grant of
// these is open, nothing is given out.
fn with_work_out<L: Local>(net: Net<L>, most: u64) -> Result<Net<L>, NoMemory> {
    let mut net = net;
    if !net.is_out(0, 0) {
        net.grant(most.max(1), 0, 0)?;
    }
    Ok(net)
}

// The net before it is run.
fn ready<L: Local>(net: Net<L>, asked: &NetRun<'_>) -> Result<Net<L>, NoMemory> {
    if asked.lost == 0 {
        return Ok(net);
    }
    with_work_out(net, asked.lost)
}

// Tells the end of a net that is run behind a gate.
fn tell_end<L: Local, G: Gate, R: Threads + Wait + Sync>(
    rt: &R,
    alloc: Global,
    net: Net<L>,
    asked: &NetRun<'_>,
    gate: &G,
) -> Result<List<u8>, NoMemory> {
    let net = run(rt, alloc, net, asked, gate)?;
    let mut reply = List::new(alloc);
    tell_net(&mut reply, &net)?;
    Ok(reply)
}

// Tells the end of a net that is run, and what the gate saw, if one counts.
fn tell<L: Local, R: Threads + Wait + Sync>(
    rt: &R,
    alloc: Global,
    net: Net<L>,
    asked: &NetRun<'_>,
) -> Result<List<u8>, NoMemory> {
    if !asked.is_watched {
        return tell_end(rt, alloc, net, asked, &NoOpGate::new());
    }
    let gate = WatchingGate::new(Hold::Nobody, false);
    let mut reply = tell_end(rt, alloc, net, asked, &gate)?;
    tell_gate(&mut reply, &gate)?;
    Ok(reply)
}

/// What is told of a net that is run so: how it ended, and how many pieces were taken in; and where a gate counts
/// them, how often it was entered, how often not by the root, and how often by compiled code.
///
/// # Errors
///
/// There is no memory, or a process wants some that isn't there.
pub fn run_text<R: Threads + Wait + Sync>(
    rt: &R,
    alloc: Global,
    asked: &NetRun<'_>,
) -> Result<List<u8>, NoMemory> {
    let net = ready(start(alloc, asked.left, asked.budget)?, asked)?;
    let mut reply = tell(rt, alloc, net, asked)?;
    reply.push(b'\n')?;
    Ok(reply)
}
