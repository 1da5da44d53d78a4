// Nets that are run beside each other, by any number of workers.
use crate::gates::{Hold, WatchingGate};
use crate::runs::add_number;
use shim_base::{List, NoMemory};
use shim_batch::batch;
use shim_local::Local;
use shim_net::{Gate, Net, NoOpGate, Standing};
use shim_tests_net::start;
use shim_tests_small::{Small, Step};
use std::alloc::Global;
use std::thread::Threads;

/// A net of a root with these steps to do.
#[derive(Drop)]
pub struct NetAsked {
    pub left: Vec<Step>,
    pub budget: u16,
}

fn nets_of(alloc: Global, asked: &[NetAsked]) -> Result<List<Net<Small>>, NoMemory> {
    let mut nets = List::new(alloc);
    for net in asked {
        nets.push(start(alloc, net.left.as_slice(), net.budget)?)?;
    }
    Ok(nets)
}

fn standing_word(standing: Standing) -> &'static [u8] {
    match standing {
        Standing::Running => b"running ",
        Standing::Quiescent => b"quiet ",
        Standing::Spent => b"spent ",
    }
}

// Tells of each net how it stands and after how many steps.
fn tell<L: Local>(alloc: Global, nets: &[Net<L>]) -> Result<List<u8>, NoMemory> {
    let mut reply = List::new(alloc);
    for net in nets {
        add_number(&mut reply, standing_word(net.standing()), net.steps())?;
        reply.push(b'\n')?;
    }
    Ok(reply)
}

// What is told of nets, at least one and at most 64, that so many workers ran in pieces of so many steps at first.
fn run<L: Local, G: Gate, R: Threads + Sync>(
    rt: &R,
    alloc: Global,
    nets: List<Net<L>>,
    workers: u32,
    quantum: u64,
    gate: &G,
) -> Result<List<u8>, NoMemory> {
    let count = nets.len();
    if count == 0 || count > 64 {
        return Err(NoMemory);
    }
    let done = batch(
        rt,
        alloc,
        nets,
        workers.clamp(1, 16),
        quantum.clamp(1, 10000),
        gate,
    )?;
    tell(alloc, done.as_slice())
}

// Tells how often a gate was entered, how often it held an entry, and how often it did so in vain.
fn tell_gate(reply: &mut List<u8>, gate: &WatchingGate) -> Result<(), NoMemory> {
    add_number(reply, b"entries ", gate.entries())?;
    add_number(reply, b", held ", gate.holds())?;
    add_number(reply, b", in vain ", gate.failures())?;
    reply.push(b'\n')
}

// What is told of nets that workers ran behind this gate, and what the gate saw.
fn run_after<L: Local, R: Threads + Sync>(
    rt: &R,
    alloc: Global,
    nets: List<Net<L>>,
    workers: u32,
    quantum: u64,
    gate: &WatchingGate,
) -> Result<List<u8>, NoMemory> {
    let mut reply = run(rt, alloc, nets, workers, quantum, gate)?;
    tell_gate(&mut reply, gate)?;
    Ok(reply)
}

/// A line for each of these nets, at least one and at most 64, which so many workers run in pieces of so many steps
/// at first: how it stands in the end, and after how many steps. Behind a gate a line tells what that saw.
///
/// # Errors
///
/// There is no memory, or a process wants some that isn't there, or there are no nets or too many.
pub fn batch_text<R: Threads + Sync>(
    rt: &R,
    alloc: Global,
    asked: &[NetAsked],
    workers: u32,
    quantum: u64,
    gate: Option<&WatchingGate>,
) -> Result<List<u8>, NoMemory> {
    let nets = nets_of(alloc, asked)?;
    match gate {
        Some(gate) => run_after(rt, alloc, nets, workers, quantum, gate),
        None => run(rt, alloc, nets, workers, quantum, &NoOpGate::new()),
    }
}
