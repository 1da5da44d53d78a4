// A net run by workers that go on without rounds.
ghost use Rattle.std.specs.Prelude.{◌≡◌, ◌≤◌, ◌⊎◌, IfOk};
ghost use Rattle.shim_net.specs.Nets.{IsNet};
ghost use Rattle.shim_net.specs.Standings.{IsQuiescentNet, IsSpentNet};
ghost use Rattle.shim_workers.specs.Workers.{SameName};

use crate::in_rounds::rounds;
use crate::lengths::{LONGEST_OUT, Lengths};
use crate::over_board::run_over_board;
use crate::over_lanes::run_over_lanes;
use crate::shared_state::SharedState;
use shim_base::NoMemory;
use shim_local::Local;
use shim_net::{Gate, Net};
use std::alloc::Global;
use std::sync::Wait;
use std::thread::Threads;

// Where work lies that no worker is at.
#[derive(Clone, Copy)]
enum Between {
    /// In the slots of a board, which all workers share.
    Board,
    /// In lanes, of which each worker has one.
    Lanes,
}

// Lets workers run a net until it has come to its end or one of them is out of memory.
fn run_over<L: Local, G: Gate, R: Threads + Wait + Sync>(
    rt: &R,
    alloc: Global,
    net: Net<L>,
    workers: u64,
    gate: &G,
    shared_state: &SharedState,
    between: Between,
) -> Result<Net<L>, NoMemory>
    requires workers { (1 ≤ workers) × (workers ≤ 16) }
    ensures name { IfOk result (SameName net) }
{
    match between {
        Between::Board => run_over_board(rt, alloc, net, workers, gate, shared_state),
        Between::Lanes => run_over_lanes(rt, alloc, net, workers, gate, shared_state),
    }
}

// Runs a net by workers until no event is enabled in it or its budget is spent.
fn run_by_workers<L: Local, G: Gate, R: Threads + Wait + Sync>(
    rt: &R,
    alloc: Global,
    net: Net<L>,
    workers: u32,
    quantum: u64,
    gate: &G,
    between: Between,
) -> Result<Net<L>, NoMemory>
    requires workers { (1 ≤ workers) × (workers ≤ 16) }
    requires quantum { (1 ≤ quantum) × (quantum ≤ 10000) }
    ensures root { IfOk result (λ n. n.root ≡ net.root) }
    ensures budget { IfOk result (λ n. n.budget ≡ net.budget) }
    ensures quiescent_or_spent { IfOk result (λ n. IsQuiescentNet L.ops n ⊎ IsSpentNet L.ops n) }
    ensures keeps { IfOk result (λ n. IsNet L.ops n) }
{
    let mut net = net;
    net.redo_all()?; // what was given out before won't come back from these workers
    let cost = net.hand_over_cost();
    if workers == 1 || cost > LONGEST_OUT {
        return rounds(rt, alloc, net, 1, quantum, gate);
    }
    let shared_state = SharedState::new(Lengths::new(quantum, cost));
    let over = run_over(rt, alloc, net, workers as u64, gate, &shared_state, between)?;
    if shared_state.wanted_memory() {
        return Err(NoMemory);
    }
    rounds(rt, alloc, over, workers, quantum, gate)
}

/// Runs a net until no event is enabled in it or its budget is spent, as `rounds` does, but without rounds: each
/// worker claims a piece where there is one, does it behind the gate and gives it back; where it finds none, it takes
/// in what has come back and gives out what can be, if no other worker is at that. The first piece of a process has
/// at most `quantum` steps, and one that follows a piece which was used up may be longer. Once pieces stop early,
/// processes are tried where they stand, and only what runs long is given out. One worker needs no board, and does
/// the pieces where the processes stand; and so it is where handing a process over costs more than the longest piece.
/// Where a worker is out of memory all of them end, and so does the run. Workers try again where there is nothing to
/// do, so this returns only if all workers come to an end.
pub fn drive<L: Local, G: Gate, R: Threads + Wait + Sync>(
    rt: &R,
    alloc: Global,
    net: Net<L>,
    workers: u32,
    quantum: u64,
    gate: &G,
) -> Result<Net<L>, NoMemory>
    requires workers { (1 ≤ workers) × (workers ≤ 16) }
    requires quantum { (1 ≤ quantum) × (quantum ≤ 10000) }
    ensures root { IfOk result (λ n. n.root ≡ net.root) }
    ensures budget { IfOk result (λ n. n.budget ≡ net.budget) }
    ensures quiescent_or_spent { IfOk result (λ n. IsQuiescentNet L.ops n ⊎ IsSpentNet L.ops n) }
    ensures keeps { IfOk result (λ n. IsNet L.ops n) }
{
    run_by_workers(rt, alloc, net, workers, quantum, gate, Between::Board)
}

/// Runs a net as `drive` does, but the pieces lie in lanes: each worker pushes those that it gives out into its own
/// lane, takes the next one from there, and where that is empty from the lanes of the others. It keeps what it did
/// until it gets the turn, which it tries where it finds no piece or has done 64; then it takes that in.
pub fn drive_steal<L: Local, G: Gate, R: Threads + Wait + Sync>(
    rt: &R,
    alloc: Global,
    net: Net<L>,
    workers: u32,
    quantum: u64,
    gate: &G,
) -> Result<Net<L>, NoMemory>
    requires workers { (1 ≤ workers) × (workers ≤ 16) }
    requires quantum { (1 ≤ quantum) × (quantum ≤ 10000) }
    ensures root { IfOk result (λ n. n.root ≡ net.root) }
    ensures budget { IfOk result (λ n. n.budget ≡ net.budget) }
    ensures quiescent_or_spent { IfOk result (λ n. IsQuiescentNet L.ops n ⊎ IsSpentNet L.ops n) }
    ensures keeps { IfOk result (λ n. IsNet L.ops n) }
{
    run_by_workers(rt, alloc, net, workers, quantum, gate, Between::Lanes)
}
