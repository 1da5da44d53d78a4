// Rounds of workers: the work of all processes is given out, done side by side, and taken back.
ghost use Rattle.std.specs.Prelude.{◌≡◌, ◌≤◌, ◌<◌, ◌*◌, ◌⊎◌, min, [], true, false, IsTrue, IsFalse, IfOk, OnOk};
ghost use Rattle.shim_semantics.specs.Trees.{steps};
ghost use Rattle.shim_net.specs.Nets.{IsNet};
ghost use Rattle.shim_net.specs.Standings.{IsQuiescentNet, IsSpentNet};
ghost use Rattle.shim_net.specs.Progress.{GoesOn, HasSettled, CanGive};

use crate::giving::give_all;
use crate::in_place::step_next;
use crate::lengths::longer;
use crate::taking::take_in_all;
use shim_base::NoMemory;
use shim_local::Local;
use shim_net::{Gate, Net, Standing};
use std::alloc::Global;
use std::thread::Threads;

// Whether the net has not come to its end.
fn is_running<L: Local>(net: &Net<L>) -> bool
    ensures running { IsTrue result → (IsQuiescentNet L.ops net.now → ⊥) × (IsSpentNet L.ops net.now → ⊥) }
    ensures ended { IsFalse result → IsQuiescentNet L.ops net.now ⊎ IsSpentNet L.ops net.now }
    ensures keeps { IsNet L.ops net.now }
{
    match net.standing() {
        Standing::Running => true,
        Standing::Quiescent => false,
        Standing::Spent => false,
    }
}

// Does all that is no process's work, and answers how many events that were.
fn settle_all<L: Local>(net: &mut Net<L>) -> Result<u64, NoMemory>
    requires home { net.old.grants ≡ [] }
    ensures goes_on { OnOk result (GoesOn L.ops net.old net.new) }
    ensures home { OnOk result (net.new.grants ≡ []) }
    ensures settled { OnOk result (HasSettled L.ops net.new) }
{
    net.settle()
}

// Gives out a piece of each process that has quiet steps to do, has them done on at most as many threads
// as there are workers, and takes them back.
fn run_round<L: Local, G: Gate, R: Threads + Sync>(
    rt: &R,
    alloc: Global,
    net: &mut Net<L>,
    workers: u32,
    most: u64,
    round: u64,
    gate: &G,
) -> Result<(), NoMemory>
    requires workers { (1 ≤ workers) × (workers ≤ 16) }
    requires most { 1 ≤ most }
    requires home { net.old.grants ≡ [] }
    requires can { CanGive L.ops net.old }
    ensures goes_on { OnOk result (GoesOn L.ops net.old net.new) }
    ensures home { OnOk result (net.new.grants ≡ []) }
    ensures more { OnOk result (steps net.old.tree < steps net.new.tree) }
{
    let assignments = give_all(alloc, net, workers, most, round)?;
    for one in assignments.do_all(rt, gate)? {
        take_in_all(net, one)?;
    }
    net.redo_all()?;
    Ok(())
}

// The most steps of the next round's pieces, where this round's had so many, and so many events were done after them.
// After an event they have as many as at first, since short pieces let processes meet soon. Where none was done short
// pieces gain nothing, and they get up to twice as long: to give one out and take it in costs the same, however long
// it is.
fn next_most(first: u64, most: u64, events: u64) -> u64
    requires first { (1 ≤ first) × (first ≤ 10000) }
    requires most { (1 ≤ most) × (most ≤ 10000) }
    ensures within { (1 ≤ result) × (result ≤ 10000) }
    ensures again { 0 < events → result ≡ first }
    ensures grown { events ≡ 0 → result ≡ min (most * 2) 10000 }
{
    if events > 0 { first } else { longer(most) }
}

// The most steps of the next piece of one worker, where the last one's process goes on with it or another one begins:
// a process's first piece has as many as at first.
fn next_piece(first: u64, most: u64, goes_on: bool, events: u64) -> u64
    requires first { (1 ≤ first) × (first ≤ 10000) }
    requires most { (1 ≤ most) × (most ≤ 10000) }
    ensures within { (1 ≤ result) × (result ≤ 10000) }
    ensures begins { goes_on ≡ false → result ≡ first }
{
    if goes_on {
        next_most(first, most, events)
    } else {
        first
    }
}

// The number of the process whose piece is next, if there is one.
fn next_pid<L: Local>(net: &mut Net<L>) -> Option<u64>
    ensures { net.new ≡ net.old }
{
    net.next_home()
}

// Runs a net by one worker, which gives nothing out: while a process is at home and steps are left, the one that is
// next does its piece where it stands, and the net is settled after it.
fn run_alone<L: Local, G: Gate>(net: &mut Net<L>, quantum: u64, gate: &G) -> Result<(), NoMemory>
    requires quantum { (1 ≤ quantum) × (quantum ≤ 10000) }
    requires home { net.old.grants ≡ [] }
    requires settled { HasSettled L.ops net.old }
    ensures goes_on { OnOk result (GoesOn L.ops net.old net.new) }
    ensures quiescent_or_spent { OnOk result (IsQuiescentNet L.ops net.new ⊎ IsSpentNet L.ops net.new) }
    ensures keeps { OnOk result (IsNet L.ops net.new) }
{
    let mut most = quantum;
    let mut pid = next_pid(net);
    while step_next(net, most, gate)?.is_some() {
        let events = settle_all(net)?;
        let next = next_pid(net);
        most = next_piece(quantum, most, next == pid, events);
        pid = next;
    }
    let _standing = net.standing(); // its clauses say that it has come to its end
    Ok(())
}

// Runs a net by several workers, in rounds, until no event is enabled in it or its budget is spent.
fn run_together<L: Local, G: Gate, R: Threads + Sync>(
    rt: &R,
    alloc: Global,
    net: &mut Net<L>,
    workers: u32,
    quantum: u64,
    gate: &G,
) -> Result<(), NoMemory>
    requires workers { (1 ≤ workers) × (workers ≤ 16) }
    requires quantum { (1 ≤ quantum) × (quantum ≤ 10000) }
    requires home { net.old.grants ≡ [] }
    requires settled { HasSettled L.ops net.old }
    ensures goes_on { OnOk result (GoesOn L.ops net.old net.new) }
    ensures quiescent_or_spent { OnOk result (IsQuiescentNet L.ops net.new ⊎ IsSpentNet L.ops net.new) }
    ensures keeps { OnOk result (IsNet L.ops net.new) }
{
    let mut most = quantum;
    let mut round = 0u64;
    while is_running(net) {
        run_round(rt, alloc, net, workers, most, round, gate)?;
        let events = settle_all(net)?;
        most = next_most(quantum, most, events);
        round = round.saturating_add(1);
    }
    Ok(())
}

// Runs a net to its end, as `rounds` does.
fn run_to_end<L: Local, G: Gate, R: Threads + Sync>(
    rt: &R,
    alloc: Global,
    net: &mut Net<L>,
    workers: u32,
    quantum: u64,
    gate: &G,
) -> Result<(), NoMemory>
    requires workers { (1 ≤ workers) × (workers ≤ 16) }
    requires quantum { (1 ≤ quantum) × (quantum ≤ 10000) }
    ensures goes_on { OnOk result (GoesOn L.ops net.old net.new) }
    ensures quiescent_or_spent { OnOk result (IsQuiescentNet L.ops net.new ⊎ IsSpentNet L.ops net.new) }
    ensures keeps { OnOk result (IsNet L.ops net.new) }
{
    net.redo_all()?;
    settle_all(net)?;
    if workers == 1 {
        run_alone(net, quantum, gate)?;
        return Ok(());
    }
    run_together(rt, alloc, net, workers, quantum, gate)?;
    Ok(())
}

/// Runs a net in rounds until no event is enabled in it or its budget is spent. In each round a piece of
/// work is given out of each process that has quiet steps to do, of at most `quantum` steps at first; at
/// most as many threads as there are workers do the pieces, each behind the gate, and they are taken in
/// one after another. Pieces grow while nothing but quiet steps happens. One worker gives nothing out: one
/// process after another does its piece in place.
pub fn rounds<L: Local, G: Gate, R: Threads + Sync>(
    rt: &R,
    alloc: Global,
    net: Net<L>,
    workers: u32,
    quantum: u64,
    gate: &G,
) -> Result<Net<L>, NoMemory>
    requires workers { (1 ≤ workers) × (workers ≤ 16) }
    requires quantum { (1 ≤ quantum) × (quantum ≤ 10000) }
    ensures root { IfOk result (λ n. n.root ≡ net.root) }
    ensures budget { IfOk result (λ n. n.budget ≡ net.budget) }
    ensures quiescent_or_spent { IfOk result (λ n. IsQuiescentNet L.ops n ⊎ IsSpentNet L.ops n) }
    ensures keeps { IfOk result (λ n. IsNet L.ops n) }
{
    let mut net = net;
    run_to_end(rt, alloc, &mut net, workers, quantum, gate)?;
    Ok(net)
}
