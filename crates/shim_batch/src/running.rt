// Nets that are run beside each other.
ghost use Rattle.std.specs.Prelude.{◌≡◌, ◌≤◌, length, IfOk};
ghost use Rattle.std.specs.List.{AllZip};
ghost use Rattle.shim_batch.specs.Runs.{RunsToEnd};

use crate::parts::{cut, join};
use shim_base::{List, NoMemory};
use shim_local::Local;
use shim_net::{Gate, Net};
use shim_workers::rounds;
use std::alloc::Global;
use std::thread;
use std::thread::Threads;

// Runs a net by one worker.
fn run_net<L: Local, G: Gate, R: Threads + Sync>(
    rt: &R,
    alloc: Global,
    net: Net<L>,
    quantum: u64,
    gate: &G,
) -> Result<Net<L>, NoMemory>
    requires quantum { (1 ≤ quantum) × (quantum ≤ 10000) }
    ensures { IfOk result (λ done. RunsToEnd L.ops net done) }
{
    rounds(rt, alloc, net, 1, quantum, gate)
}

// Runs nets one after the other.
fn run_part<L: Local, G: Gate, R: Threads + Sync>(
    rt: &R,
    alloc: Global,
    nets: List<Net<L>>,
    quantum: u64,
    gate: &G,
) -> Result<List<Net<L>>, NoMemory>
    requires quantum { (1 ≤ quantum) × (quantum ≤ 10000) }
    ensures { IfOk result (λ done. AllZip (RunsToEnd L.ops) nets done) }
{
    let mut done = List::with_capacity(alloc, nets.len())?;
    for net in nets.into_vec() {
        done.push(run_net(rt, alloc, net, quantum, gate)?)?;
    }
    Ok(done)
}

/// Runs each of 1 to 64 nets as `rounds` does by one worker: until no event is enabled in it or its budget is
/// spent. At most as many of them run at a time as there are workers, and they come out in the order in which
/// they went in. Where one is out of memory, so is the whole.
pub fn batch<L: Local, G: Gate, R: Threads + Sync>(
    rt: &R,
    alloc: Global,
    nets: List<Net<L>>,
    workers: u32,
    quantum: u64,
    gate: &G,
) -> Result<List<Net<L>>, NoMemory>
    requires nets { (1 ≤ length nets) × (length nets ≤ 64) }
    requires workers { (1 ≤ workers) × (workers ≤ 16) }
    requires quantum { (1 ≤ quantum) × (quantum ≤ 10000) }
    ensures many { IfOk result (λ done. length done ≡ length nets) }
    ensures runs { IfOk result (λ done. AllZip (RunsToEnd L.ops) nets done) }
{
    let size = nets.len().div_ceil(workers as usize);
    let parts = cut(alloc, nets, size)?;
    let done = thread::map_vec(
        rt,
        parts,
        &|part: List<Net<L>>| -> Result<List<Net<L>>, NoMemory>
            requires { (1 ≤ quantum) × (quantum ≤ 10000) }
            ensures { IfOk result (λ done. AllZip (RunsToEnd L.ops) part done) }
        { run_part(rt, alloc, part, quantum, gate) },
    )?;
    join(alloc, done)
}
