// A net whose work lies in lanes while workers run it.
ghost use Rattle.std.specs.Prelude.{◌≡◌, ◌≤◌, IfOk};
ghost use Rattle.shim_board.specs.Chairs.{StandsAs};
ghost use Rattle.shim_workers.specs.Workers.{HasTurn, SameName};

use crate::in_threads::each_in_a_thread;
use crate::load::NetChair;
use crate::shared_state::SharedState;
use crate::start::{Start, starts};
use crate::stealing::run_stealer;
use shim_base::{List, NoMemory};
use shim_board::Board;
use shim_local::Local;
use shim_net::{Gate, Net};
use shim_steal::lanes;
use std::alloc::Global;
use std::sync::Wait;
use std::thread::Threads;

/// Lets so many workers run a net, each of which hands its work out into a lane of its own, from which the others
/// steal, until it has come to its end or one of them is out of memory. The net goes with the turn of a board whose
/// only slot stays empty.
pub(crate) fn run_over_lanes<L: Local, G: Gate, R: Threads + Wait + Sync>(
    rt: &R,
    alloc: Global,
    net: Net<L>,
    workers: u64,
    gate: &G,
    shared_state: &SharedState,
) -> Result<Net<L>, NoMemory>
    requires workers { (1 ≤ workers) × (workers ≤ 16) }
    ensures name { IfOk result (SameName net) }
{
    let lanes = lanes(alloc, workers)?;
    let (board, chairs) = Board::new(alloc, 1, workers, net)?;
    let starts = starts(alloc, chairs.into_vec(), lanes.into_vec())?;
    let shared = &board;
    let chairs = each_in_a_thread(
        rt,
        starts,
        &|start: Start<L>| -> NetChair<L>
            requires { HasTurn 0 shared.now start.0 }
            ensures { HasTurn 0 shared.entry.now result × StandsAs start.0 result }
        { run_stealer(rt, shared, start, gate, shared_state) },
    )?;
    let Ok(closed) = board.close(alloc, List::from(chairs)) else {
        return Err(NoMemory);
    };
    Ok(closed.net)
}
