// A net whose work lies on a board while workers run it.
ghost use Rattle.std.specs.Prelude.{◌≡◌, ◌≤◌, IfOk};
ghost use Rattle.shim_board.specs.Chairs.{StandsAs, slots_of};
ghost use Rattle.shim_workers.specs.Workers.{HasTurn, SameName};

use crate::in_threads::each_in_a_thread;
use crate::load::NetChair;
use crate::shared_state::SharedState;
use crate::worker::{SLOTS_EACH, run_worker};
use shim_base::{List, NoMemory};
use shim_board::Board;
use shim_local::Local;
use shim_net::{Gate, Net};
use std::alloc::Global;
use std::sync::Wait;
use std::thread::Threads;

/// Lets so many workers run a net, which hand its work out over the slots of a board, until it has come to its end
/// or one of them is out of memory.
pub(crate) fn run_over_board<L: Local, G: Gate, R: Threads + Wait + Sync>(
    rt: &R,
    alloc: Global,
    net: Net<L>,
    workers: u64,
    gate: &G,
    shared_state: &SharedState,
) -> Result<Net<L>, NoMemory>
    requires workers { (1 ≤ workers) × (workers ≤ 16) }
    ensures name { IfOk result (SameName net) }
{
    let slots = workers * SLOTS_EACH;
    let (board, chairs) = Board::new(alloc, slots, workers, net)?;
    let shared = &board;
    let chairs = each_in_a_thread(
        rt,
        chairs.into_vec(),
        &|chair: NetChair<L>| -> NetChair<L>
            requires { HasTurn 0 shared.now chair × (slots_of shared.now ≡ slots) }
            ensures { HasTurn 0 shared.entry.now result × StandsAs chair result }
        { run_worker(rt, shared, chair, slots, gate, shared_state) },
    )?;
    let Ok(closed) = board.close(alloc, List::from(chairs)) else {
        return Err(NoMemory);
    };
    Ok(closed.net)
}
