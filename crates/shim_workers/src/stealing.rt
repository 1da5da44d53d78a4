// A worker whose work lies in lanes.
ghost use Rattle.std.specs.Prelude.{◌≡◌};
ghost use Rattle.shim_board.specs.Chairs.{StandsAs};
ghost use Rattle.shim_workers.specs.Workers.{HasTurn, SameName};

use crate::at_home::{AtHome, HAND_OUTS_IN_A_TURN};
use crate::load::{NetBoard, NetChair};
use crate::pieces::Pieces;
use crate::scheduling::{end_turn, settle_after};
use crate::shared_state::SharedState;
use crate::start::Start;
use shim_base::NoMemory;
use shim_local::Local;
use shim_net::{Gate, Net};
use std::sync::Wait;

// Takes in what this worker did, does all that is no process's work, and lets the processes at home go on, in place
// or out of its lane. False where there was nothing to do.
fn schedule_net<L: Local, G: Gate>(
    pieces: &mut Pieces<L>,
    net: &mut Net<L>,
    gate: &G,
    shared_state: &SharedState,
) -> Result<bool, NoMemory>
    ensures net { SameName net.old net.new }
{
    let taken = pieces.take_in_all(net, shared_state)?;
    settle_after(net, taken, shared_state)?;
    let mut home = AtHome::new();
    let mut found = taken.back > 0;
    for _ in 0..HAND_OUTS_IN_A_TURN {
        let Some(out) = home.run(net, gate, shared_state)? else {
            break;
        };
        let put = pieces.hand_out_some(net, out.pieces, out.steps)?;
        shared_state.wake(put.saturating_sub(out.own));
        found = found || put > 0;
    }
    Ok(found || home.has_run())
}

// Does a piece of the own lane or of another one. Where there is none, or 64 are done that no net has taken in, tries
// the turn. False where there was nothing to do.
fn work_once<L: Local, G: Gate, R: Wait>(
    rt: &R,
    board: &NetBoard<L>,
    chair: &mut NetChair<L>,
    pieces: &mut Pieces<L>,
    gate: &G,
    shared_state: &SharedState,
) -> bool
    requires chair { HasTurn 0 board.now chair.old }
    ensures turn { HasTurn 0 board.now chair.new }
    ensures same { StandsAs chair.old chair.new }
{
    if pieces.do_next(rt, gate) {
        return true;
    }
    match board.take_turn(chair) {
        None => false,
        Some(mut net) => {
            let found = schedule_net(pieces, &mut net, gate, shared_state);
            end_turn(board, chair, net, found, shared_state)
        }
    }
}

/// Works until the run has come to its end or is out of memory, and hands the chair back.
pub(crate) fn run_stealer<L: Local, G: Gate, R: Wait>(
    rt: &R,
    board: &NetBoard<L>,
    start: Start<L>,
    gate: &G,
    shared_state: &SharedState,
) -> NetChair<L>
    requires chair { HasTurn 0 board.now start.0 }
    ensures turn { HasTurn 0 board.now result }
    ensures same { StandsAs start.0 result }
{
    let (mut chair, mut pieces) = start;
    let mut tries = 0u64;
    for _ in rt.forever() {
        let epoch = shared_state.epoch();
        if !shared_state.is_running() {
            break;
        }
        let found = work_once(rt, board, &mut chair, &mut pieces, gate, shared_state);
        tries = shared_state.after_look(rt, epoch, tries, found);
        if pieces.has_done() {
            tries = SharedState::capped_tries(tries); // nobody else can take in what it did
        }
    }
    chair
}
