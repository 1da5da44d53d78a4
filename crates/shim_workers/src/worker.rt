// A worker over a board.
ghost use Rattle.std.specs.Prelude.{◌≡◌, ◌≤◌, ◌<◌};
ghost use Rattle.shim_board.specs.Chairs.{HasSlot, StandsAs, slots_of};
ghost use Rattle.shim_workers.specs.Workers.{HasTurn};

use crate::load::{Load, NetBoard, NetChair};
use crate::scheduling::schedule;
use crate::shared_state::SharedState;
use shim_local::{Local, work};
use shim_net::Gate;
use std::sync::Wait;

/// How many slots a board has for each worker: so many pieces can wait while it is at one.
pub(crate) const SLOTS_EACH: u64 = 4;

// Claims the piece of a slot, does it behind the gate, and gives it back. False where there is none.
fn do_piece<L: Local, G: Gate>(
    board: &NetBoard<L>,
    chair: &mut NetChair<L>,
    slot: u64,
    gate: &G,
) -> bool
    requires chair { HasTurn 0 board.now chair.old }
    requires slot { HasSlot board.now slot }
    ensures turn { HasTurn 0 board.now chair.new }
    ensures same { StandsAs chair.old chair.new }
{
    let Some(load) = board.claim(chair, slot) else {
        return false;
    };
    let done = match load {
        Load::Out(parcel) => {
            gate.enter(parcel.pid, L::COMPILED);
            Load::Back(work(parcel))
        }
        back => back,
    };
    board.give(chair, slot, done);
    true
}

// Does a piece of any slot, and tries from this one on. False where there is none.
fn do_any<L: Local, G: Gate>(
    board: &NetBoard<L>,
    chair: &mut NetChair<L>,
    slots: u64,
    first: u64,
    gate: &G,
) -> bool
    requires chair { HasTurn 0 board.now chair.old }
    requires slots { slots_of board.now ≡ slots }
    ensures turn { HasTurn 0 board.now chair.new }
    ensures same { StandsAs chair.old chair.new }
{
    for at in 0..slots {
        if do_piece(board, chair, first.wrapping_add(at) % slots, gate) {
            return true;
        }
    }
    false
}

// Does a piece; where there is none, tries the turn. False where there was nothing to do.
fn work_once<L: Local, G: Gate>(
    board: &NetBoard<L>,
    chair: &mut NetChair<L>,
    slots: u64,
    first: u64,
    gate: &G,
    shared_state: &SharedState,
) -> bool
    requires chair { HasTurn 0 board.now chair.old }
    requires slots { slots_of board.now ≡ slots }
    ensures turn { HasTurn 0 board.now chair.new }
    ensures same { StandsAs chair.old chair.new }
{
    if do_any(board, chair, slots, first, gate) {
        return true;
    }
    match board.take_turn(chair) {
        None => false,
        Some(net) => schedule(board, chair, net, slots, gate, shared_state),
    }
}

/// Works until the run has come to its end or is out of memory, and hands the chair back. Each worker begins
/// its search for a piece at slots of its own.
pub(crate) fn run_worker<L: Local, G: Gate, R: Wait>(
    rt: &R,
    board: &NetBoard<L>,
    mut chair: NetChair<L>,
    slots: u64,
    gate: &G,
    shared_state: &SharedState,
) -> NetChair<L>
    requires chair { HasTurn 0 board.now chair }
    requires slots { slots_of board.now ≡ slots }
    ensures turn { HasTurn 0 board.now result }
    ensures same { StandsAs chair result }
{
    let first = shared_state.next_index().wrapping_mul(SLOTS_EACH);
    let mut tries = 0u64;
    for _ in rt.forever() {
        let epoch = shared_state.epoch();
        if !shared_state.is_running() {
            break;
        }
        let found = work_once(board, &mut chair, slots, first, gate, shared_state);
        tries = shared_state.after_look(rt, epoch, tries, found);
    }
    chair
}
