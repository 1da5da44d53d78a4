// Handing out work over a board, by who has its turn.
ghost use Rattle.std.specs.Prelude.{◌≡◌, ◌≤◌, ◌<◌, true, length, IfOk};
ghost use Rattle.shim_board.specs.Chairs.{HasSlot, StandsAs, slots_of};
ghost use Rattle.shim_workers.specs.Workers.{HasTurn, SameName};

use crate::load::{Load, NetBoard, NetChair};
use shim_base::NoMemory;
use shim_local::Local;
use shim_net::Net;

/// A piece is put into slots of lower rounds alone, so that the slot's word stays in 64 bits.
const LAST_ROUND: u64 = (1 << 62) - 1;

/// What came of a slot into which work was to be put.
#[derive(Clone, Copy)]
pub(crate) enum Handed {
    /// A piece lies there.
    Put,
    /// No piece was put there, though a process may still be at home.
    NotPut,
    /// No process can be given out.
    NoneLeft,
}

/// Does the work of an open grant in this thread; false where none is open.
pub(crate) fn redo<L: Local>(net: &mut Net<L>) -> Result<bool, NoMemory>
    ensures name { SameName net.old net.new }
    ensures fewer { IfOk result (λ more. more ≡ true → length net.new.grants < length net.old.grants) }
{
    net.redo()
}

/// Gives out a piece of the process that is next at home, into a slot that is vacant. Where the net has an open grant
/// of this slot and round, no other may have these numbers; so this call does the work of the first open grant
/// instead, and puts nothing there.
pub(crate) fn hand_out<L: Local>(
    board: &NetBoard<L>,
    chair: &mut NetChair<L>,
    net: &mut Net<L>,
    slot: u64,
    most: u64,
) -> Result<Handed, NoMemory>
    requires chair { HasTurn 1 board.now chair.old }
    requires slot { HasSlot board.now slot }
    requires most { 1 ≤ most }
    ensures turn { HasTurn 1 board.now chair.new }
    ensures same { StandsAs chair.old chair.new }
    ensures net { SameName net.old net.new }
{
    let Some(round) = board.vacant(chair, slot) else {
        return Ok(Handed::NotPut);
    };
    if round >= LAST_ROUND {
        return Ok(Handed::NotPut);
    }
    if net.is_out(slot, round) {
        redo(net)?;
        return Ok(Handed::NotPut);
    }
    let Some(parcel) = net.grant(most, slot, round)? else {
        return Ok(Handed::NoneLeft);
    };
    board.put(chair, slot, Load::Out(parcel));
    Ok(Handed::Put)
}

/// Gives out pieces of processes that are at home, at most so many, while slots are vacant. Answers how many.
pub(crate) fn hand_out_some<L: Local>(
    board: &NetBoard<L>,
    chair: &mut NetChair<L>,
    net: &mut Net<L>,
    slots: u64,
    some: u64,
    most: u64,
) -> Result<u64, NoMemory>
    requires chair { HasTurn 1 board.now chair.old }
    requires slots { slots_of board.now ≡ slots }
    requires most { 1 ≤ most }
    ensures turn { HasTurn 1 board.now chair.new }
    ensures same { StandsAs chair.old chair.new }
    ensures net { SameName net.old net.new }
{
    let mut put = 0u64;
    for slot in 0..slots {
        if put >= some {
            return Ok(put);
        }
        match hand_out(board, chair, net, slot, most)? {
            Handed::Put => put = put.saturating_add(1),
            Handed::NotPut => {}
            Handed::NoneLeft => return Ok(put),
        }
    }
    Ok(put)
}
