// Taking in what has come back, by who has the turn of a run.
ghost use Rattle.std.specs.Prelude.{◌≡◌, ◌≤◌, ◌<◌, IfOk, IfSome};
ghost use Rattle.shim_board.specs.Chairs.{HasSlot, StandsAs, slots_of};
ghost use Rattle.shim_workers.specs.Workers.{HasTurn, SameName};

use crate::handing_out::{Handed, hand_out, redo};
use crate::lengths::longer_out;
use crate::load::{Load, NetBoard, NetChair};
use crate::shared_state::SharedState;
use shim_base::NoMemory;
use shim_local::{Finished, Local};
use shim_net::{Absorbed, Net};

// What came of a slot.
#[derive(Clone, Copy)]
enum SlotOutcome {
    /// Nothing has come back.
    Empty,
    /// A piece came back, and no other one went out in its place.
    Returned,
    /// A piece came back and was used up, and another one is out in its place.
    Reissued,
}

/// How many pieces came back, and in place of how many of these others went out.
#[derive(Clone, Copy)]
pub(crate) struct Collected {
    pub(crate) back: u64,
    pub(crate) out: u64,
}

// Does the work of open grants in this thread, until that of this slot and round is done, whose piece
// won't come back.
fn redo_lost<L: Local>(net: &mut Net<L>, slot: u64, round: u64) -> Result<(), NoMemory>
    ensures { SameName net.old net.new }
{
    while net.is_out(slot, round) && redo(net)? {}
    Ok(())
}

// Takes in a piece that has come back. One that ran out of memory is `NoMemory`. One that fits no open grant is
// dropped; if a grant of its slot and round is open, the work of open grants is done here until that one is closed.
fn absorb_or_redo<L: Local>(net: &mut Net<L>, finished: Finished<L>) -> Result<(), NoMemory>
    ensures { SameName net.old net.new }
{
    match net.absorb(finished) {
        Absorbed::Taken => Ok(()),
        Absorbed::Short => Err(NoMemory),
        Absorbed::Stranger(stranger) => redo_lost(net, stranger.slot, stranger.round),
    }
}

// Whether the process of this number is the one that is next at home.
fn is_next<L: Local>(net: &mut Net<L>, pid: u64) -> bool
    ensures { SameName net.old net.new }
{
    net.next_home() == Some(pid)
}

/// Takes in a piece that has come back. A process that used it up mostly stands before a quiet step again, and needs
/// no other event; so its next piece may go out at once. The answer is how many steps that is to have, and `None`
/// unless the process used the piece up and is next at home.
pub(crate) fn take_in<L: Local>(
    net: &mut Net<L>,
    finished: Finished<L>,
    shared_state: &SharedState,
) -> Result<Option<u64>, NoMemory>
    ensures net { SameName net.old net.new }
    ensures most { IfOk result (λ next. IfSome next (λ most. 1 ≤ most)) }
{
    let used = finished.used;
    let pid = finished.pid;
    let is_used_up = used == finished.grant;
    absorb_or_redo(net, finished)?;
    if !is_used_up {
        shared_state.note_early_stop();
        return Ok(None);
    }
    if !is_next(net, pid) {
        return Ok(None);
    }
    Ok(Some(longer_out(used)))
}

// Takes in what has come back in a slot, and gives out there what its process is to do next.
fn collect<L: Local>(
    board: &NetBoard<L>,
    chair: &mut NetChair<L>,
    net: &mut Net<L>,
    slot: u64,
    shared_state: &SharedState,
) -> Result<SlotOutcome, NoMemory>
    requires chair { HasTurn 1 board.now chair.old }
    requires slot { HasSlot board.now slot }
    ensures turn { HasTurn 1 board.now chair.new }
    ensures same { StandsAs chair.old chair.new }
    ensures net { SameName net.old net.new }
{
    match board.collect(chair, slot) {
        None => Ok(SlotOutcome::Empty),
        Some(Load::Out(parcel)) => {
            redo_lost(net, parcel.slot, parcel.round)?;
            Ok(SlotOutcome::Returned)
        }
        Some(Load::Back(finished)) => {
            let Some(most) = take_in(net, finished, shared_state)? else {
                return Ok(SlotOutcome::Returned);
            };
            match hand_out(board, chair, net, slot, most)? {
                Handed::Put => Ok(SlotOutcome::Reissued),
                Handed::NotPut | Handed::NoneLeft => Ok(SlotOutcome::Returned),
            }
        }
    }
}

/// Takes in all that has come back. Processes that used up their pieces go on at once.
pub(crate) fn collect_all<L: Local>(
    board: &NetBoard<L>,
    chair: &mut NetChair<L>,
    net: &mut Net<L>,
    slots: u64,
    shared_state: &SharedState,
) -> Result<Collected, NoMemory>
    requires chair { HasTurn 1 board.now chair.old }
    requires slots { slots_of board.now ≡ slots }
    ensures turn { HasTurn 1 board.now chair.new }
    ensures same { StandsAs chair.old chair.new }
    ensures net { SameName net.old net.new }
{
    let mut back = 0u64;
    let mut out = 0u64;
    for slot in 0..slots {
        match collect(board, chair, net, slot, shared_state)? {
            SlotOutcome::Empty => {}
            SlotOutcome::Returned => back = back.saturating_add(1),
            SlotOutcome::Reissued => {
                back = back.saturating_add(1);
                out = out.saturating_add(1);
            }
        }
    }
    Ok(Collected { back, out })
}
