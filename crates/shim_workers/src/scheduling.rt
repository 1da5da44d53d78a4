// What is done with the turn of a board: work is taken back, and done or given out.
ghost use Rattle.std.specs.Prelude.{◌≡◌};
ghost use Rattle.shim_board.specs.Chairs.{StandsAs, slots_of};
ghost use Rattle.shim_workers.specs.Workers.{HasTurn, IsNetOf, SameName};

use crate::at_home::{AtHome, HAND_OUTS_IN_A_TURN};
use crate::collecting::{Collected, collect_all};
use crate::handing_out::hand_out_some;
use crate::load::{NetBoard, NetChair};
use crate::shared_state::SharedState;
use shim_base::NoMemory;
use shim_local::Local;
use shim_net::{Gate, Net, Standing};

/// Settles the net after pieces were taken in, and wakes a worker for each piece that went out in their place. If no
/// process is at home, or nothing is left of the budget, it wakes one worker less: this worker then does one of the
/// pieces itself.
pub(crate) fn settle_after<L: Local>(
    net: &mut Net<L>,
    collected: Collected,
    shared_state: &SharedState,
) -> Result<(), NoMemory>
    ensures net { SameName net.old net.new }
{
    net.settle()?;
    let mine = u64::from(net.next_home().is_none());
    shared_state.wake(collected.out.saturating_sub(mine));
    Ok(())
}

/// Leaves the turn. The answer is whether its work found something to do; it is false, too, where memory ran out. If
/// the run has come to its end, or memory has run out, all workers are woken.
pub(crate) fn end_turn<L: Local>(
    board: &NetBoard<L>,
    chair: &mut NetChair<L>,
    net: Net<L>,
    found: Result<bool, NoMemory>,
    shared_state: &SharedState,
) -> bool
    requires chair { HasTurn 1 board.now chair.old }
    requires net { IsNetOf board.now net }
    ensures turn { HasTurn 0 board.now chair.new }
    ensures same { StandsAs chair.old chair.new }
{
    let is_over = net.standing() != Standing::Running;
    board.leave_turn(chair, net);
    match found {
        Ok(found) => {
            if is_over {
                shared_state.end();
            }
            found
        }
        Err(NoMemory) => {
            shared_state.want_memory();
            false
        }
    }
}

// Takes back what was done, does all that is no process's work, and lets the processes at home go on. False where
// there was nothing to do.
fn schedule_net<L: Local, G: Gate>(
    board: &NetBoard<L>,
    chair: &mut NetChair<L>,
    net: &mut Net<L>,
    slots: u64,
    gate: &G,
    shared_state: &SharedState,
) -> Result<bool, NoMemory>
    requires chair { HasTurn 1 board.now chair.old }
    requires slots { slots_of board.now ≡ slots }
    ensures turn { HasTurn 1 board.now chair.new }
    ensures same { StandsAs chair.old chair.new }
    ensures net { SameName net.old net.new }
{
    let collected = collect_all(board, chair, net, slots, shared_state)?;
    settle_after(net, collected, shared_state)?;
    let mut home = AtHome::new();
    let mut found = collected.back > 0;
    for _ in 0..HAND_OUTS_IN_A_TURN {
        let Some(out) = home.run(net, gate, shared_state)? else {
            break;
        };
        let put = hand_out_some(board, chair, net, slots, out.pieces, out.steps)?;
        shared_state.wake(put.saturating_sub(out.own));
        found = found || put > 0;
    }
    Ok(found || home.has_run())
}

/// Takes in what has come back, lets processes go on, and leaves the turn. False where there was nothing to do, or
/// where memory ran out. If the run has come to its end, or memory has run out, all workers are woken.
pub(crate) fn schedule<L: Local, G: Gate>(
    board: &NetBoard<L>,
    chair: &mut NetChair<L>,
    mut net: Net<L>,
    slots: u64,
    gate: &G,
    shared_state: &SharedState,
) -> bool
    requires chair { HasTurn 1 board.now chair.old }
    requires slots { slots_of board.now ≡ slots }
    requires net { IsNetOf board.now net }
    ensures turn { HasTurn 0 board.now chair.new }
    ensures same { StandsAs chair.old chair.new }
{
    let found = schedule_net(board, chair, &mut net, slots, gate, shared_state);
    end_turn(board, chair, net, found, shared_state)
}
