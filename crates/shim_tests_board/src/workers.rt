// Workers on threads over one board.
ghost use Rattle.std.specs.Prelude.{◌≡◌, ◌<◌, ◌≤◌, ◌-◌, ◌^◌, None};
ghost use Rattle.shim_board.specs.Chairs.{HasSlot, StandsAs, slots_of, view_of};
ghost use Rattle.shim_tests_board.specs.Turns.{HasTurn};

use crate::tally::{Tally, WORKED};
use shim_base::{List, NoMemory};
use shim_board::{Board, Chair};
use std::alloc::Global;
use std::thread;
use std::thread::Threads;

/// How many slots the board has.
const SLOTS: u64 = 16;

/// How often a worker goes over the slots at most.
const ROUNDS: u64 = 10_000_000;

// Claims the piece of a slot and gives it back worked, if there is one, and tells whether there was.
fn work(board: &Board<u64, Tally>, chair: &mut Chair<u64, Tally>, slot: u64) -> bool
    requires chair { HasTurn (view_of chair.old).turn board.now chair.old }
    requires slot { HasSlot board.now slot }
    ensures turn { HasTurn (view_of chair.old).turn board.now chair.new }
    ensures same { StandsAs chair.old chair.new }
{
    let Some(piece) = board.claim(chair, slot) else {
        return false;
    };
    board.give(chair, slot, piece.wrapping_add(WORKED));
    true
}

// Collects what came back in a slot, and puts the next piece into it, if one is left and the slot is EMPTY.
fn tend(board: &Board<u64, Tally>, chair: &mut Chair<u64, Tally>, slot: u64, tally: &mut Tally)
    requires chair { HasTurn 1 board.now chair.old }
    requires slot { HasSlot board.now slot }
    ensures turn { HasTurn 1 board.now chair.new }
    ensures same { StandsAs chair.old chair.new }
{
    if let Some(piece) = board.collect(chair, slot) {
        tally.note(piece);
    }
    if tally.put < tally.pieces {
        if let Some(round) = board.vacant(chair, slot) {
            if round < (1 << 62) - 1 {
                board.put(chair, slot, tally.put);
                tally.put += 1;
            }
        }
    }
}

// Tends all slots, leaves the turn, and tells whether all pieces are back.
fn tend_all(board: &Board<u64, Tally>, chair: &mut Chair<u64, Tally>, mut tally: Tally) -> bool
    requires chair { HasTurn 1 board.now chair.old }
    requires slots { slots_of board.now ≡ 16 }
    ensures turn { HasTurn 0 board.now chair.new }
    ensures same { StandsAs chair.old chair.new }
{
    for slot in 0..SLOTS {
        tend(board, chair, slot, &mut tally);
    }
    let is_done = tally.collected >= tally.pieces;
    board.leave_turn(chair, tally);
    is_done
}

// Works at all slots, and tells whether there was a piece.
fn work_all(board: &Board<u64, Tally>, chair: &mut Chair<u64, Tally>) -> bool
    requires chair { HasTurn 0 board.now chair.old }
    requires slots { slots_of board.now ≡ 16 }
    ensures turn { HasTurn 0 board.now chair.new }
    ensures same { StandsAs chair.old chair.new }
{
    let mut has_worked = false;
    for slot in 0..SLOTS {
        if work(board, chair, slot) {
            has_worked = true;
        }
    }
    has_worked
}

// Works, and tends the slots where the turn is free, until it finds all pieces back or went over the slots `ROUNDS`
// times.
fn worker(board: &Board<u64, Tally>, mut chair: Chair<u64, Tally>) -> Chair<u64, Tally>
    requires chair { HasTurn 0 board.now chair }
    requires slots { slots_of board.now ≡ 16 }
    ensures turn { HasTurn 0 board.now result }
    ensures same { StandsAs chair result }
{
    for _ in 0..ROUNDS {
        let has_worked = work_all(board, &mut chair);
        if let Some(tally) = board.take_turn(&mut chair) {
            if tend_all(board, &mut chair, tally) {
                break;
            }
        } else if !has_worked {
            thread::yield_now();
        }
    }
    chair
}

/// Lets so many workers, each on a thread, take so many pieces over the board, closes it, and tells whether
/// each piece came back once and none is left.
pub fn run<R: Threads + Sync>(
    rt: &R,
    alloc: Global,
    workers: u64,
    pieces: u64,
) -> Result<bool, NoMemory>
    requires { (0 < workers) × (workers ≤ 16) }
{
    let tally = Tally::new(alloc, pieces)?;
    let (board, chairs) = Board::new(alloc, SLOTS, workers, tally)?;
    let shared = &board;
    let chairs = thread::map_vec(
        rt,
        chairs.into_vec(),
        &|chair: Chair<u64, Tally>| -> Chair<u64, Tally>
            requires { HasTurn 0 shared.now chair × (slots_of shared.now ≡ 16) }
            ensures { HasTurn 0 shared.entry.now result × StandsAs chair result }
        { worker(shared, chair) },
    )?;
    let Ok(closed) = board.close(alloc, List::from(chairs)) else {
        return Err(NoMemory);
    };
    Ok(closed.left.is_empty() && closed.net.is_whole())
}
