// The calls of a board, one by one, on one thread.
ghost use Rattle.std.specs.Prelude.{◌≡◌, ◌≢◌, ◌<◌, ◌≤◌, ◌+◌, ◌*◌, ◌-◌, ◌^◌, All, None, IfSome};
ghost use Rattle.shim_board.specs.Chairs.{AreAll, HasSlot, IsIdleOn, IsOn, StandsAs, slots_of, view_of};
ghost use Rattle.shim_tests_board.specs.Turns.{HasTurn};

use shim_base::{List, Named, NoMemory};
use shim_board::{Board, Chair, Closed};
use std::alloc::Global;
use std::test::*;

// A net of one number, whose name says nothing.
#[derive(Drop)]
struct Net {
    number: u64,
}

impl Named for Net {
    type Label = ();

    ghost name = { λ _. tt };
}

// The last of these chairs.
fn next_chair(board: &Board<u64, Net>, chairs: &mut Vec<Chair<u64, Net>>) -> Option<Chair<u64, Net>>
    requires { All (IsIdleOn board.now) chairs.old.items }
    ensures one { IfSome result (λ c. HasTurn 0 board.now c) }
    ensures rest { All (IsIdleOn board.now) chairs.new.items }
{
    chairs.pop()
}

// Puts a piece into a slot, if that is EMPTY, and tells whether it did.
fn put(board: &Board<u64, Net>, chair: &mut Chair<u64, Net>, slot: u64, piece: u64) -> bool
    requires chair { HasTurn 1 board.now chair.old }
    requires slot { HasSlot board.now slot }
    ensures turn { HasTurn 1 board.now chair.new }
    ensures same { StandsAs chair.old chair.new }
{
    let Some(round) = board.vacant(chair, slot) else {
        return false;
    };
    if round >= (1 << 62) - 1 {
        return false;
    }
    board.put(chair, slot, piece);
    true
}

// Claims the piece of a slot and gives another one back, and tells what was claimed, or 0.
fn work(board: &Board<u64, Net>, chair: &mut Chair<u64, Net>, slot: u64, given: u64) -> u64
    requires chair { HasTurn (view_of chair.old).turn board.now chair.old }
    requires slot { HasSlot board.now slot }
    ensures turn { HasTurn (view_of chair.old).turn board.now chair.new }
    ensures same { StandsAs chair.old chair.new }
{
    let Some(claimed) = board.claim(chair, slot) else {
        return 0;
    };
    board.give(chair, slot, given);
    claimed
}

// Puts pieces into the first three slots, and works at the second. Tells whether all went well.
fn fill(board: &Board<u64, Net>, chair: &mut Chair<u64, Net>) -> bool
    requires chair { HasTurn 0 board.now chair.old }
    requires slots { slots_of board.now ≡ 4 }
    ensures turn { HasTurn 0 board.now chair.new }
    ensures same { StandsAs chair.old chair.new }
{
    let Some(net) = board.take_turn(chair) else {
        return false;
    };
    let mut is_put = true;
    is_put = put(board, chair, 0, 10) && is_put;
    is_put = put(board, chair, 1, 11) && is_put;
    is_put = put(board, chair, 2, 12) && is_put;
    board.leave_turn(chair, net);
    is_put && work(board, chair, 1, 21) == 11
}

// Collects the piece of a slot, or 0.
fn collect(board: &Board<u64, Net>, chair: &mut Chair<u64, Net>, slot: u64) -> u64
    requires chair { HasTurn 1 board.now chair.old }
    requires slot { HasSlot board.now slot }
    ensures { HasTurn 1 board.now chair.new }
{
    board.collect(chair, slot).unwrap_or(0)
}

// Puts 1, 2 and so on into the slots, and tells whether each was EMPTY.
fn put_all(board: &Board<u64, Net>, chair: &mut Chair<u64, Net>) -> bool
    requires chair { HasTurn 1 board.now chair.old }
    requires slots { slots_of board.now ≡ 64 }
    ensures { HasTurn 1 board.now chair.new }
{
    let mut is_put = true;
    for slot in 0..64 {
        is_put = put(board, chair, slot, slot + 1) && is_put;
    }
    is_put
}

// Works at each sixteenth slot, from this one on, and tells whether the right pieces were there.
fn work_some(board: &Board<u64, Net>, chair: &mut Chair<u64, Net>, first: u64) -> bool
    requires chair { HasTurn (view_of chair.old).turn board.now chair.old }
    requires slots { slots_of board.now ≡ 64 }
    ensures { HasTurn (view_of chair.old).turn board.now chair.new }
{
    let mut is_right = true;
    for slot in 0..64 {
        if slot % 16 == first {
            is_right = work(board, chair, slot, slot + 1000) == slot + 1 && is_right;
        }
    }
    is_right
}

// Collects all slots, and tells whether the right pieces were there.
fn collect_all(board: &Board<u64, Net>, chair: &mut Chair<u64, Net>) -> bool
    requires chair { HasTurn 1 board.now chair.old }
    requires slots { slots_of board.now ≡ 64 }
    ensures { HasTurn 1 board.now chair.new }
{
    let mut is_right = true;
    for slot in 0..64 {
        is_right = collect(board, chair, slot) == slot + 1000 && is_right;
    }
    is_right
}

// Tries to take the turn, and tells whether another chair has it.
fn finds_turn_held(board: &Board<u64, Net>, chair: &mut Chair<u64, Net>) -> bool
    requires { HasTurn 0 board.now chair.old }
    ensures { IsOn board.now chair.new × ((view_of chair.new).claimed ≡ None) }
{
    match board.take_turn(chair) {
        Some(_) => false,
        None => true,
    }
}

// Tries to claim the piece of a slot, and tells whether there is none.
fn finds_no_piece(board: &Board<u64, Net>, chair: &mut Chair<u64, Net>, slot: u64) -> bool
    requires chair { IsOn board.now chair.old × ((view_of chair.old).claimed ≡ None) }
    requires slot { HasSlot board.now slot }
{
    match board.claim(chair, slot) {
        Some(_) => false,
        None => true,
    }
}

// Whether a claim of this slot finds no piece, and saw this word.
fn sees_no_piece(board: &Board<u64, Net>, chair: &mut Chair<u64, Net>, slot: u64, word: u64) -> bool
    requires chair { HasTurn 1 board.now chair.old }
    requires slot { HasSlot board.now slot }
    ensures { HasTurn 1 board.now chair.new }
{
    work(board, chair, slot, 0) == 0 && Board::seen(chair) == word
}

// Whether this slot isn't EMPTY, and this word was seen.
fn sees_no_room(board: &Board<u64, Net>, chair: &mut Chair<u64, Net>, slot: u64, word: u64) -> bool
    requires chair { HasTurn 1 board.now chair.old }
    requires slot { HasSlot board.now slot }
    ensures { HasTurn 1 board.now chair.new }
{
    board.vacant(chair, slot).is_none() && Board::seen(chair) == word
}

// Whether nothing came back in this slot, and this word was seen.
fn sees_nothing_back(
    board: &Board<u64, Net>,
    chair: &mut Chair<u64, Net>,
    slot: u64,
    word: u64,
) -> bool
    requires chair { HasTurn 1 board.now chair.old }
    requires slot { HasSlot board.now slot }
    ensures { HasTurn 1 board.now chair.new }
{
    collect(board, chair, slot) == 0 && Board::seen(chair) == word
}

// Makes each call that takes a chair, and tells whether all went well. There is no runtime here, so none
// of these calls asks for `Wait`.
fn make_each_call(board: &Board<u64, Net>, chair: &mut Chair<u64, Net>) -> bool
    requires chair { HasTurn 0 board.now chair.old }
    requires slots { slots_of board.now ≡ 1 }
{
    let Some(net) = board.take_turn(chair) else {
        return false;
    };
    let is_put = put(board, chair, 0, 10);
    let claimed = work(board, chair, 0, 20);
    let collected = collect(board, chair, 0);
    board.leave_turn(chair, net);
    is_put && claimed == 10 && collected == 20 && Board::seen(chair) == 0
}

// Lets the last of all chairs put three pieces and work at one of them, and closes the board.
fn fill_and_close(
    alloc: Global,
    board: Board<u64, Net>,
    chairs: List<Chair<u64, Net>>,
) -> Result<Option<Closed<u64, Net>>, NoMemory>
    requires chairs { All (IsIdleOn board) chairs }
    requires all { AreAll chairs }
    requires slots { slots_of board ≡ 4 }
{
    let mut chairs = chairs.into_vec();
    let Some(mut chair) = chairs.pop() else {
        return Ok(None);
    };
    if !fill(&board, &mut chair) {
        return Ok(None);
    }
    chairs.push_reserved(chair);
    let Ok(closed) = board.close(alloc, List::from(chairs)) else {
        return Err(NoMemory);
    };
    Ok(Some(closed))
}

// Whether the entry of what is left at the place `slot` has this slot and this piece.
fn is_left(closed: &Closed<u64, Net>, slot: u64, piece: u64) -> bool {
    match closed.left.get(slot as usize) {
        Some(left) => left.0 == slot && left.1 == piece,
        None => false,
    }
}

#[test]
fn turn_that_is_held_and_slot_that_is_empty_are_seen(rt: HostRuntime) -> Result<(), Fail> {
    let (board, chairs) = Board::new(rt.alloc(), 2, 2, Net { number: 7 })?;
    let mut chairs = chairs.into_vec();
    let mut one = next_chair(&board, &mut chairs).expect(&rt, "two chairs");
    let mut two = next_chair(&board, &mut chairs).expect(&rt, "two chairs");
    let net = board.take_turn(&mut one).expect(&rt, "the turn is free");
    assert_eq!(rt; net.number, 7);
    assert!(rt; finds_turn_held(&board, &mut two));
    assert_eq!(rt; Board::seen(&two), 1);
    assert!(rt; finds_no_piece(&board, &mut two, 1));
    assert_eq!(rt; Board::seen(&two), 0);
    Ok(())
}

#[test]
fn calls_of_a_chair_need_no_runtime(rt: HostRuntime) -> Result<(), Fail> {
    let (board, chairs) = Board::new(rt.alloc(), 1, 1, Net { number: 7 })?;
    let mut chairs = chairs.into_vec();
    let mut one = next_chair(&board, &mut chairs).expect(&rt, "one chair");
    assert!(rt; make_each_call(&board, &mut one));
    Ok(())
}

#[test]
fn pieces_in_full_and_back_slots_are_left(rt: HostRuntime) -> Result<(), Fail> {
    let (board, chairs) = Board::new(rt.alloc(), 4, 3, Net { number: 7 })?;
    let closed = fill_and_close(rt.alloc(), board, chairs)?.expect(&rt, "three pieces");
    assert_eq!(rt; closed.net.number, 7);
    assert_eq!(rt; closed.left.len(), 3);
    assert!(rt; is_left(&closed, 0, 10));
    assert!(rt; is_left(&closed, 1, 21));
    assert!(rt; is_left(&closed, 2, 12));
    Ok(())
}

#[test]
fn what_was_put_is_claimed_and_what_was_given_is_collected(rt: HostRuntime) -> Result<(), Fail> {
    let (board, chairs) = Board::new(rt.alloc(), 2, 2, Net { number: 7 })?;
    let mut chairs = chairs.into_vec();
    let mut one = next_chair(&board, &mut chairs).expect(&rt, "two chairs");
    let mut two = next_chair(&board, &mut chairs).expect(&rt, "two chairs");
    let _net = board.take_turn(&mut one).expect(&rt, "the turn is free");
    assert!(rt; put(&board, &mut one, 0, 10));
    assert!(rt; put(&board, &mut one, 1, 20));
    assert_eq!(rt; work(&board, &mut two, 0, 100), 10);
    assert_eq!(rt; work(&board, &mut two, 1, 200), 20);
    assert_eq!(rt; collect(&board, &mut one, 0), 100);
    assert_eq!(rt; collect(&board, &mut one, 1), 200);
    Ok(())
}

#[test]
fn each_none_tells_the_word_that_was_seen(rt: HostRuntime) -> Result<(), Fail> {
    let (board, chairs) = Board::new(rt.alloc(), 1, 2, Net { number: 7 })?;
    let mut chairs = chairs.into_vec();
    let mut one = next_chair(&board, &mut chairs).expect(&rt, "two chairs");
    let mut two = next_chair(&board, &mut chairs).expect(&rt, "two chairs");
    let net = board.take_turn(&mut one).expect(&rt, "the turn is free");
    assert!(rt; sees_nothing_back(&board, &mut one, 0, 0));
    assert!(rt; put(&board, &mut one, 0, 10));
    assert!(rt; sees_no_room(&board, &mut one, 0, 1));
    assert!(rt; sees_nothing_back(&board, &mut one, 0, 1));
    let piece = board.claim(&mut two, 0).expect(&rt, "a piece");
    assert_eq!(rt; piece, 10);
    assert!(rt; sees_no_piece(&board, &mut one, 0, 2));
    assert!(rt; sees_no_room(&board, &mut one, 0, 2));
    assert!(rt; sees_nothing_back(&board, &mut one, 0, 2));
    board.give(&mut two, 0, 20);
    assert!(rt; sees_no_piece(&board, &mut one, 0, 3));
    assert!(rt; sees_no_room(&board, &mut one, 0, 3));
    assert_eq!(rt; collect(&board, &mut one, 0), 20);
    assert!(rt; sees_no_piece(&board, &mut one, 0, 4));
    board.leave_turn(&mut one, net);
    let net = board
        .take_turn(&mut two)
        .expect(&rt, "the turn is free again");
    assert_eq!(rt; net.number, 7);
    Ok(())
}

#[test]
fn sixteen_chairs_work_at_64_slots(rt: HostRuntime) -> Result<(), Fail> {
    let (board, chairs) = Board::new(rt.alloc(), 64, 16, Net { number: 7 })?;
    let mut chairs = chairs.into_vec();
    let mut one = next_chair(&board, &mut chairs).expect(&rt, "sixteen chairs");
    let _net = board.take_turn(&mut one).expect(&rt, "the turn is free");
    assert!(rt; put_all(&board, &mut one));
    assert!(rt; work_some(&board, &mut one, 0));
    for first in 1..16 {
        let mut other = next_chair(&board, &mut chairs).expect(&rt, "sixteen chairs");
        assert!(rt; work_some(&board, &mut other, first));
    }
    assert!(rt; collect_all(&board, &mut one));
    Ok(())
}

#[test]
fn sixteen_chairs_are_closed(rt: HostRuntime) -> Result<(), Fail> {
    let (board, chairs) = Board::<u64, Net>::new(rt.alloc(), 64, 16, Net { number: 7 })?;
    let Ok(closed) = board.close(rt.alloc(), chairs) else {
        return Err(Fail::from(NoMemory));
    };
    assert_eq!(rt; closed.net.number, 7);
    assert!(rt; closed.left.is_empty());
    Ok(())
}
