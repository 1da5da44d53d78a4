// How a board ends.
ghost use Rattle.std.specs.Prelude.{◌≡◌, ◌≢◌, ℕ, ◌+◌, ◌<◌, ◌≤◌, [], All, IfOk, IfErr, vec_len, vec_capacity, slice_get, IfSome};
ghost use Rattle.shim_board.specs.Counting.{occurs, one_below, Each};
ghost use Rattle.shim_base.specs.Lists.{total};
ghost use Rattle.shim_board.specs.Kept.{HoldsNothing, HasAll};

use crate::board::Board;
use crate::chair::Chair;
use crate::content::Content;
use crate::steps::JoinChair;
use crate::view::View;
use atomic_table::Seat;
use shim_base::{List, Named, NoMemory};
use std::alloc::Global;

/// What a closed board leaves: the net, and the pieces of the FULL and BACK slots, each with its slot, in
/// the order of the slots.
#[derive(Drop)]
pub struct Closed<T, N> {
    pub net: N,
    pub left: List<(u64, T)>,
}

// The place of chair 0.
fn place_of_first<T, N: Named>(chairs: &Vec<Chair<T, N>>) -> usize
    requires { 0 < total (λ c. occurs 0 c.seat.me.0.numbers) chairs.now.items }
    ensures inside { result < vec_len chairs.now }
    ensures first { IfSome (slice_get chairs.now.items result) (λ c. c.number ≡ 0) }
{
    let mut at = 0;
    while at < chairs.len() {
        if chairs[at].number == 0 {
            return at;
        }
        at += 1;
    }
    unreachable!()
}

impl<T: Drop, N: Named + Drop> Board<T, N> {
    ghost use Rattle.shim_board.specs.Chairs.{AreAll, IsIdleOn, name_of, view_of};
    ghost use Rattle.shim_board.specs.Closing.{AreLastOf, AreLeft, SameLists};

    /// Closes a board, with all of its chairs, in any order, of which none has the turn or a claimed slot.
    /// Running out of memory changes nothing.
    pub fn close(
        self,
        alloc: Global,
        chairs: List<Chair<T, N>>,
    ) -> Result<Closed<T, N>, (NoMemory, Board<T, N>, List<Chair<T, N>>)>
        requires chairs { All (IsIdleOn self) chairs }
        requires all { AreAll chairs }
        ensures net { IfOk result (λ closed. N.name closed.net ≡ name_of N.name self) }
        ensures left { IfOk result (λ closed. AreLeft self chairs closed.net closed.left) }
        ensures refused { IfErr result (λ back. (back.1 ≡ self) × (back.2 ≡ chairs)) }
    {
        let Ok(left) = Vec::with_capacity(alloc, 64) else {
            return Err((NoMemory, self, chairs));
        };
        let mut others = chairs.into_vec();
        let at = place_of_first(&others);
        let Chair {
            seat,
            number: _,
            seen: _,
        } = others.remove(at);
        let seat = self.join_all(seat, others);
        Ok(self.empty(seat, left))
    }

    // Chair 0 takes in the others.
    fn join_all(
        &self,
        mut seat: Seat<Content<T, N>, View<N::Label>>,
        mut others: Vec<Chair<T, N>>,
    ) -> Seat<Content<T, N>, View<N::Label>>
        requires first { (seat.table_id ≡ self.now.table.shared.table_id) × (seat.id ≡ 0) × (seat.me.1 ≡ []) × HoldsNothing seat.me.0 × (seat.me.0.numbers ≢ []) }
        requires others { Each (IsIdleOn self.now) others.items }
        requires numbers { (x : ℕ) → occurs x seat.me.0.numbers + total (λ c. occurs x (view_of c).numbers) others.items ≡ one_below x seat.me.0.count }
        ensures first { (result.table_id ≡ self.now.table.shared.table_id) × (result.id ≡ 0) × (result.me.1 ≡ []) × HoldsNothing result.me.0 × HasAll result.me.0 }
        ensures lists { SameLists result.me.0 [] seat.me.0 others.items }
    {
        while let Some(chair) = others.pop() {
            let Chair {
                seat: other,
                number: _,
                seen: _,
            } = chair;
            self.table.shared.join_seat::<JoinChair>(&mut seat, other);
        }
        seat
    }

    // Takes the net and the pieces out of the table, with room for the pieces in `left`.
    fn empty(
        self,
        seat: Seat<Content<T, N>, View<N::Label>>,
        mut left: Vec<(u64, T)>,
    ) -> Closed<T, N>
        requires seat { (seat.table_id ≡ self.table.shared.table_id) × (seat.id ≡ 0) × HoldsNothing seat.me.0 × HasAll seat.me.0 }
        requires room { (left.items ≡ []) × (64 ≤ vec_capacity left) }
        ensures net { N.name result.net ≡ name_of N.name self }
        ensures left { AreLastOf N.name self seat.me.0 result.net result.left }
    {
        let Board { table } = self;
        let mut closed = table.close_with(seat);
        let Content::Net(net) = closed.take(0) else {
            unreachable!()
        };
        let mut slot = 0;
        while slot + 1 < closed.slot_count() {
            if let Content::Piece(value) = closed.take(slot + 1) {
                left.push_reserved((slot as u64, value));
            }
            slot += 1;
        }
        closed.free();
        Closed {
            net,
            left: List::from(left),
        }
    }
}
