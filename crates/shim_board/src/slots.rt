// The steps of a piece, out to a worker and back.
ghost use Rattle.std.specs.Prelude.{◌≡◌, ℕ, ◌*◌, ◌-◌, ◌^◌, ◌<◌, None, Some, MatchOption, IfSome};
ghost use Rattle.shim_board.specs.Counting.{times};
ghost use Rattle.shim_board.specs.Rule.{IsEmpty, IsFull, IsBack};
ghost use Rattle.shim_board.specs.Views.{after_look, after_put, after_give, after_collect, HasLooked, HasClaimed};

use crate::board::Board;
use crate::chair::Chair;
use crate::content::Content;
use crate::steps::{Claim, Collect, Give, HoldBack, HoldEmpty, Look, Put};
use shim_base::Named;

impl<T: Drop, N: Named + Drop> Board<T, N> {
    ghost use Rattle.shim_board.specs.Chairs.{HasSlot, IsOn, seen_of, view_of};

    /// The round of a slot that is EMPTY, which is noted; `None` only where this call saw another state.
    /// It needs the turn.
    pub fn vacant(&self, chair: &mut Chair<T, N>, slot: u64) -> Option<u64>
        requires chair { IsOn self.now chair.old }
        requires slot { HasSlot self.now slot }
        requires turn { (view_of chair.old).turn ≡ 1 }
        ensures same { IsOn self.now chair.new }
        ensures got { MatchOption result
            ((IsEmpty (seen_of chair.new) → ⊥) × (view_of chair.new ≡ after_look (view_of chair.old) slot (seen_of chair.new)))
            (λ round. (seen_of chair.new ≡ seen_of chair.old) × (view_of chair.new ≡ after_look (view_of chair.old) slot (4 * round))) }
        ensures noted { IfSome result (λ round. 0 < times slot round (view_of chair.new).noted) }
    {
        let found = self
            .table
            .shared
            .load::<Look>(&mut chair.seat, slot as usize + 1);
        if found % 4 == 0 {
            return Some(found / 4);
        }
        chair.seen = found;
        None
    }

    /// Puts a piece into a slot that was noted in this turn, of a round below 2^62 - 1, so that words stay in 64
    /// bits: its word becomes FULL, of the same round. The clause `put`, and those of the other calls, say what
    /// becomes of the view. What a view says of the words is in the law `rule`.
    pub fn put(&self, chair: &mut Chair<T, N>, slot: u64, value: T)
        requires chair { IsOn self.now chair.old }
        requires slot { HasSlot self.now slot }
        requires turn { (view_of chair.old).turn ≡ 1 }
        requires noted { (round : ℕ) × (0 < times slot round (view_of chair.old).noted) × (round < 2 ^ 62 - 1) }
        ensures same { IsOn self.now chair.new × (seen_of chair.new ≡ seen_of chair.old) }
        ensures put { (round : ℕ) → 0 < times slot round (view_of chair.old).noted → view_of chair.new ≡ after_put (view_of chair.old) slot round }
    {
        let place = slot as usize + 1;
        let seat = &mut chair.seat;
        self.table.shared.load::<HoldEmpty>(seat, place);
        self.table
            .shared
            .exchange(seat, place, Content::Piece(value));
        self.table.shared.fetch_add::<Put>(seat, place, 1);
    }

    /// Claims the piece of a slot: its word goes from FULL to TAKEN. `None` only where this call saw a word that
    /// isn't FULL. It tries again only where it found another FULL word, which is greater than the one before. Words
    /// are bounded, so it returns.
    pub fn claim(&self, chair: &mut Chair<T, N>, slot: u64) -> Option<T>
        requires chair { IsOn self.now chair.old }
        requires slot { HasSlot self.now slot }
        requires free { (view_of chair.old).claimed ≡ None }
        ensures same { IsOn self.now chair.new }
        ensures got { MatchOption result
            ((IsFull (seen_of chair.new) → ⊥) × HasLooked (view_of chair.old) (view_of chair.new) slot (seen_of chair.new))
            (λ _. (seen_of chair.new ≡ seen_of chair.old) × ((round : ℕ) × HasClaimed (view_of chair.old) (view_of chair.new) slot round)) }
    {
        let place = slot as usize + 1;
        let seat = &mut chair.seat;
        let mut seen = self.table.shared.load::<Look>(seat, place);
        while seen % 4 == 1 {
            let found = self
                .table
                .shared
                .compare_exchange::<Claim>(seat, place, seen, seen + 1);
            if found == seen {
                let content = self.table.shared.exchange(seat, place, Content::Nothing);
                let Content::Piece(value) = content else {
                    unreachable!()
                };
                return Some(value);
            }
            seen = found;
        }
        chair.seen = seen;
        None
    }

    /// Gives a piece back into the claimed slot: its word becomes BACK, of the same round.
    pub fn give(&self, chair: &mut Chair<T, N>, slot: u64, value: T)
        requires chair { IsOn self.now chair.old }
        requires slot { HasSlot self.now slot }
        requires claimed { (round : ℕ) × ((view_of chair.old).claimed ≡ Some (slot, round)) }
        ensures same { IsOn self.now chair.new × (seen_of chair.new ≡ seen_of chair.old) }
        ensures given { view_of chair.new ≡ after_give (view_of chair.old) }
    {
        let place = slot as usize + 1;
        let seat = &mut chair.seat;
        self.table
            .shared
            .exchange(seat, place, Content::Piece(value));
        self.table.shared.fetch_add::<Give>(seat, place, 1);
    }

    /// Collects the piece of a slot that is BACK: its word becomes EMPTY, of the next round. `None` only
    /// where this call saw another state. It needs the turn.
    pub fn collect(&self, chair: &mut Chair<T, N>, slot: u64) -> Option<T>
        requires chair { IsOn self.now chair.old }
        requires slot { HasSlot self.now slot }
        requires turn { (view_of chair.old).turn ≡ 1 }
        ensures same { IsOn self.now chair.new }
        ensures got { MatchOption result
            ((IsBack (seen_of chair.new) → ⊥) × (view_of chair.new ≡ after_look (view_of chair.old) slot (seen_of chair.new)))
            (λ _. (seen_of chair.new ≡ seen_of chair.old) × ((round : ℕ) × (view_of chair.new ≡ after_collect (view_of chair.old) slot round))) }
    {
        let place = slot as usize + 1;
        let seat = &mut chair.seat;
        let found = self.table.shared.load::<HoldBack>(seat, place);
        if found % 4 != 3 {
            chair.seen = found;
            return None;
        }
        let content = self.table.shared.exchange(seat, place, Content::Nothing);
        let Content::Piece(value) = content else {
            unreachable!()
        };
        self.table.shared.fetch_add::<Collect>(seat, place, 1);
        Some(value)
    }

    /// The word that the chair found in its last call that answered `None`, and 0 before the first such call.
    pub fn seen(chair: &Chair<T, N>) -> u64
        ensures { result ≡ seen_of chair.now }
    {
        chair.seen
    }
}
