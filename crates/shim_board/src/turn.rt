// The turn, which comes with the net.
ghost use Rattle.std.specs.Prelude.{◌≡◌, MatchOption};
ghost use Rattle.shim_board.specs.Views.{after_take, after_turn_seen, after_leave};

use crate::board::Board;
use crate::chair::Chair;
use crate::content::Content;
use crate::steps::{LeaveTurn, TakeTurn};
use shim_base::Named;

impl<T: Drop, N: Named + Drop> Board<T, N> {
    ghost use Rattle.shim_board.specs.Chairs.{IsOn, name_of, seen_of, view_of};

    /// Takes the turn, and the net with it, where no chair has the turn. `None` only where this call saw
    /// that one has it.
    pub fn take_turn(&self, chair: &mut Chair<T, N>) -> Option<N>
        requires chair { IsOn self.now chair.old }
        requires turn { (view_of chair.old).turn ≡ 0 }
        ensures same { IsOn self.now chair.new }
        ensures got { MatchOption result
            ((seen_of chair.new ≡ 1) × (view_of chair.new ≡ after_turn_seen (view_of chair.old) (seen_of chair.new)))
            (λ net. (N.name net ≡ name_of N.name self.now) × (seen_of chair.new ≡ seen_of chair.old) × (view_of chair.new ≡ after_take (view_of chair.old))) }
    {
        let seat = &mut chair.seat;
        let found = self
            .table
            .shared
            .compare_exchange::<TakeTurn>(seat, 0, 0, 1);
        if found == 0 {
            let Content::Net(net) = self.table.shared.exchange(seat, 0, Content::Nothing) else {
                unreachable!()
            };
            seat.turn();
            return Some(net);
        }
        chair.seen = found;
        None
    }

    /// Leaves the turn, and with it a net, which has to have the board's name.
    pub fn leave_turn(&self, chair: &mut Chair<T, N>, net: N)
        requires chair { IsOn self.now chair.old }
        requires turn { (view_of chair.old).turn ≡ 1 }
        requires name { N.name net ≡ name_of N.name self.now }
        ensures same { IsOn self.now chair.new × (seen_of chair.new ≡ seen_of chair.old) }
        ensures left { view_of chair.new ≡ after_leave (view_of chair.old) }
    {
        let seat = &mut chair.seat;
        seat.turn();
        self.table.shared.exchange(seat, 0, Content::Net(net));
        self.table.shared.store::<LeaveTurn>(seat, 0, 0);
    }
}
