// What a worker has of a board.
ghost use Rattle.std.specs.Prelude.{◌≡◌, ◌≢◌, ◌∷◌, [], None};
ghost use Rattle.shim_board.specs.Views.{carried};

use crate::content::Content;
use crate::view::View;
use atomic_table::Seat;
use shim_base::Named;

/// What a worker has of a board, and does its steps with. It may go to another thread.
#[derive(Drop)]
pub struct Chair<T, N: Named> {
    pub(crate) seat: Seat<Content<T, N>, View<N::Label>>,
    pub(crate) number: u64,
    pub(crate) seen: u64,
    ghost numbered: { seat.me.0.numbers ≡ number ∷ [] },
    ghost first: { number ≡ 0 → seat.id ≡ 0 },
    ghost counts: { number ≢ 0 → seat.me.0.count ≡ 0 },
    ghost idle: { seat.me.0.hand ≡ None },
    ghost carries: { seat.me.1 ≡ carried seat.me.0 },
}
