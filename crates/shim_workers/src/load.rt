// What goes over the board.
use shim_board::{Board, Chair};
use shim_local::{Finished, Local, Parcel};
use shim_net::Net;

/// What lies in a slot of the board: work on its way out to a worker, or what a worker did with it.
#[derive(Drop)]
pub enum Load<L: Local> {
    Out(Parcel<L>),
    Back(Finished<L>),
}

/// The board over which the workers of a net hand out its work.
pub(crate) type NetBoard<L> = Board<Load<L>, Net<L>>;

/// A worker's chair of such a board.
pub(crate) type NetChair<L> = Chair<Load<L>, Net<L>>;
