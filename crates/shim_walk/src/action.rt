// What a statement asks for.
use shim_base::{List, Trap, Ty};
use shim_locations::argument::Argument;
use shim_walk_frames::successors::Successor;

/// What a statement asks for, its expressions computed.
#[derive(Drop)]
pub enum Action {
    Go(Successor),
    Store(u32, i64),
    /// The value is stored, and the second part of the statement comes next.
    StoreFirst(u32, i64),
    /// The slot gets a new location, on a new channel.
    Make(Ty, u32, i64),
    /// The next byte of the input is stored.
    Read(u32),
    /// The unit is called with these arguments, and its exceptions have these labels.
    Enter(u32, List<Argument>, List<u32>),
    /// The exception of this number comes into force, by this name, with the variable of its handler in
    /// this slot, where it has one.
    Install(u32, u32, Option<u32>),
    Trapped(Trap),
    /// No action: the statement isn't quiet, or there is no statement.
    Wait,
}
