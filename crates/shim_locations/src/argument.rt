// The arguments of a call or a branch.
use shim_base::Ty;

/// An argument whose expression is computed, with what its parameter says.
#[derive(Clone, Copy, Debug, PartialEq, Eq)]
pub enum Argument {
    /// The location of this number itself, or a stream.
    ByReference(usize),
    /// A copy of the location of this number, on the same channel, as a variable of this type.
    ByCopy(Ty, usize),
    /// This number in a location on a channel of its own, of this name.
    ByValue(Ty, u32, i64),
}
