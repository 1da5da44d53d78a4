// Why a process stands trapped.
use shim_base::Trap;

/// The kind of a trap, and the line of its statement.
#[derive(Clone, Copy, Debug, PartialEq, Eq)]
pub struct TrappedAt {
    pub kind: Trap,
    pub line: u32,
}
