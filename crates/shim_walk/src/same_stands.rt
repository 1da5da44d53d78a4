// When two processes are trapped alike, and have read as much.
ghost use Rattle.std.specs.Prelude.{◌≡◌, ◌↔◌, IsTrue};
ghost use Rattle.shim_walk.specs.States.{trapped_at_of};

use crate::trapped_at::TrappedAt;

/// Whether both have the input, and read as many bytes of it, or neither has it.
pub fn same_input(one: Option<usize>, other: Option<usize>) -> bool
    ensures { IsTrue result ↔ (one ≡ other) }
{
    match (one, other) {
        (None, None) => true,
        (Some(at), Some(other)) => at == other,
        _ => false,
    }
}

/// Whether both stand trapped for the same reason in the same line, or neither stands trapped.
pub fn same_trap(one: Option<TrappedAt>, other: Option<TrappedAt>) -> bool
    ensures { IsTrue result ↔ (trapped_at_of one ≡ trapped_at_of other) }
{
    match (one, other) {
        (None, None) => true,
        (Some(trap), Some(other)) => trap.kind == other.kind && trap.line == other.line,
        _ => false,
    }
}
