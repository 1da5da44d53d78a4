// What an event leaves beside the processes: its effects.
use shim_local::LogWhat;

/// A byte that is put, or something that is logged of the process, or neither. No event has both.
#[derive(Clone, Copy, Debug, PartialEq, Eq)]
pub(crate) enum Effects {
    Nothing,
    Byte(u8),
    Log(LogWhat),
}
