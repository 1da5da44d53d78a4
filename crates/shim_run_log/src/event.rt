// What can happen next in a tree.
use shim_base::{Chan, Path};

/// One event of a tree. A channel is named by its home and serial alone.
#[derive(Drop)]
pub enum Event {
    /// The process of this path does a step of its own.
    Own(Path),
    /// The processes that share this channel meet.
    Meet(Chan),
    /// The child of this path is ready on this channel and doomed on it: at or below another child of its fork, a
    /// process that shares the channel died of a label in force at the fork. Each live process at the child or
    /// below it that shares the channel dies.
    Poison(Path, Chan),
    /// The fork of the process of this path closes: its children have ended or died.
    Close(Path),
    /// The process of this path ends.
    End(Path),
}
