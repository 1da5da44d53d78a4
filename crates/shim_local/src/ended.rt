// What is read off a run that has ended, or was stopped.
use shim_base::{Chan, List, Path, Trap};

/// What a run has come to. Each of its `steps` is counted once, in `own` or in `events`.
#[derive(Drop)]
pub struct Ended {
    /// The bytes that were put, in order.
    pub output: List<u8>,
    /// Each channel that had a rendezvous, by home and then by serial.
    pub histories: List<History>,
    /// What was logged, by path, and of one process in the order in which it happened.
    pub logs: List<Log>,
    /// Each process that waits, by path; it is empty unless the outcome is `Blocked`.
    pub waits: List<WaitAt>,
    /// Each process that did a step of its own, by path.
    pub own: List<OwnSteps>,
    /// How many events were no process's own: rendezvous, poisons, closes and ends.
    pub events: u64,
    pub steps: u64,
    pub outcome: Outcome,
}

/// The values that the rendezvous on a channel gave, in order.
#[derive(Drop)]
pub struct History {
    pub chan: Chan,
    pub values: List<i64>,
}

/// Something that is logged of a process.
#[derive(Drop)]
pub struct Log {
    pub path: Path,
    pub what: LogWhat,
}

#[derive(Clone, Copy, Debug, PartialEq, Eq)]
pub enum LogWhat {
    /// An exception was caught: the number of its name, and the line of the `try`.
    Caught(u32, u32),
    /// A statement trapped: why, and the statement's line.
    Trap(Trap, u32),
}

/// A process that waits at a channel.
#[derive(Drop)]
pub struct WaitAt {
    pub path: Path,
    pub chan: Chan,
}

/// How many steps of its own a process did.
#[derive(Drop)]
pub struct OwnSteps {
    pub path: Path,
    pub count: u64,
}

/// How a run ended.
#[derive(Clone, Copy, Debug, PartialEq, Eq)]
pub enum Outcome {
    /// The root has ended.
    Done,
    /// The root died of an exception: the number of its name, or its label where the name isn't known.
    Uncaught(u32),
    /// The root died of a trap.
    Trapped,
    /// Nothing can happen, and the root has neither ended nor died.
    Blocked,
    /// The budget's steps were taken, and something can still happen.
    Spent,
}
