// What the arguments ask for, and why they may ask for nothing.
use crate::mode::Mode;
use shim_base::{List, NoMemory};

/// What the arguments ask for. An option that was not given has its default.
#[derive(Drop)]
pub struct Job {
    pub mode: Mode,
    /// The name of the source's file; of `gen` the word of a kind.
    pub file: List<u8>,
    /// The names of the files that a batch runs the source on, in order.
    pub inputs: List<List<u8>>,
    pub input: Option<List<u8>>,
    pub workers: u64,
    pub budget: u64,
    pub quantum: u64,
    pub size: u64,
    pub journal: Option<List<u8>>,
    /// Whether the pieces of a run by workers lie in lanes, from which workers steal.
    pub steal: bool,
}

/// Why there is no job.
#[derive(Clone, Copy, Debug, PartialEq, Eq)]
pub enum WordsFault {
    /// The words ask for nothing.
    Refused,
    NoMemory,
}

impl From<NoMemory> for WordsFault {
    ghost use Rattle.std.specs.Prelude.{◌≡◌};
    ghost use Rattle.shim_command.specs.declared.job.WordsFault.TheVariants as faults;

    ghost from_gives = { λ _ fault. fault ≡ faults.NoMemory };

    fn from(_error: NoMemory) -> WordsFault {
        WordsFault::NoMemory
    }
}
