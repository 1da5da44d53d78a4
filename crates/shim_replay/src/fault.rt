// Why a text isn't read.
use shim_base::NoMemory;

/// Why there is no journal.
#[derive(Clone, Copy, Debug, PartialEq, Eq)]
pub enum JournalFault {
    /// The first line that no journal has after the lines before it, counted from 1. The end of the
    /// text counts as the line that is missing.
    Malformed { line: u32 },
    NoMemory,
}

impl From<NoMemory> for JournalFault {
    ghost use Rattle.std.specs.Prelude.{◌≡◌};
    ghost use Rattle.shim_replay.specs.declared.fault.JournalFault.TheVariants as faults;

    ghost from_gives = { λ _ fault. fault ≡ faults.NoMemory };

    fn from(_error: NoMemory) -> JournalFault {
        JournalFault::NoMemory
    }
}

/// Why a part of a text isn't read.
#[derive(Clone, Copy, Debug, PartialEq, Eq)]
pub(crate) enum ReadFault {
    Malformed,
    NoMemory,
}

impl From<NoMemory> for ReadFault {
    ghost use Rattle.std.specs.Prelude.{◌≡◌};
    ghost use Rattle.shim_replay.specs.declared.fault.ReadFault.TheVariants as faults;

    ghost from_gives = { λ _ fault. fault ≡ faults.NoMemory };

    fn from(_error: NoMemory) -> ReadFault {
        ReadFault::NoMemory
    }
}

/// Why a text isn't read, with the number of the line.
#[derive(Clone, Copy, Debug, PartialEq, Eq)]
pub(crate) enum TextFault {
    Malformed(u64),
    NoMemory,
}

impl From<NoMemory> for TextFault {
    ghost use Rattle.std.specs.Prelude.{◌≡◌};
    ghost use Rattle.shim_replay.specs.declared.fault.TextFault.TheVariants as faults;

    ghost from_gives = { λ _ fault. fault ≡ faults.NoMemory };

    fn from(_error: NoMemory) -> TextFault {
        TextFault::NoMemory
    }
}

/// Why a journal isn't accepted, with the number of the line, counted from 1. Where an entry is both over budget and
/// not enabled, the fault is `OverBudget`.
#[derive(Clone, Copy, Debug, PartialEq, Eq)]
pub enum ReplayFault {
    /// The steps of the entry of this line, and those before it, pass the budget.
    OverBudget { line: u32 },
    /// A step of the entry of this line isn't enabled in its turn, or it is no quiet step in an entry of quiet steps.
    NotEnabled { line: u32 },
    /// All entries are done, and an event is enabled, with steps of the budget left. It is the last line.
    Unfinished { line: u32 },
    NoMemory,
}

impl From<NoMemory> for ReplayFault {
    ghost use Rattle.std.specs.Prelude.{◌≡◌};
    ghost use Rattle.shim_replay.specs.declared.fault.ReplayFault.TheVariants as faults;

    ghost from_gives = { λ _ fault. fault ≡ faults.NoMemory };

    fn from(_error: NoMemory) -> ReplayFault {
        ReplayFault::NoMemory
    }
}
