// The statuses that the program ends with.
ghost use Rattle.std.specs.Prelude.{◌≡◌, max};
ghost use Rattle.shim_results.specs.AnswerView.{exit_code};
ghost use Rattle.shim_results.specs.RunEnds.{status_of_outcome};

use shim_local::Outcome;

/// How a call of the program ended, which the program says by its status.
#[derive(Clone, Copy, Debug, PartialEq, Eq)]
pub enum ExitStatus {
    Done,
    /// The run ended by an exception that nobody caught, or by a trap.
    Failed,
    Usage,
    Blocked,
    Spent,
    Refused,
    FileFault,
    SinkFault,
    NoMemory,
    JournalFault,
}

impl ExitStatus {
    /// The status that says how a run ended.
    pub fn of(outcome: Outcome) -> ExitStatus
        ensures { exit_code result ≡ status_of_outcome outcome }
    {
        match outcome {
            Outcome::Done => ExitStatus::Done,
            Outcome::Uncaught(_) | Outcome::Trapped => ExitStatus::Failed,
            Outcome::Blocked => ExitStatus::Blocked,
            Outcome::Spent => ExitStatus::Spent,
        }
    }

    /// This status or the other one, whichever has the greater number.
    pub fn or_greater(self, other: ExitStatus) -> ExitStatus
        ensures { exit_code result ≡ max (exit_code self) (exit_code other) }
    {
        if self.code() < other.code() {
            other
        } else {
            self
        }
    }

    /// The number that the program ends with.
    pub fn code(self) -> u8
        ensures { result ≡ exit_code self }
    {
        match self {
            ExitStatus::Done => 0,
            ExitStatus::Failed => 1,
            ExitStatus::Usage => 2,
            ExitStatus::Blocked => 3,
            ExitStatus::Spent => 4,
            ExitStatus::Refused => 5,
            ExitStatus::FileFault => 6,
            ExitStatus::SinkFault => 7,
            ExitStatus::NoMemory => 8,
            ExitStatus::JournalFault => 9,
        }
    }
}
