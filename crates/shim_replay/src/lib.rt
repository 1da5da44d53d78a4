//! Recorded schedules: the text of a journal, written and read, and its replay.
#![tactic(auto)]

mod entry_line;
mod fault;
mod journal;
mod numbers;
mod paths;
mod ranges;
mod reading;
mod recent_paths;
mod replaying;
mod writing;

/// What is proved of the text of journals.
pub mod laws;

pub use fault::{JournalFault, ReplayFault};
pub use journal::Journal;
pub use reading::read_journal;
pub use replaying::replay;
pub use writing::journal_text;
