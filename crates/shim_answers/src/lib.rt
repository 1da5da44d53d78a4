//! What is printed of a source, of its code and of its runs.
#![tactic(auto)]

mod batched;
mod execute;
mod replayed;
mod runs;
/// The two kinds of process that are run, tied.
pub mod tied;

pub use batched::answer_each;
pub use execute::{answer_description, answer_record, answer_run};
pub use replayed::answer_replay;
pub use runs::{PreparedRun, RunOfEach, RunToRecord};
