//! The command: its arguments, its files, the run and what is printed of it.
#![tactic(auto)]

mod call;
mod files;
pub mod laws;
mod lines;
mod prepared;

pub use call::{shim, write_no_memory};
pub use prepared::{Prepared, prepare};
pub use shim_answers::{PreparedRun, RunOfEach, RunToRecord, answer_each, tied};
pub use shim_command::{Job, Kind, Mode, Showing, WordsFault, read_words};
pub use shim_generator::generate;
pub use shim_results::{Answer, ExitStatus};
pub use shim_workers::{Gate, NoOpGate};
