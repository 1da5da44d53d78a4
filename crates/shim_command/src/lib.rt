//! The words of the command line: what `shim` is asked to do.
#![tactic(auto)]

mod command;
mod job;
pub mod laws;
mod mode;
mod words;

pub use job::{Job, WordsFault};
pub use mode::{Course, Description, Extra, Mode, ModeRow, Origin, Showing, Task};
pub use shim_generator::Kind;
pub use words::read_words;
