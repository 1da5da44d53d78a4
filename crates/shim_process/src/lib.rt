//! The definition of one process over syntax as a kind of process: what its states are, and the laws that they meet.
#![tactic(auto)]

mod handler_variable;
/// What is proved of the states of a process.
pub mod laws;
mod serial_run;

pub use handler_variable::HandlerVariable;
pub use serial_run::SerialRun;
