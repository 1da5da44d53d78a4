//! What a process keeps its variables in, and what goes from one process or unit to another.
#![tactic(auto)]

pub mod argument;
pub mod argument_fault;
pub mod arguments;
pub mod location;
pub mod locations;
pub mod ownership;
pub mod passing;
pub mod remainder;
pub mod serial_runs;
pub mod sharers;
pub mod slots;
pub mod streams;
pub mod value;
