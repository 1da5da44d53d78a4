//! Where a process is in the texts of its units, and where it goes from there.
#![tactic(auto)]

pub mod call_stack;
pub mod cursor;
pub mod frame;
pub mod handler;
pub mod successors;
pub mod text;
