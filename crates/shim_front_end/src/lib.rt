//! The front end: from the bytes of a source to its accepted program, or its first fault.
#![tactic(auto)]

mod fault;
mod read;

pub use fault::SourceFault;
pub use read::{read_program, read_source};
