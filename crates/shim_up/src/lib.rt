//! A program as one of version 2 of the text, and a program with its identifiers replaced.
#![tactic(auto)]

mod renaming;
mod version_2;

pub use version_2::up;
