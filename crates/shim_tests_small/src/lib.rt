//! A small process, for tests of what runs processes.
#![tactic(auto)]

#[cfg(test)]
mod pieces;
mod small;

pub use small::{Branch, Small, Step};
