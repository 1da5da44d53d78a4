//! The sources that are made to measure runs: one text for each kind and size.
#![tactic(auto)]

mod kind;
mod sources;

pub use kind::Kind;
pub use sources::generate;
