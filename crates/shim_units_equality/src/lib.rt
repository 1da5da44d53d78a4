//! When two programs in their units, or two channels, are the same as contracts see them.
#![tactic(auto)]

mod program;
mod same;
mod same_calls;
mod same_chans;
mod same_exprs;
mod same_stmts;

pub use program::same_program;
pub use same::{Same, same_all};
