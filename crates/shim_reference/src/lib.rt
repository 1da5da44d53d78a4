//! What a program means: the run that always does the first event, and what is read off its end.
#![tactic(auto)]

/// What is proved of the trees that runs of a program reach.
pub mod laws;
mod meaning;
mod naming;
mod run;

pub use meaning::{meaning_of, reference};
pub use naming::named;
