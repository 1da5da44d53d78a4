//! Nets of small processes, for cases: what each call of a net answers, one after another, and what is told in the
//! end.
#![tactic(auto)]

mod calls;
mod starting;
mod telling;

pub use calls::{Call, Change, answers_of, records_after};
pub use starting::start;
