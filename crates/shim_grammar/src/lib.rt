//! What the grammar comes to, read from the left: a stack of what must follow, one terminal at a time.
#![tactic(auto)]

/// What is proved of the grammar: no text has two programs, two faults, or one of each, and its beginning
/// determines its version.
pub mod laws;
mod punctuation;

pub use punctuation::Punctuation;
