//! Values that cases of the conformance program ask about: what one process does, over syntax or over compiled code,
//! what code keeps, and texts of values that were made by hand.
#![tactic(auto)]

mod beside;
mod code;
/// Reports of runs that no program has.
pub mod made_runs;
/// Texts of trees that no source has.
pub mod made_trees;
mod met;
mod places;
mod shared;
mod source;
mod tell;
mod tracing;

pub use source::{
    AfterSteps, Over, Question, beside_of, code_of, places_of, reply_of, same_across, same_of,
    throws_of,
};
