//! One process over the compiled code of its units: asked at what it stands, stepped, forked and joined.
#![tactic(auto)]

mod action;
mod body;
mod branches;
mod burst;
mod computing;
mod cost;
mod fused;
mod instrs;
pub mod laws;
mod machine;
mod need;
mod prepared;
mod putting;
mod register_eval;
mod register_stack;
mod restoring;
mod resuming;
mod return_stack;
mod runs;
mod stack;
mod stops;
mod unit_code;

pub use body::Body;
