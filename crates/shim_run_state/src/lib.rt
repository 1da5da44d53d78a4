//! A tree of processes kept as states and records, with what can happen next listed by number.
//!
//! Contracts see a tree of `shim_semantics`, as they do of `shim_tree::Tree`; at the same depth an event costs
//! the same in a tree of ten processes and of a hundred thousand.
#![tactic(auto)]

mod acting;
mod checking_out;
mod closing;
mod ended;
mod enqueueing;
mod enqueueing_all;
mod forking;
mod hints;
mod meeting;
mod poisoning;
mod process_lists;
mod quiescence;
mod run_state;
mod settling;
mod waits;

pub use run_state::RunState;
