//! A tree of processes as states and records side by side.
//!
//! Contracts say how the tree moves that the records show: `shim_laws_table` says which one that is.
#![tactic(auto)]

mod acting;
mod closing;
mod descent;
mod due;
mod forking;
mod free_blocks;
mod lending;
mod looking;
mod lookups;
mod meeting;
mod naming;
mod poisoning;
mod process_table;
mod propagating;
mod queue;
mod queues;
mod stepping;
mod terminating;

pub use acting::Thrown;
pub use closing::CloseOutcome;
pub use descent::FoundProcesses;
pub use due::Due;
pub use forking::{Fork, ForkOutcome};
pub use process_table::ProcessTable;
pub use propagating::Requeue;
pub use queue::Queue;
