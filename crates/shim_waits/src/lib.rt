//! Why the processes of a blocked run wait, and a cycle of waits.
#![tactic(auto)]

mod by_path;
mod explained;
mod explanation;
mod gathering;
mod holding;
mod ring;
mod waiting;

pub use explained::{Explained, Wait, explain};
pub use explanation::holds;

/// Why a blocked run is blocked.
pub mod laws;
