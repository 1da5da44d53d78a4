//! Several nets that are run beside each other, each by one worker.
#![tactic(auto)]

mod parts;
mod running;

pub use running::batch;
