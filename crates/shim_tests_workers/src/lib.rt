//! Nets of small processes that workers run, for cases: one net in rounds, over a board or out of lanes, and several
//! nets beside each other; gates that watch the workers; and the calls of lanes.
#![tactic(auto)]

mod batches;
mod gates;
mod lanes;
mod runs;

pub use batches::{NetAsked, batch_text};
pub use gates::{Hold, WatchingGate};
pub use lanes::{one_lane_text, two_lanes_text};
pub use runs::{NetRun, Runner, run_text};
