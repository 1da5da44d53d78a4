//! Lanes of numbered pieces of work. Each lane has a deque of its own, to which it alone pushes, and takes
//! pieces from the front of its own deque and of those of all other lanes.
#![tactic(auto)]

mod lane;
pub mod laws;
mod making;
mod other_deque;
mod own_deque;
mod steps;
mod view;

pub use lane::{Lane, Piece};
pub use making::lanes;
pub use view::View;
