//! One process over the syntax of its units: asked at what it stands, stepped, forked and joined.
#![tactic(auto)]

mod action;
pub mod count;
mod depth;
mod entry;
pub mod has_process;
mod initial_frame;
mod input;
pub mod labels;
pub mod next_action;
pub mod process;
pub mod put;
mod receiver;
mod same_frames;
mod same_locations;
mod same_runs;
mod same_stands;
pub mod stop;
pub mod throw_number;
pub mod trapped_at;
mod variable_actions;
mod walk;

pub use walk::Walk;
