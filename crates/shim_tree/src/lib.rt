//! The tree of processes: its events, the first of them, what is seen of its processes, and what is read off
//! it in the end.
#![tactic(auto)]

mod act;
mod advance;
mod by_path;
mod child_counts;
mod doom;
mod effects;
mod fill;
mod in_place;
mod listing;
mod node_ref;
mod node_status;
mod own_step;
mod poison;
mod quiet;
mod reading;
mod ready;
mod receive;
mod seek;
mod standing;
mod tree;
mod view;

pub use node_ref::NodeRef;
pub use tree::Tree;
pub use view::ProcessView;

/// What is proved of trees, their events, and every order of these, whatever the processes are.
pub mod laws;
