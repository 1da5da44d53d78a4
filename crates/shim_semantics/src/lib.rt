//! What a tree of processes means: its events and their order, what is read off it, and what holds of each tree that
//! a run reaches.
#![tactic(auto)]

/// What is proved of the events of a tree, whatever its processes are.
pub mod laws;
