//! How flat records represent a tree of processes.
//!
//! A record has a process's state, its status, and the number of its first child; a fork's record has
//! counts of its children beside that, for each channel that they share. A sound tree has what every tree
//! has that a run reaches from its start (`shim_semantics::laws::holders`).
#![tactic(auto)]

/// The states and statuses of a tree, place by place, and the records that have them.
pub mod seen;
/// What forks count of their children, and how the counts follow an event up the tree.
pub mod counts;
/// What can happen, read off records and their counts.
pub mod enabled;
/// The tree that records represent, as a function of them.
pub mod represented_tree;
