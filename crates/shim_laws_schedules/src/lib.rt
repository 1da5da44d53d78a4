//! What holds of every order of the events of a tree.
//!
//! An event is enabled where it can happen. A sound tree has what every tree has that a run reaches from
//! its start (`shim_semantics::laws::holders`). The walk is the order in which `Tree::enabled` lists events.
#![tactic(auto)]

/// Whatever the order of events: they may change places, runs agree, and what is caught was thrown. The walk
/// lists no event twice.
pub mod laws;
