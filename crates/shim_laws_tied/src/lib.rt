//! What holds of trees of two kinds of process that are tied.
//!
//! Two kinds are tied by a relation of their states that every method of `Local` keeps. A sound tree has
//! what every tree has that a run reaches from its start (`shim_semantics::laws::holders`).
#![tactic(auto)]

/// Tied trees do the same, whatever the two kinds are.
pub mod laws;
