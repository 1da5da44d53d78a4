//! What a journal of a tree's events comes to.
//!
//! An entry of a journal is some quiet steps of one process, or one event. The replay of a journal is
//! the tree to which it leads. A sound tree has what every tree has that a run reaches from its start
//! (`shim_semantics::laws::holders`).
#![tactic(auto)]

/// Journals lead to trees of the language, and those that come to an end agree.
pub mod laws;
