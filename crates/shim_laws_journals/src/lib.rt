//! When a recorded journal is accepted, at which line another one is refused, and what an accepted one comes to.
#![tactic(auto)]

/// At most one answer is right for a journal. The tree of an accepted journal agrees with the meaning.
/// The journal of a net is accepted where no event is enabled in the net's tree, or the budget is spent.
pub mod laws;
