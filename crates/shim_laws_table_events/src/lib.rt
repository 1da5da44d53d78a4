//! What states and records side by side keep of the tree that they show, event by event, and at which records an
//! event may have become possible. Laws alone: no code calls it.
#![tactic(auto)]

/// What records keep at each event, and where the next one is looked for.
pub mod laws;
