//! What each stop needs is there in each run of an accepted program: locations, streams and branches. Each exception
//! that is thrown has a place, or `main` throws it.
#![tactic(auto)]

/// What is proved of the units of an accepted program, and of the trees that its runs reach.
pub mod laws;
