//! Where the input and the value of a channel come from in a tree of the processes of a program: one process at most
//! has the input, and each channel at which a process waits has its own variable somewhere.
#![tactic(auto)]

/// What is proved of the trees that a program comes to.
pub mod laws;
