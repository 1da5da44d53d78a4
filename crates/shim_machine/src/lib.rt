//! The machine that runs compiled code as a definition, and the laws that it steps as the definition of a process
//! does.
#![tactic(auto)]

/// What is proved of the machine.
pub mod laws;
