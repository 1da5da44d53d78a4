//! The sharing rule over a resolved program, and the program that obeys it in its units.
#![tactic(auto)]

mod alias;
mod fault;
mod fork;
mod found;
pub mod laws;
mod lift;
mod offence;
mod program;
mod refusal;
mod units;

pub use fault::ShareFault;
pub use program::accept;
pub use shim_units::{Accepted, Arg, UBranch, UCall, UStmt, UWhat, Unit};
