//! A net: a tree of processes, the journal of what was done in it, and the grants of work that are open.
#![tactic(auto)]

mod absorb;
mod finish;
mod gate;
mod grant;
mod hints;
mod named;
mod net;
mod open_grant;
mod reading;
mod redo;
mod settle;
mod standing;
mod stepping;

pub use absorb::Absorbed;
pub use gate::{Gate, NoOpGate};
pub use net::Net;
pub use shim_run_log::Entry;
pub use standing::Standing;
