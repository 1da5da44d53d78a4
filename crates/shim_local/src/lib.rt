//! One process as a value that can be asked and stepped, a piece of its work as a value of its own, and
//! what is read off a run that has ended.
#![tactic(auto)]

mod death;
mod ended;
mod local;
mod parcel;

pub use death::Death;
pub use ended::{Ended, History, Log, LogWhat, Outcome, OwnSteps, WaitAt};
pub use local::{Forked, Local, Quiet, Stop};
pub use parcel::{Finished, Parcel, work};
