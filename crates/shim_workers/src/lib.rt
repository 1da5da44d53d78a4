//! A net run by several workers: work is given out, done on threads, and taken back, in rounds, over a
//! board from which each worker claims its work, or out of lanes from which workers steal.
#![tactic(auto)]

mod assignment;
mod at_home;
mod collecting;
mod driving;
mod giving;
mod handing_out;
mod in_place;
mod in_rounds;
mod in_threads;
mod lengths;
mod load;
mod over_board;
mod over_lanes;
mod pieces;
mod scheduling;
mod shared_state;
mod start;
mod stealing;
mod taking;
mod worker;

pub use driving::{drive, drive_steal};
pub use in_rounds::rounds;
pub use load::Load;
pub use shim_net::{Gate, NoOpGate};
