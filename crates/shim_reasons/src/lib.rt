//! Why a blocked run is blocked, as text.
#![tactic(auto)]

mod reasons;

pub use reasons::push_reasons;
