//! Trees of whole programs, as text for tests of them: the events that can happen, by name, runs in other orders, and
//! why those that are blocked wait; and journals that are read and written again.
#![tactic(auto)]

mod changes;
mod events;
mod journals;
mod orders;
mod trees;
mod waits;

pub use changes::Change;
pub use events::events_of;
pub use journals::journal_of;
pub use orders::{Order, report_of};
pub use waits::{Why, why_of};
