//! What a run leaves, beside how its processes stand: its events and the entries of its journal, the values that
//! rendezvous gave, what was logged, who waits, and how many steps of its own each process did.
#![tactic(auto)]

mod entry;
mod event;
mod histories;
mod logs;
mod recent;
mod waits;
/// What is proved of entries that say how many steps processes did.
pub mod laws;
mod step_counts;

pub use entry::Entry;
pub use event::Event;
pub use histories::Histories;
pub use logs::logs_by_path;
pub use step_counts::StepCounts;
pub use waits::Waits;
