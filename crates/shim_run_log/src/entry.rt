// What a journal of the events of a tree has.
use crate::event::Event;
use shim_base::Path;

/// One entry of a journal.
#[derive(Drop)]
pub enum Entry {
    /// The process of this path did so many quiet steps, one after another.
    Quiet { path: Path, steps: u64 },
    /// This event happened.
    Did(Event),
}
