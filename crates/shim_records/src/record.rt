// What is kept of a process beside its state.
ghost use Rattle.std.specs.Prelude.{◌≡◌, ◌≢◌, false, true};
ghost use Rattle.shim_laws_table.specs.Agrees.{free};
ghost use Rattle.shim_records.specs.Pairs.{fork_size, record_view};

use crate::pair::Pair;
use shim_base::Path;
use shim_local::Death;

/// What came of a process, or that the record is free.
#[derive(Clone, Copy)]
pub enum Status {
    Free,
    Live,
    /// Into so many.
    Forked(u32),
    Ended,
    Dead(Death),
}

/// Into how many a process has forked whose record has this status; 0 if it hasn't.
pub fn fork_size(status: Status) -> u32
    ensures { result ≡ fork_size status }
{
    match status {
        Status::Forked(count) => count,
        Status::Free | Status::Live | Status::Ended | Status::Dead(_) => 0,
    }
}

/// Whether the record is free.
pub fn is_free(place: &Record) -> bool
    ensures free { result ≡ true → record_view place.now ≡ free }
    ensures used { result ≡ false → record_view place.now ≢ free }
{
    match place.status {
        Status::Free => true,
        Status::Live | Status::Forked(_) | Status::Ended | Status::Dead(_) => false,
    }
}

/// What is kept of a process beside its state.
#[derive(Drop)]
pub struct Record {
    pub status: Status,
    /// The number of the first child of its fork; the others come after it.
    pub first: u32,
    /// The number of the process whose fork made it; none at the root.
    pub parent: Option<u32>,
    /// How many children of its fork have neither ended nor died.
    pub going_children: u32,
    pub path: Path,
    /// The counts of its fork's children, for each channel that it shares and gave to one of them.
    pub pairs: Vec<Pair>,
}
