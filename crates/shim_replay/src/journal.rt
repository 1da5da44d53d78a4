// A journal that was read.
ghost use Rattle.std.specs.Prelude.{◌≡◌};
ghost use Rattle.shim_laws_journals.specs.Ranges.{steps_in};
ghost use Rattle.shim_replay.specs.Entries.{entry_of};

use shim_base::List;
use shim_run_log::Entry;

/// The budget of a run in steps, and what was done in it.
#[derive(Drop)]
pub struct Journal {
    pub budget: u64,
    pub entries: List<Entry>,
}

/// How many steps an entry has.
pub(crate) fn steps_in(entry: &Entry) -> u64
    ensures { result ≡ steps_in (entry_of entry.now) }
{
    match entry {
        Entry::Quiet { path: _, steps } => *steps,
        Entry::Did(_) => 1,
    }
}
