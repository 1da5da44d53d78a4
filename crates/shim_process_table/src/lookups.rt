// Readers of one process, by its number. None takes memory.
ghost use Rattle.std.specs.Prelude.{◌≡◌, ℕ, Some, slice_get, length};
ghost use Rattle.shim_records.specs.declared.pair.Pair.{Pair as PairOf};
ghost use Rattle.shim_laws_table.specs.NodeStatus.{forks};
ghost use Rattle.shim_laws_table_events.specs.keeping.Tables.{HasProcessState};
ghost use Rattle.shim_process_table.specs.Lookups.{IsInUse, HasForkedAt, ChildrenAre, HasPair, HasPairAt, ParentIs};

use crate::process_table::ProcessTable;
use shim_base::{Chan, Path};
use shim_local::Local;
use shim_records::{Record, fork_size};

/// The number of the record's parent, if there is a record with that number.
pub(crate) fn parent_in(records: &[Record], number: u32) -> Option<u32>
    ensures { ParentIs records.now number result }
{
    let at = number as usize;
    if at >= records.len() {
        return None;
    }
    match records[at].parent {
        None => None,
        Some(above) => {
            if (above as usize) < records.len() {
                Some(above)
            } else {
                None
            }
        }
    }
}

impl<L: Local> ProcessTable<L> {
    /// How many records there are; all numbers lie below.
    pub fn len(&self) -> usize
        ensures { result ≡ length self.now.records }
    {
        self.records.len()
    }

    /// Lends the process with this number, which has to be in use.
    pub fn process(&self, number: u32) -> &L
        requires { IsInUse self.now number }
        ensures { slice_get self.now.states number ≡ Some result.now }
    {
        &self.states[number as usize]
    }

    /// Lends the path of the process with this number, which has to be in use.
    pub fn path(&self, number: u32) -> &Path
        requires { IsInUse self.now number }
        ensures { (l : L) → slice_get self.now.states number ≡ Some l → result.now ≡ L.ops.path l }
    {
        &self.records[number as usize].path
    }

    /// The number of the first child, and how many there are, of the process with this number, which has forked.
    pub fn children(&self, number: u32) -> (u32, u32)
        requires { HasForkedAt self.now number }
        ensures { (first n : ℕ) (l : L) → HasProcessState self.now number first l (forks n) → ChildrenAre result first n }
    {
        let fork = &self.records[number as usize];
        (fork.first, fork_size(fork.status))
    }

    /// Lends the channel of the pair in this place, of the fork of the process with this number.
    pub fn channel(&self, number: u32, pair: usize) -> &Chan
        requires { HasPairAt self.now number pair }
        ensures { (first n : ℕ) (l : L) (y : PairOf) → HasPair self.now number first n l pair y → result.now ≡ y.chan }
    {
        &self.records[number as usize].pairs[pair].chan
    }
}
