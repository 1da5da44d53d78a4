// A process's state and record, lent by its number.
ghost use Rattle.std.specs.Prelude.{◌≡◌, slice_get};
ghost use Rattle.std.specs.Option.{option_copied};

use crate::process_table::ProcessTable;
use shim_local::Local;
use shim_records::Record;

impl<L: Local> ProcessTable<L> {
    /// The state with this number, if there is one. That of a record which is free means nothing.
    pub fn state(&self, number: usize) -> Option<&L>
        ensures { option_copied result ≡ slice_get self.now.states number }
    {
        self.states.get(number)
    }

    /// The record with this number, if there is one.
    pub fn record(&self, number: usize) -> Option<&Record>
        ensures { option_copied result ≡ slice_get self.now.records number }
    {
        self.records.get(number)
    }
}
