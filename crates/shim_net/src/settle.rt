// Doing all events but quiet steps.
ghost use Rattle.std.specs.Prelude.{◌≡◌, ◌<◌, ◌+◌, ◌⊎◌, ℕ, IfOk, OnOk, OnErr};
ghost use Rattle.shim_semantics.specs.Trees.{steps};
ghost use Rattle.shim_net.specs.Nets.{reserved_in};
ghost use Rattle.shim_net.specs.Settling.{RestsButForQuiet, SettlesOne, Settles};

use crate::net::Net;
use shim_base::NoMemory;
use shim_local::Local;
use shim_run_log::Entry;

impl<L: Local> Net<L> {
    /// Does enabled events other than quiet steps, until none is enabled, or all that is left of the budget is
    /// reserved, and answers how many. Where memory runs out, the events that were done stay, and are in the journal.
    pub fn settle(&mut self) -> Result<u64, NoMemory>
        ensures did { IfOk result (λ n. Settles L.ops self.old self.new n) }
        ensures end { OnOk result (RestsButForQuiet L.ops self.new.tree ⊎ (steps self.new.tree + reserved_in self.new.grants ≡ self.new.budget)) }
        ensures err { OnErr result ((n : ℕ) × Settles L.ops self.old self.new n) }
    {
        let left = self.unreserved();
        for done in 0..left {
            if !self.settle_one()? {
                return Ok(done);
            }
        }
        Ok(left)
    }

    // Does an enabled event that is no quiet step; false where there is none.
    fn settle_one(&mut self) -> Result<bool, NoMemory>
        requires room { steps self.old.tree + reserved_in self.old.grants < self.old.budget }
        ensures ok { IfOk result (λ did. SettlesOne L.ops self.old self.new did) }
        ensures err { OnErr result (self.new ≡ self.old) }
    {
        // with room for an entry of each open grant after it
        self.journal.reserve(self.grants.len() + 1)?;
        match self.tree.settle_one()? {
            None => Ok(false),
            Some(event) => {
                self.journal.push_reserved(Entry::Did(event));
                Ok(true)
            }
        }
    }
}
