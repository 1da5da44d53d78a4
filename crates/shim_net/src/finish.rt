// Coming to the end.
ghost use Rattle.std.specs.Prelude.{◌⊎◌, OnOk};
ghost use Rattle.shim_net.specs.Progress.{GoesOn, AreAmong};
ghost use Rattle.shim_net.specs.Standings.{IsQuiescentNet, IsSpentNet};

use crate::net::Net;
use crate::standing::Standing;
use shim_base::NoMemory;
use shim_local::Local;

impl<L: Local> Net<L> {
    /// Brings the net to its end, whatever became of the work that it gave out: does the work of all open grants from
    /// their starts, and then all events, quiet steps in place, until no event is enabled or the budget is spent. A
    /// piece that comes back after `Ok` is a stranger. Running out of memory is the one refusal: what was done before
    /// it stays, and is in the journal.
    pub fn finish(&mut self) -> Result<(), NoMemory>
        ensures goes_on { GoesOn L.ops self.old self.new }
        ensures left { AreAmong self.new.grants self.old.grants }
        ensures quiescent_or_spent { OnOk result (IsQuiescentNet L.ops self.new ⊎ IsSpentNet L.ops self.new) }
    {
        self.redo_all()?;
        self.settle()?;
        while self.standing() == Standing::Running {
            self.step_next()?;
            self.settle()?;
        }
        Ok(())
    }
}
