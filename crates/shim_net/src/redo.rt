// Doing once more the work that was given out.
ghost use Rattle.std.specs.Prelude.{◌≡◌, [], IfOk, OnOk, OnErr};
ghost use Rattle.shim_net.specs.Absorbing.{RedoesOne, RedoesSome};
ghost use Rattle.shim_net.specs.Progress.{GoesOn, AreAmong};

use crate::net::Net;
use shim_base::NoMemory;
use shim_local::{Finished, Local, work};

impl<L: Local> Net<L> {
    /// Does the work of an open grant from its start, and takes it in; false exactly where no grant is
    /// open. Running out of memory changes nothing.
    pub fn redo(&mut self) -> Result<bool, NoMemory>
        ensures ok { IfOk result (λ more. RedoesOne L.ops self.old self.new more) }
        ensures err { OnErr result (self.new ≡ self.old) }
    {
        let Some(grant) = self.grants.get(0) else {
            return Ok(false);
        };
        let finished = work(grant.parcel()?);
        let Finished {
            used,
            short,
            last,
            ..
        } = finished;
        if short {
            return Err(NoMemory);
        }
        self.close(0, used, last);
        Ok(true)
    }

    /// Does the work of all open grants, each from its start, and takes it in. Where memory runs out, the grants
    /// whose work was done stay closed, and the others stay open.
    pub fn redo_all(&mut self) -> Result<(), NoMemory>
        ensures redoes { RedoesSome L.ops self.old self.new }
        ensures goes_on { GoesOn L.ops self.old self.new }
        ensures left { AreAmong self.new.grants self.old.grants }
        ensures home { OnOk result (self.new.grants ≡ []) }
    {
        while self.redo()? {}
        Ok(())
    }
}
