// Giving out work.
ghost use Rattle.std.specs.Prelude.{◌≡◌, ◌≤◌, IfOk, OnErr, MatchOption};
ghost use Rattle.shim_net.specs.Nets.{IsOpen};
ghost use Rattle.shim_net.specs.Granting.{GivesNone, Grants};

use crate::net::{Net, left_in};
use crate::open_grant::OpenGrant;
use shim_base::NoMemory;
use shim_local::{Local, Parcel};

impl<L: Local> Net<L> {
    /// Gives out work of a process that is before a quiet step and isn't out: `most` steps, which
    /// are at least 1, or what is left of the budget where that is less. `slot` and `round` are the
    /// caller's numbers for the piece: they come back with it and distinguish the open grants, so no open grant
    /// may have both. `pid` is the number of the process in this net, 0 exactly for the root; no
    /// clause says that all its pieces have the same. `None` exactly where no process can be given out, or nothing is
    /// left.
    /// Running out of memory changes nothing.
    pub fn grant(&mut self, most: u64, slot: u64, round: u64) -> Result<Option<Parcel<L>>, NoMemory>
        requires most { 1 ≤ most }
        requires numbers { IsOpen slot round self.old.grants → ⊥ }
        ensures given { IfOk result (λ p. MatchOption p (GivesNone L.ops self.old self.new) (λ p. (p.slot ≡ slot) × (p.round ≡ round) × Grants L.ops self.old self.new most slot round p.pid p.start p.grant)) }
        ensures err { OnErr result (self.new ≡ self.old) }
    {
        let left = left_in(&self.tree, self.budget, self.reserved);
        if left == 0 {
            return Ok(None);
        }
        let Some(number) = self.tree.next_quiet() else {
            return Ok(None);
        };
        let grant = most.min(left);
        self.journal.reserve(self.grants.len() + 1)?;
        self.grants.reserve(1)?;
        let given = OpenGrant::new(self.tree.process(number), number, slot, round, grant)?;
        let parcel = given.parcel()?;
        self.tree.check_out(number);
        self.grants.push_reserved(given);
        self.reserved += grant;
        Ok(Some(parcel))
    }
}
