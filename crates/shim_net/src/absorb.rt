// Taking in work that was done.
ghost use Rattle.std.specs.Prelude.{◌≡◌, ◌<◌, ◌≤◌, ℕ, true, false, length, slice_index_or};
ghost use Rattle.std.specs.List.{All};
ghost use Rattle.shim_local.specs.Quiets.{QuietSteps};
ghost use Rattle.shim_net.specs.Nets.{OpenGrant as GrantOf};
ghost use Rattle.shim_net.specs.Absorbing.{Matches, Closes, Absorbs, OnAbsorbed};

use crate::net::Net;
use crate::open_grant::place_of;
use shim_local::{Finished, Local};
use shim_run_log::Entry;

/// What came of a finished piece that was brought back.
#[derive(Drop)]
pub enum Absorbed<F> {
    /// It was taken: its grant is closed, and its steps are in the tree and the journal.
    Taken,
    /// It was taken, and memory had been refused for a further step.
    Short,
    /// It is of no grant that is open, and comes back.
    Stranger(F),
}

impl<L: Local> Net<L> {
    /// Takes in a piece of work that is done, which closes its grant. `Stranger` exactly where no open
    /// grant has its numbers, its grant and its start, and then nothing changes. It takes no memory.
    pub fn absorb(&mut self, finished: Finished<L>) -> Absorbed<Finished<L>>
        ensures { OnAbsorbed
            ((finished.short ≡ false) × Absorbs L.ops self.old self.new finished.pid finished.slot finished.round finished.grant finished.start finished.used)
            ((finished.short ≡ true) × Absorbs L.ops self.old self.new finished.pid finished.slot finished.round finished.grant finished.start finished.used)
            (λ f. (f ≡ finished) × (self.new ≡ self.old) × All (λ g. Matches finished.pid finished.slot finished.round finished.grant finished.start g → ⊥) self.old.grants)
            result }
    {
        let Some(at) = place_of(self.grants.as_slice(), &finished) else {
            return Absorbed::Stranger(finished);
        };
        let Finished {
            used,
            short,
            last,
            ..
        } = finished;
        self.close(at, used, last);
        if short {
            return Absorbed::Short;
        }
        Absorbed::Taken
    }

    /// Closes the grant in this place, with so many steps, which led its process to this state.
    pub(crate) fn close(&mut self, at: usize, used: u64, last: L)
        requires there { at < length self.old.grants }
        requires steps { (d : GrantOf L) → QuietSteps L.ops used (slice_index_or self.old.grants at d).start last }
        requires most { (d : GrantOf L) → used ≤ (slice_index_or self.old.grants at d).most }
        ensures { Closes L.ops self.old self.new at used }
    {
        let grant = self.grants.remove(at);
        self.reserved -= grant.most();
        self.tree.check_in(grant.number(), last, used);
        if used == 0 {
            return;
        }
        self.journal.push_reserved(Entry::Quiet {
            path: grant.into_path(),
            steps: used,
        });
    }
}
