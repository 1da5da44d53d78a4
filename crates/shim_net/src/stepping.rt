// Quiet steps of a process at home, in place.
ghost use Rattle.std.specs.Prelude.{◌≡◌, ◌≤◌, ◌<◌, ◌+◌, map, vec_len, vec_capacity, IfOk, OnOk, OnErr};
ghost use Rattle.shim_semantics.specs.Trees as trees;
ghost use Rattle.shim_net.specs.Entries.{entry_of};
ghost use Rattle.shim_net.specs.Absorbing.{with_piece};
ghost use Rattle.shim_net.specs.Stepping.{IsNextHome, StepsHome};
ghost use Rattle.shim_net.specs.Progress.{GoesOn, CanGive};

use crate::gate::{Gate, NoOpGate};
use crate::net::{Net, left_in};
use shim_base::{NoMemory, Path};
use shim_local::{Local, Quiet};
use shim_run_log::Entry;

// Adds the entry of so many quiet steps of the process of this path, if there are any, for which there is
// room.
fn add_steps(journal: &mut Vec<Entry>, path: Path, steps: u64)
    requires { vec_len journal.old < vec_capacity journal.old }
    ensures items { map entry_of journal.new.items ≡ with_piece path steps (map entry_of journal.old.items) }
    ensures room { (vec_capacity journal.new ≡ vec_capacity journal.old) × (vec_len journal.new ≤ vec_len journal.old + 1) }
{
    if steps > 0 {
        journal.push_reserved(Entry::Quiet { path, steps });
    }
}

impl<L: Local> Net<L> {
    /// The number of a process that is before a quiet step and isn't out: the one that `step`,
    /// `enter_and_step` or `grant` would take next. `None` exactly where there is none, or nothing is left of the
    /// budget. It takes no memory.
    pub fn next_home(&mut self) -> Option<u64>
        ensures { IsNextHome L.ops self.old self.new result }
    {
        if left_in(&self.tree, self.budget, self.reserved) == 0 {
            return None;
        }
        let number = self.tree.next_quiet()?;
        Some(number as u64)
    }

    /// A process at home does quiet steps in place: up to `most`, which are at least 1, or what is left of the budget
    /// where that is less. They are one entry of the journal, and no grant changes. It does fewer only where it comes
    /// to another stop, or memory was refused for a further step (`short`). `None` exactly where no process is at
    /// home, or nothing is left. Running out of memory before the first step changes nothing.
    pub fn step(&mut self, most: u64) -> Result<Option<Quiet>, NoMemory>
        requires most { 1 ≤ most }
        ensures ok { IfOk result (λ burst. StepsHome L.ops self.old self.new most burst) }
        ensures err { OnErr result (self.new ≡ self.old) }
    {
        self.enter_and_step(most, &NoOpGate::new())
    }

    /// Enters the gate with the number of the process that is next, and then does as `step` does. Where `step` would
    /// answer `None` the gate isn't entered.
    pub fn enter_and_step<G: Gate>(
        &mut self,
        most: u64,
        gate: &G,
    ) -> Result<Option<Quiet>, NoMemory>
        requires most { 1 ≤ most }
        ensures ok { IfOk result (λ burst. StepsHome L.ops self.old self.new most burst) }
        ensures err { OnErr result (self.new ≡ self.old) }
    {
        let left = left_in(&self.tree, self.budget, self.reserved);
        if left == 0 {
            return Ok(None);
        }
        let Some(number) = self.tree.next_quiet() else {
            return Ok(None);
        };
        // with room for an entry of each open grant after it
        self.journal.reserve(self.grants.len() + 1)?;
        let path = self.tree.path(number).copy()?;
        gate.enter(number as u64, L::COMPILED);
        let burst = self.tree.step(number, most.min(left));
        add_steps(&mut self.journal, path, burst.taken);
        Ok(Some(burst))
    }

    // The process that is next at home, of which there is one, does quiet steps in place, up to what is left of
    // the budget. Where memory runs out for a step, those before it stay done, and they are in the journal.
    pub(crate) fn step_next(&mut self) -> Result<(), NoMemory>
        requires can { CanGive L.ops self.old }
        ensures goes_on { GoesOn L.ops self.old self.new }
        ensures same { self.new.grants ≡ self.old.grants }
        ensures more { OnOk result (trees.steps self.old.tree < trees.steps self.new.tree) }
    {
        match self.step(u64::MAX)? {
            None => Ok(()), // excluded, since something can be given out
            Some(burst) => {
                if burst.short {
                    return Err(NoMemory);
                }
                Ok(())
            }
        }
    }
}
