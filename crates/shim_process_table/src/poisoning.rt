// A poison, one process after the other.
ghost use Rattle.shim_laws_table_events.specs.meetings.Sharers.{ListsSharers};
ghost use Rattle.shim_laws_table_events.specs.meetings.Poisons.{DiesOne, AllDie, AllDied};
ghost use Rattle.shim_process_table.specs.Poisoning.{IsKilledBy, CanPoison, PoisonsAt};
ghost use Rattle.shim_process_table.specs.Touching.{ChangesOnlyEach, ChangesOnlyOne};
ghost use Rattle.shim_process_table.specs.Changing.{IsChanged};

use crate::descent::FoundProcesses;
use crate::process_table::ProcessTable;
use shim_base::Chan;
use shim_local::{Death, Local};
use shim_records::{Status, count_off, kill_all, lower_all_labels};

impl<L: Local> ProcessTable<L> {
    /// The child with this number is poisoned on the channel: all that live there or below and share it die of the
    /// innermost label in force at the fork that made the child. That poison has to be enabled, `label` has to be
    /// that label, and `sharers` those which `sharers` finds from the child on. It takes no memory.
    pub fn poison(&mut self, number: u32, c: &Chan, label: u32, sharers: &FoundProcesses)
        requires can { CanPoison L.ops c.now.channel label number self.old }
        requires sharers { ListsSharers L.ops self.old c.now.channel number sharers.now }
        ensures died { AllDied L.ops c.now.channel label number self.old self.new }
        ensures moves { PoisonsAt L.ops c.now.channel number self.old self.new }
        ensures touches { ChangesOnlyEach sharers.now self.old self.new }
        ensures changes { IsChanged L.ops sharers.now self.old self.new }
    {
        self.kill_each(sharers, label);
    }

    // Each of these that lives dies of an exception with this label, if it has no handler for it.
    fn kill_each(&mut self, sharers: &FoundProcesses, label: u32)
        ensures die { AllDie L.ops label sharers.now self.old self.new }
        ensures touches { ChangesOnlyEach sharers.now self.old self.new }
    {
        for place in 0..sharers.numbers.len() {
            self.kill_at(sharers.numbers[place] as usize, label);
        }
    }

    // The process with this number dies of an exception with this label, if it lives and has no handler for it.
    fn kill_at(&mut self, at: usize, label: u32)
        ensures dies { DiesOne L.ops label at self.old self.new }
        ensures touches { ChangesOnlyOne at self.old self.new }
    {
        if !self.is_killed_by(at, label) {
            return;
        }
        self.records[at].status = Status::Dead(Death { label, given: None });
        let process = &self.states[at];
        kill_all(process, &mut self.records, at, u32::MAX);
        lower_all_labels(process, &mut self.records, at, label, u32::MAX);
        count_off(&mut self.records, at);
    }

    // Whether the process with this number lives and has no handler for the label.
    fn is_killed_by(&self, at: usize, label: u32) -> bool
        ensures { IsKilledBy L.ops label at self.now result }
    {
        if !self.lives(at) {
            return false;
        }
        label < self.states[at].base()
    }
}
