// What can be read of a net at any time. None of this takes memory.
ghost use Rattle.std.specs.Prelude.{◌≡◌, ◌≢◌, ◌↔◌, None, [], map, IsTrue, IfSome};
ghost use Rattle.std.specs.Option.{option_copied};
ghost use Rattle.shim_semantics.specs.Trees as trees;
ghost use Rattle.shim_semantics.specs.Endings as endings;
ghost use Rattle.shim_laws_replay.specs.Nets.{NamesNoQuietStep};
ghost use Rattle.shim_net.specs.Entries.{entry_of};
ghost use Rattle.shim_net.specs.Nets.{IsOpen};

use crate::net::Net;
use crate::open_grant::is_open;
use shim_base::Chan;
use shim_local::Local;
use shim_run_log::Entry;

impl<L: Local> Net<L> {
    /// Whether an open grant has this slot and round.
    pub fn is_out(&self, slot: u64, round: u64) -> bool
        ensures { IsTrue result ↔ IsOpen slot round self.now.grants }
    {
        is_open(self.grants.as_slice(), slot, round)
    }

    /// How many events led to its tree.
    pub fn steps(&self) -> u64
        ensures { result ≡ trees.steps self.now.tree }
    {
        self.tree.steps()
    }

    /// What was done in it, entry by entry. An entry of one event is no quiet step.
    pub fn journal(&self) -> &[Entry]
        ensures entries { map entry_of result.now ≡ self.now.journal }
        ensures events { NamesNoQuietStep L.ops self.now.root self.now.journal }
    {
        self.journal.as_slice()
    }

    /// The values that the rendezvous on the channel gave; `None` exactly where it had none.
    pub fn history(&self, c: &Chan) -> Option<&[i64]>
        ensures values { option_copied result ≡ endings.history_at c.now.channel self.now.tree }
        ensures none { (option_copied result ≡ None) ↔ (endings.values_on c.now.channel self.now.tree ≡ []) }
        ensures some { IfSome (option_copied result) (λ values. values ≢ []) }
    {
        self.tree.history(c)
    }
}
