// How a net stands, and what is read off it at its end.
ghost use Rattle.std.specs.Prelude.{◌≡◌, ◌⊎◌, IfOk};
ghost use Rattle.shim_semantics.specs.Endings as endings;
ghost use Rattle.shim_laws_replay.specs.Ends.{AgreesWithMeaning};
ghost use Rattle.shim_laws_replay.specs.ReadOff.{IsReadOffAs};
ghost use Rattle.shim_net.specs.Nets.{IsNet};
ghost use Rattle.shim_net.specs.Standings.{StandsAs, IsQuiescentNet, IsSpentNet};

use crate::net::Net;
use shim_base::NoMemory;
use shim_local::{Ended, Local};

/// How a net stands.
#[derive(Clone, Copy, Debug, PartialEq, Eq)]
pub enum Standing {
    /// A grant is open, or an event is enabled and a step of the budget is left.
    Running,
    /// No grant is open, and no event is enabled.
    Quiescent,
    /// No grant is open, the steps are the budget, and an event is enabled.
    Spent,
}

impl<L: Local> Net<L> {
    /// How it stands. Its clauses say, too, what its type keeps. It takes no memory.
    pub fn standing(&self) -> Standing
        ensures standing_is { StandsAs L.ops self.now result }
        ensures keeps { IsNet L.ops self.now }
    {
        if !self.grants.is_empty() {
            return Standing::Running;
        }
        if self.tree.quiescent() {
            return Standing::Quiescent;
        }
        if self.tree.steps() == self.budget {
            return Standing::Spent;
        }
        Standing::Running
    }

    /// What is read off it at its end, where its standing isn't `Running`, and how that compares with
    /// the meaning.
    pub fn ended(&self) -> Result<Ended, NoMemory>
        requires { IsQuiescentNet L.ops self.now ⊎ IsSpentNet L.ops self.now }
        ensures ended { IfOk result (λ ended. ended ≡ endings.ended L.ops self.now.tree) }
        ensures agrees { AgreesWithMeaning L.ops self.now.root self.now.budget self.now.tree }
        ensures read_off { IsReadOffAs L.ops self.now.root self.now.budget self.now.tree }
    {
        self.tree.ended(self.budget)
    }
}
