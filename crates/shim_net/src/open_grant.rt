// Grants that are open.
ghost use Rattle.std.specs.Prelude.{◌≡◌, ◌<◌, ◌↔◌, ℕ, IsTrue, IfOk, MatchOption, length, slice_index_or};
ghost use Rattle.std.specs.List.{All};
ghost use Rattle.shim_net.specs.Nets.{OpenGrant as GrantOf, HasNumbers, IsOpen};
ghost use Rattle.shim_net.specs.Absorbing.{Matches};

use shim_base::{NoMemory, Path};
use shim_local::{Finished, Local, Parcel};
use std::marker::Model;

/// A grant that is open: its numbers, the most steps, and the process as it is in the tree. The path is
/// kept for the entry that will have the steps, so that closing a grant takes no memory.
#[derive(Drop)]
pub(crate) struct OpenGrant<L: Local> {
    number: u32,
    slot: u64,
    round: u64,
    most: u64,
    path: Path,
    start: L,
}

impl<L: Local> Model for OpenGrant<L> {
    ghost use Rattle.std.specs.Prelude.{◌≡◌};
    ghost use Rattle.shim_net.specs.Nets.{OpenGrant as GrantOf};

    ghost Value = { GrantOf L };

    ghost view = { λ g. record { pid = g.number; slot = g.slot; round = g.round; most = g.most; start = g.start } };

    ghost invariant = { λ g. g.path ≡ L.ops.path g.start };
}

impl<L: Local> OpenGrant<L> {
    /// A grant of so many steps to the process of this number, in this state.
    pub(crate) fn new(
        process: &L,
        number: u32,
        slot: u64,
        round: u64,
        most: u64,
    ) -> Result<Self, NoMemory>
        ensures { IfOk result (λ g. g ≡ record { pid = number; slot = slot; round = round; most = most; start = process.now }) }
    {
        Ok(OpenGrant {
            number,
            slot,
            round,
            most,
            path: process.path().copy()?,
            start: process.copy()?,
        })
    }

    /// The work that was granted.
    pub(crate) fn parcel(&self) -> Result<Parcel<L>, NoMemory>
        ensures numbers { IfOk result (λ p. (p.pid ≡ self.now.pid) × (p.slot ≡ self.now.slot) × (p.round ≡ self.now.round)) }
        ensures work { IfOk result (λ p. (p.start ≡ self.now.start) × (p.grant ≡ self.now.most)) }
    {
        Ok(Parcel {
            slot: self.slot,
            round: self.round,
            pid: self.number as u64,
            start: self.start.copy()?,
            work: self.start.copy()?,
            grant: self.most,
        })
    }

    /// The most steps.
    pub(crate) fn most(&self) -> u64
        ensures { result ≡ self.now.most }
    {
        self.most
    }

    /// The number of its process.
    pub(crate) fn number(&self) -> u32
        ensures { result ≡ self.now.pid }
    {
        self.number
    }

    /// The path of its process.
    pub(crate) fn into_path(self) -> Path
        ensures { result ≡ L.ops.path self.start }
    {
        let OpenGrant { path, .. } = self;
        path
    }

    // Whether it has this slot and round.
    fn has_numbers(&self, slot: u64, round: u64) -> bool
        ensures { IsTrue result ↔ HasNumbers slot round self.now }
    {
        self.slot == slot && self.round == round
    }

    // Whether the finished piece is of this grant.
    fn is_of(&self, finished: &Finished<L>) -> bool
        ensures { IsTrue result ↔ Matches finished.now.pid finished.now.slot finished.now.round finished.now.grant finished.now.start self.now }
    {
        let numbers = self.number as u64 == finished.pid && self.slot == finished.slot;
        let more = self.round == finished.round && self.most == finished.grant;
        if numbers && more {
            return self.start.same(&finished.start);
        }
        false
    }
}

/// Whether a grant of this slot and round is open.
pub(crate) fn is_open<L: Local>(grants: &[OpenGrant<L>], slot: u64, round: u64) -> bool
    ensures { IsTrue result ↔ IsOpen slot round grants.now }
{
    for at in 0..grants.len() {
        if grants[at].has_numbers(slot, round) {
            return true;
        }
    }
    false
}

/// The place of the grant of which the finished piece is.
pub(crate) fn place_of<L: Local>(grants: &[OpenGrant<L>], finished: &Finished<L>) -> Option<usize>
    ensures { MatchOption result
        (All (λ g. Matches finished.now.pid finished.now.slot finished.now.round finished.now.grant finished.now.start g → ⊥) grants.now)
        (λ i. (i < length grants.now) × ((d : GrantOf L) → Matches finished.now.pid finished.now.slot finished.now.round finished.now.grant finished.now.start (slice_index_or grants.now i d))) }
{
    for at in 0..grants.len() {
        if grants[at].is_of(finished) {
            return Some(at);
        }
    }
    None
}
