// What a variable is kept in.
ghost use Rattle.std.specs.Prelude.{◌≡◌, IfOk};
ghost use Rattle.shim_base.specs.Value.{stored};
ghost use Rattle.shim_process.specs.Locations.{Own, Copy, is_own};
ghost use Rattle.shim_locations.specs.Changes.{kept_location, given_back, with_stored};
ghost use Rattle.shim_locations.specs.Ownerships.{ownership_of};

use crate::ownership::{Ownership, is_own, kept, restored};
use shim_base::{Chan, NoMemory, Ty, store};
use std::marker::Model;

/// What a variable is kept in, with the channel by which processes share it.
#[derive(Drop)]
pub struct Location {
    chan: Chan,
    value: i64,
    // beside each other, so that they take one word
    ty: Ty,
    ownership: Ownership,
}

impl Model for Location {
    ghost use Rattle.shim_process.specs.Locations.{Location};
    ghost use Rattle.shim_locations.specs.Ownerships.{ownership_of};

    ghost Value = { Location };

    ghost view = { λ c. record { channel = c.chan; ty = c.ty; value = c.value; ownership = ownership_of c.ownership } };
}

impl Location {
    /// A channel's own variable, with a value that is stored by its type.
    pub fn new(chan: Chan, ty: Ty, value: i64) -> Location
        ensures { result ≡ record { channel = chan; ty = ty; value = stored ty value; ownership = Own } }
    {
        Location {
            chan,
            ty,
            value: store(ty, value),
            ownership: Ownership::Own,
        }
    }

    pub fn chan(&self) -> &Chan
        ensures { result.now ≡ self.now.channel }
    {
        &self.chan
    }

    /// The type by which it is stored.
    pub fn ty(&self) -> Ty
        ensures { result ≡ self.now.ty }
    {
        self.ty
    }

    pub fn value(&self) -> i64
        ensures { result ≡ self.now.value }
    {
        self.value
    }

    /// What it is to its channel.
    pub fn ownership(&self) -> Ownership
        ensures { ownership_of result ≡ self.now.ownership }
    {
        self.ownership
    }

    /// Whether it is its channel's own variable and isn't with a child.
    pub fn own(&self) -> bool
        ensures { result ≡ is_own self.now.ownership }
    {
        is_own(self.ownership)
    }

    // By any type. It stays a call: within `set` its jump by the type would take the place of the test there.
    #[inline(never)]
    fn set_by_type(&mut self, value: i64)
        ensures { self.new ≡ with_stored value self.old }
    {
        self.value = store(self.ty, value);
    }

    /// The value is stored by its type.
    #[inline(always)]
    pub fn set(&mut self, value: i64)
        ensures { self.new ≡ with_stored value self.old }
    {
        match self.ty {
            // Most variables are of this type: a test of it alone is cheaper than a jump by all types.
            Ty::Int32 => self.value = store(Ty::Int32, value),
            _ => self.set_by_type(value),
        }
    }

    /// A branch takes it by reference: if it is its channel's own variable, it is lent.
    pub fn lend(&mut self)
        ensures { self.new ≡ kept_location self.old }
    {
        self.ownership = kept(self.ownership);
    }

    /// The value of another one comes back. If this one is lent and the other is the channel's own variable, this
    /// one is that again.
    pub fn restore_from(&mut self, other: &Location)
        ensures { self.new ≡ given_back other.now self.old }
    {
        self.value = other.value;
        self.ownership = restored(other.ownership, self.ownership);
    }

    /// A variable of this type on the same channel, which isn't the channel's own.
    pub fn pass(&self, ty: Ty) -> Result<Location, NoMemory>
        ensures { IfOk result (λ location. location ≡ record self.now { ty = ty; value = stored ty self.now.value; ownership = Copy }) }
    {
        Ok(Location {
            chan: self.chan.copy()?,
            ty,
            value: store(ty, self.value),
            ownership: Ownership::Copy,
        })
    }

    /// Another one with this ownership.
    pub fn with_ownership(&self, ownership: Ownership) -> Result<Location, NoMemory>
        ensures { IfOk result (λ location. location ≡ record self.now { ownership = ownership_of ownership }) }
    {
        Ok(Location {
            chan: self.chan.copy()?,
            ty: self.ty,
            value: self.value,
            ownership,
        })
    }

    /// Another one of the same meaning.
    pub fn copy(&self) -> Result<Location, NoMemory>
        ensures { IfOk result (λ location. location ≡ self.now) }
    {
        self.with_ownership(self.ownership)
    }
}
