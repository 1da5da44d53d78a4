// An identifier.
ghost use Rattle.std.specs.Prelude.{◌≡◌, ◌≤◌, length, IfOk};

use crate::{List, NoMemory};
use std::alloc::Global;
use std::marker::Model;

/// The bytes of one identifier, 1 to 64 of them. Contracts see them as a list.
#[derive(Debug, Drop, PartialEq, Eq)]
pub struct Name {
    bytes: List<u8>,
}

impl Model for Name {
    ghost use Rattle.std.specs.Prelude.{ℕ, ◌≤◌, length, List as ListOf};

    ghost Value = { ListOf ℕ };

    ghost view = { λ name. name.bytes };

    ghost inverse = { λ bytes. record { bytes = bytes } };

    ghost invariant = { λ name. (1 ≤ length name.bytes) × (length name.bytes ≤ 64) };
}

impl Name {
    pub fn new(alloc: Global, bytes: &[u8]) -> Result<Name, NoMemory>
        requires some { 1 ≤ length bytes.now }
        requires short { length bytes.now ≤ 64 }
        ensures { IfOk result (λ name. name ≡ bytes.now) }
    {
        Ok(Name {
            bytes: List::from_slice(alloc, bytes)?,
        })
    }

    pub fn as_bytes(&self) -> &[u8]
        ensures value { result.now ≡ self.now }
        ensures some { 1 ≤ length self.now }
        ensures short { length self.now ≤ 64 }
    {
        self.bytes.as_slice()
    }
}
