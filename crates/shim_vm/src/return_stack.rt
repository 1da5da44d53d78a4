// Where the callers of a process go on.
ghost use Rattle.std.specs.Prelude.{◌≡◌, [], ◌∷◌, MatchOption, IfOk, OnOk, IfErr, OnErr};

use shim_base::{List, NoMemory};
use std::alloc::{AllocFailed, Global};
use std::marker::Model;

/// Where a caller goes on after its call, and the places of the handlers that are in force in it, the
/// outermost first.
#[derive(Drop)]
pub struct ReturnPlace {
    pub place: usize,
    pub handlers: Vec<u32>,
}

impl Model for ReturnPlace {
    ghost use Rattle.shim_machine.specs.Machine.{ReturnPlace};

    ghost Value = { ReturnPlace };

    ghost view = { λ r. record { place = r.place; handlers = r.handlers.items } };
}

impl ReturnPlace {
    // Another one of the same meaning.
    fn copy(&self) -> Result<ReturnPlace, NoMemory>
        ensures { IfOk result (λ copy. copy ≡ self.now) }
    {
        let alloc = *self.handlers.allocator();
        Ok(ReturnPlace {
            place: self.place,
            handlers: Vec::from_slice(alloc, self.handlers.as_slice())?,
        })
    }
}

/// The return places of a process's callers. Contracts see the innermost first.
#[derive(Drop)]
pub struct ReturnStack {
    items: Vec<ReturnPlace>,
}

impl Model for ReturnStack {
    ghost use Rattle.std.specs.Prelude.{List as ListOf, reverse};
    ghost use Rattle.shim_machine.specs.Machine.{ReturnPlace as ReturnPlaceOf};

    ghost Value = { ListOf ReturnPlaceOf };

    ghost view = { λ s. reverse s.items.items };
}

impl ReturnStack {
    pub fn new(alloc: Global) -> ReturnStack
        ensures { result ≡ [] }
    {
        ReturnStack {
            items: Vec::new(alloc),
        }
    }

    /// Other ones of the same meaning.
    pub fn copy(&self) -> Result<ReturnStack, NoMemory>
        ensures { IfOk result (λ copy. copy ≡ self.now) }
    {
        Ok(ReturnStack {
            items: copied(*self.items.allocator(), self.items.as_slice())?,
        })
    }

    /// A refusal gives the place back.
    pub fn push(&mut self, caller: ReturnPlace) -> Result<(), AllocFailed<ReturnPlace>>
        ensures ok { OnOk result (self.new ≡ caller ∷ self.old) }
        ensures back { IfErr result (λ failed. failed.value ≡ caller) }
        ensures err { OnErr result (self.new ≡ self.old) }
    {
        self.items.push(caller)
    }

    pub fn pop(&mut self) -> Option<ReturnPlace>
        ensures { MatchOption result ((self.old ≡ []) × (self.new ≡ [])) (λ caller. self.old ≡ caller ∷ self.new) }
    {
        self.items.pop()
    }
}

fn copied(alloc: Global, places: &[ReturnPlace]) -> Result<Vec<ReturnPlace>, NoMemory>
    ensures { IfOk result (λ copies. copies.items ≡ places.now) }
{
    let mut copies = List::with_capacity(alloc, places.len())?;
    for place in places {
        copies.push(place.copy()?)?;
    }
    Ok(copies.into_vec())
}
