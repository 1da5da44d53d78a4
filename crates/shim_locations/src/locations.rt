// The locations of a process, by their numbers.
ghost use Rattle.std.specs.Prelude.{◌≡◌, ◌++◌, ◌∷◌, [], length, take, Some, slice_set, IfOk, OnOk, OnErr};
ghost use Rattle.shim_process.specs.Locations.{at_number, lend_at, store_at, with_back, with_kept, with_value};
ghost use Rattle.shim_process.specs.Forks.{taken_back};
ghost use Rattle.shim_process.specs.LocalState.{number_of, env_of};
ghost use Rattle.shim_locations.specs.Lendings.{lent_at};
ghost use Rattle.std.specs.Option.{option_copied};

use crate::location::Location;
use shim_base::{List, NoMemory};
use shim_units::Arg;
use std::alloc::Global;
use std::marker::Model;

/// The number of a slot's location.
#[tactic(auto, unfolding(shim_process::specs::LocalState::number_of))]
pub fn number_of(slots: &[usize], slot: u32) -> usize
    ensures { result ≡ number_of slots.now slot }
{
    match slots.get(slot as usize) {
        Some(number) => *number,
        None => 0,
    }
}

/// The location of a number.
#[tactic(auto, unfolding(shim_process::specs::Locations::at_number))]
pub fn location_at(locations: &[Option<Location>], number: usize) -> Option<&Location>
    ensures { option_copied result ≡ at_number locations.now number }
{
    match locations.get(number) {
        Some(Some(location)) => Some(location),
        _ => None,
    }
}

/// What the variable of a slot holds.
pub fn value_in(locations: &[Option<Location>], slots: &[usize], slot: u32) -> i64
    ensures { result ≡ env_of locations.now slots.now slot }
{
    match location_at(locations, number_of(slots, slot)) {
        Some(location) => location.value(),
        None => 0,
    }
}

/// All locations of a process. That of a declared variable is empty until its declaration is executed, that of a
/// handler's variable until the handler takes it. That of a stream is always empty.
#[derive(Drop)]
pub struct Locations {
    items: Vec<Option<Location>>,
}

impl Model for Locations {
    ghost use Rattle.shim_process.specs.Locations.{Locations};

    ghost Value = { Locations };

    ghost view = { λ c. c.items.items };
}

impl Locations {
    pub fn from_list(locations: List<Option<Location>>) -> Locations
        ensures { result ≡ locations }
    {
        Locations {
            items: locations.into_vec(),
        }
    }

    /// A copy of the locations.
    pub fn copy(&self, alloc: Global) -> Result<Locations, NoMemory>
        ensures { IfOk result (λ copy. copy ≡ self.now) }
    {
        Ok(Locations::from_list(copied(alloc, self.items.as_slice())?))
    }

    pub fn len(&self) -> usize
        ensures { result ≡ length self.now }
    {
        self.items.len()
    }

    pub fn as_slice(&self) -> &[Option<Location>]
        ensures { result.now ≡ self.now }
    {
        self.items.as_slice()
    }

    /// A new last location. A refusal leaves the locations as they were.
    pub fn push(&mut self, location: Option<Location>) -> Result<(), NoMemory>
        ensures ok { OnOk result (self.new ≡ self.old ++ location ∷ []) }
        ensures err { OnErr result (self.new ≡ self.old) }
    {
        self.items.push(location)?;
        Ok(())
    }

    /// These locations after the others. A refusal leaves the locations as they were.
    pub fn append(&mut self, locations: List<Option<Location>>) -> Result<(), NoMemory>
        ensures ok { OnOk result (self.new ≡ self.old ++ locations) }
        ensures err { OnErr result (self.new ≡ self.old) }
    {
        let mut locations = locations.into_vec();
        self.items.append(&mut locations)?;
        Ok(())
    }

    /// The first locations alone.
    pub fn truncate(&mut self, kept: usize)
        ensures { self.new ≡ take kept self.old }
    {
        self.items.truncate(kept);
    }

    /// Puts this location in place of that of this number; without such a number nothing changes.
    pub fn put(&mut self, number: usize, location: Location)
        ensures { self.new ≡ slice_set self.old number (Some location) }
    {
        if number < self.items.len() {
            self.items[number] = Some(location);
        }
    }

    // A branch takes the location by reference.
    #[tactic(auto, unfolding(shim_process::specs::Locations::lend_at, shim_process::specs::Locations::at_number))]
    fn lend(&mut self, number: usize)
        ensures { self.new ≡ lend_at self.old number }
    {
        if number < self.items.len() {
            let location = &mut self.items[number];
            lend_one(location);
        }
    }

    /// Branches take the locations of these numbers by reference.
    pub fn lend_all(&mut self, numbers: &[usize])
        ensures { self.new ≡ lent_at numbers.now self.old }
    {
        for number in numbers {
            self.lend(*number);
        }
    }

    /// The value comes back from a location of another process, if there is one. The ownership comes back if the
    /// location here is lent and that one is the channel's own variable.
    #[tactic(auto, unfolding(shim_process::specs::Locations::at_number))]
    pub fn restore(&mut self, number: usize, back: Option<&Location>)
        ensures { self.new ≡ slice_set self.old number (with_back (option_copied back.entry) (at_number self.old number)) }
    {
        if number < self.items.len() {
            let location = &mut self.items[number];
            set_back(location, back);
        }
    }

    fn regain_one(&mut self, slots: &[usize], place: usize, arg: &Arg, back: &[Option<Location>])
        ensures { self.new ≡ taken_back slots.now place (arg.now ∷ []) back.now self.old }
    {
        match arg {
            Arg::Ref(slot) => {
                let number = number_of(slots, *slot);
                self.restore(number, location_at(back, place));
            }
            _ => {}
        }
    }

    /// What a branch took by reference comes back from the child's locations, whose first are those of its
    /// parameters.
    pub fn regain_args(&mut self, slots: &[usize], args: &[Arg], back: &[Option<Location>])
        ensures { self.new ≡ taken_back slots.now 0 args.now back.now self.old }
    {
        for (i, arg) in args.iter().enumerate() {
            self.regain_one(slots, i, arg, back);
        }
    }

    /// The value is stored in the location, by its type.
    #[tactic(auto, unfolding(shim_process::specs::Locations::store_at, shim_process::specs::Locations::at_number))]
    pub fn store(&mut self, number: usize, value: i64)
        ensures { self.new ≡ store_at self.old number value }
    {
        if number < self.items.len() {
            let location = &mut self.items[number];
            set_value(location, value);
        }
    }
}

fn lend_one(location: &mut Option<Location>)
    ensures { location.new ≡ with_kept location.old }
{
    match location {
        None => {}
        Some(location) => location.lend(),
    }
}

fn set_back(location: &mut Option<Location>, back: Option<&Location>)
    ensures { location.new ≡ with_back (option_copied back.entry) location.old }
{
    match (location, back) {
        (Some(location), Some(back)) => location.restore_from(back),
        _ => {}
    }
}

fn set_value(location: &mut Option<Location>, value: i64)
    ensures { location.new ≡ with_value value location.old }
{
    match location {
        None => {}
        Some(location) => location.set(value),
    }
}

fn copied(alloc: Global, locations: &[Option<Location>]) -> Result<List<Option<Location>>, NoMemory>
    ensures { IfOk result (λ copies. copies ≡ locations.now) }
{
    let mut copies = List::with_capacity(alloc, locations.len())?;
    for location in locations {
        copies.push(copied_one(location)?)?;
    }
    Ok(copies)
}

fn copied_one(location: &Option<Location>) -> Result<Option<Location>, NoMemory>
    ensures { IfOk result (λ copy. copy ≡ location.now) }
{
    match location {
        None => Ok(None),
        Some(location) => Ok(Some(location.copy()?)),
    }
}
