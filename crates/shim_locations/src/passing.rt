// The locations and the slots that a call or a branch makes for its arguments.
ghost use Rattle.std.specs.Prelude.{◌≡◌, ◌∷◌, ◌++◌, ◌+◌, [], List as ListOf, Some, if◌then◌else◌, IfOk, OnOk};
ghost use Rattle.std.specs.Arc.{arc_value};
ghost use Rattle.shim_process.specs.Arguments.{Argument as ArgumentOf, copied_location, new_location, branch_locations, call_locations, channels_of, empties, new_channels};
ghost use Rattle.shim_process.specs.Locations.{Copy, at_number, moved, with_moved};
ghost use Rattle.shim_locations.specs.Given.{argument_of, arguments_of};
ghost use Rattle.shim_locations.specs.Lendings.{lent_at};
ghost use Rattle.shim_locations.specs.Ownerships.{ownership_of};

use crate::argument::Argument;
use crate::location::Location;
use crate::locations::location_at;
use crate::ownership::{Ownership, moved as moved_ownership};
use crate::remainder::is_lent_out;
use shim_base::{Chan, List, NoMemory, Path, Ty};
use shim_syntax::Sort;
use std::alloc::Global;
use std::sync::Arc;

/// New locations, and how many channels the process has made with them.
#[derive(Drop)]
pub struct Passed {
    pub locations: List<Option<Location>>,
    pub made: u32,
}

// A copy of a location, as a variable of a type.
fn copied(
    locations: &[Option<Location>],
    number: usize,
    ty: Ty,
) -> Result<Option<Location>, NoMemory>
    ensures { IfOk result (λ location. location ≡ copied_location ty (at_number locations.now number)) }
{
    match location_at(locations, number) {
        None => Ok(None),
        Some(location) => Ok(Some(location.pass(ty)?)),
    }
}

// A new channel's own variable.
pub fn fresh(
    home: &Arc<Path>,
    serial: u32,
    name: u32,
    ty: Ty,
    value: i64,
) -> Result<Location, NoMemory>
    ensures { IfOk result (λ location. location ≡ new_location (arc_value home.now) serial name ty value) }
{
    let chan = Chan::new(Arc::try_clone(home)?, serial, name);
    Ok(Location::new(chan, ty, value))
}

// Puts a new channel's own variable after these; the answer is how many channels the process has made with it.
fn push_fresh(
    passed: &mut List<Option<Location>>,
    home: &Arc<Path>,
    made: u32,
    name: u32,
    ty: Ty,
    value: i64,
) -> Result<u32, NoMemory>
    ensures locations { OnOk result (passed.new ≡ passed.old ++ Some (new_location (arc_value home.now) made name ty value) ∷ []) }
    ensures made { IfOk result (λ more. more ≡ made + 1) }
{
    passed.push(Some(fresh(home, made, name, ty, value)?))?;
    let more = made.checked_add(1).ok_or(NoMemory)?;
    Ok(more)
}

// One argument of a call; the answer is how many channels the process has made with it.
fn call_location(
    passed: &mut List<Option<Location>>,
    home: &Arc<Path>,
    locations: &[Option<Location>],
    made: u32,
    argument: &Argument,
) -> Result<u32, NoMemory>
    ensures locations { IfOk result (λ more. (rest : ListOf ArgumentOf) → passed.new ++ call_locations (arc_value home.now) locations.now more rest ≡ passed.old ++ call_locations (arc_value home.now) locations.now made (argument_of argument.now ∷ rest)) }
    ensures made { IfOk result (λ more. (rest : ListOf ArgumentOf) → more + new_channels rest ≡ made + new_channels (argument_of argument.now ∷ rest)) }
{
    match argument {
        Argument::ByReference(_) => Ok(made),
        Argument::ByCopy(ty, number) => {
            passed.push(copied(locations, *number, *ty)?)?;
            Ok(made)
        }
        Argument::ByValue(ty, name, value) => push_fresh(passed, home, made, *name, *ty, *value),
    }
}

/// The locations that a call makes for its arguments. The calling process has made `made` channels before.
#[tactic(auto, using(crate::proofs::OneMore::one_more_call, crate::proofs::OneMore::one_more_made))]
pub fn call_locations(
    alloc: Global,
    home: &Arc<Path>,
    locations: &[Option<Location>],
    made: u32,
    given: &[Argument],
) -> Result<Passed, NoMemory>
    ensures { IfOk result (λ passed. (passed.locations ≡ call_locations (arc_value home.now) locations.now made (arguments_of given.now)) × (passed.made ≡ made + new_channels (arguments_of given.now))) }
{
    let mut passed = List::with_capacity(alloc, given.len())?;
    let mut serial = made;
    for argument in given {
        serial = call_location(&mut passed, home, locations, serial, argument)?;
    }
    Ok(Passed {
        locations: passed,
        made: serial,
    })
}

// The ownership that a location has in the branch that takes it by reference. `taken` is whether it was given by
// reference before.
fn ownership_there(ownership: Ownership, taken: bool) -> Ownership
    ensures { ownership_of result ≡ if taken then Copy else moved (ownership_of ownership) }
{
    if taken {
        Ownership::Copy
    } else {
        moved_ownership(ownership)
    }
}

// A location as a branch has it that takes it by reference, where those of these numbers were given before.
#[tactic(auto, using(crate::proofs::Lent::none_moved, crate::proofs::Lent::some_moved))]
fn moved(
    locations: &[Option<Location>],
    taken: &[usize],
    number: usize,
) -> Result<Option<Location>, NoMemory>
    ensures { IfOk result (λ location. location ≡ with_moved (at_number (lent_at taken.now locations.now) number)) }
{
    match location_at(locations, number) {
        None => Ok(None),
        Some(location) => {
            let ownership = ownership_there(location.ownership(), is_lent_out(number, taken));
            Ok(Some(location.with_ownership(ownership)?))
        }
    }
}

// One argument of a branch, where the locations of these numbers were given by reference before; the answer
// is how many channels the child has made with it.
#[tactic(auto, using(crate::proofs::Lent::one_by_reference, crate::proofs::Lent::one_by_copy))]
fn branch_location(
    passed: &mut List<Option<Location>>,
    taken: &mut List<usize>,
    home: &Arc<Path>,
    locations: &[Option<Location>],
    made: u32,
    argument: &Argument,
) -> Result<u32, NoMemory>
    ensures locations { IfOk result (λ more. (rest : ListOf ArgumentOf) → passed.new ++ branch_locations (arc_value home.now) (lent_at taken.new locations.now) more rest ≡ passed.old ++ branch_locations (arc_value home.now) (lent_at taken.old locations.now) made (argument_of argument.now ∷ rest)) }
    ensures made { IfOk result (λ more. (rest : ListOf ArgumentOf) → more + new_channels rest ≡ made + new_channels (argument_of argument.now ∷ rest)) }
{
    match argument {
        Argument::ByReference(number) => {
            passed.push(moved(locations, taken.as_slice(), *number)?)?;
            taken.push(*number)?;
            Ok(made)
        }
        Argument::ByCopy(ty, number) => {
            passed.push(copied(locations, *number, *ty)?)?;
            Ok(made)
        }
        Argument::ByValue(ty, name, value) => push_fresh(passed, home, made, *name, *ty, *value),
    }
}

// The sum of two lengths. One that is too large for its type counts as out of memory.
fn sum(some: usize, more: usize) -> Result<usize, NoMemory> {
    some.checked_add(more).ok_or(NoMemory)
}

/// The locations that a branch makes for the child of this path, where the locations of these numbers were given
/// by reference before. There is room for so many more after them.
#[tactic(auto, using(crate::proofs::OneMore::one_more_branch, crate::proofs::OneMore::one_more_made))]
pub fn branch_locations(
    alloc: Global,
    home: &Arc<Path>,
    locations: &[Option<Location>],
    before: &[usize],
    given: &[Argument],
    more: usize,
) -> Result<Passed, NoMemory>
    ensures { IfOk result (λ passed. (passed.locations ≡ branch_locations (arc_value home.now) (lent_at before.now locations.now) 0 (arguments_of given.now)) × (passed.made ≡ new_channels (arguments_of given.now))) }
{
    let mut passed = List::with_capacity(alloc, sum(given.len(), more)?)?;
    let mut taken = List::with_capacity(alloc, sum(before.len(), given.len())?)?;
    taken.extend_from_slice(before)?;
    let mut serial = 0;
    for argument in given {
        serial = branch_location(&mut passed, &mut taken, home, locations, serial, argument)?;
    }
    Ok(Passed {
        locations: passed,
        made: serial,
    })
}

/// The channels of the locations that are there.
#[tactic(auto, using(crate::proofs::OneMore::one_more_channel))]
pub fn channels_of(alloc: Global, locations: &[Option<Location>]) -> Result<List<Chan>, NoMemory>
    ensures { IfOk result (λ channels. channels ≡ channels_of locations.now) }
{
    let mut channels = List::with_capacity(alloc, locations.len())?;
    for location in locations {
        add_channel(&mut channels, location)?;
    }
    Ok(channels)
}

fn add_channel(channels: &mut List<Chan>, location: &Option<Location>) -> Result<(), NoMemory>
    ensures { OnOk result (channels.new ≡ channels.old ++ channels_of (location.now ∷ [])) }
{
    match location {
        None => Ok(()),
        Some(location) => channels.push(location.chan().copy()?),
    }
}

/// These, and an empty location for each declaration.
pub fn with_empties(
    locations: List<Option<Location>>,
    declared: &[Sort],
) -> Result<List<Option<Location>>, NoMemory>
    ensures { IfOk result (λ all. all ≡ locations ++ empties declared.now) }
{
    let mut all = locations;
    for _sort in declared {
        all.push(None)?;
    }
    Ok(all)
}

/// Copies of these channels, in order.
pub fn copy_channels(alloc: Global, channels: &[Chan]) -> Result<List<Chan>, NoMemory>
    ensures { IfOk result (λ copies. copies ≡ channels.now) }
{
    let mut copies = List::with_capacity(alloc, channels.len())?;
    for channel in channels {
        copies.push(channel.copy()?)?;
    }
    Ok(copies)
}
