// What a process has left while the children of a fork are made.
ghost use Rattle.std.specs.Prelude.{◌≡◌, ◌∷◌, [], List as ListOf, None, false, if◌then◌else◌, OnErr, OnOk};
ghost use Rattle.shim_process.specs.Arguments.{Argument as ArgumentOf};
ghost use Rattle.shim_process.specs.Forks.{lent, lent_by, takes_input, takes_output};
ghost use Rattle.shim_process.specs.Locations.{Locations};
ghost use Rattle.shim_scopes.specs.declared.tree.UParam.{UParam};
ghost use Rattle.shim_locations.specs.Given.{argument_of, arguments_of};
ghost use Rattle.shim_locations.specs.Lendings.{is_lent_out, lent_at};

use crate::argument::Argument;
use crate::locations::number_of;
use crate::streams::{takes_input, takes_output};
use shim_base::{List, NoMemory};
use shim_scopes::UParam;
use shim_units::Arg;

/// What the branches of a fork have left of a process. Its locations stay as they are until all children are
/// there, so that a refusal changes nothing.
#[derive(Drop)]
pub struct Remainder {
    /// The numbers of the locations that were given by reference.
    pub taken: List<usize>,
    /// How many bytes of the input were read, where the process has that still.
    pub input_at: Option<usize>,
    pub holds_output: bool,
}

/// Whether the number is one of these.
pub fn is_lent_out(number: usize, taken: &[usize]) -> bool
    ensures { result ≡ is_lent_out number taken.now }
{
    for one in taken {
        if *one == number {
            return true;
        }
    }
    false
}

// The location that an argument gives by reference is taken.
#[tactic(auto, using(crate::proofs::Lent::lent_more))]
fn lend_location(taken: &mut List<usize>, slots: &[usize], arg: &Arg) -> Result<(), NoMemory>
    ensures { OnOk result ((locations : Locations) (param : UParam) → lent_at taken.new locations ≡ lent slots.now (param ∷ []) (arg.now ∷ []) (lent_at taken.old locations)) }
{
    match arg {
        Arg::Ref(slot) => {
            taken.push(number_of(slots, *slot))?;
            Ok(())
        }
        _ => Ok(()),
    }
}

// The locations that the arguments give by reference are taken. An argument without a parameter is left out.
fn lend_args(
    taken: &mut List<usize>,
    slots: &[usize],
    params: &[UParam],
    args: &[Arg],
) -> Result<(), NoMemory>
    ensures { OnOk result ((locations : Locations) → lent_at taken.new locations ≡ lent slots.now params.now args.now (lent_at taken.old locations)) }
{
    let mut rest = args;
    for _param in params {
        let Some((arg, after)) = rest.split_first() else {
            return Ok(());
        };
        lend_location(taken, slots, arg)?;
        rest = after;
    }
    Ok(())
}

// The location that a computed argument gives by reference is taken.
#[tactic(auto, using(crate::proofs::Lent::lent_more))]
fn lend_argument(taken: &mut List<usize>, argument: &Argument) -> Result<(), NoMemory>
    ensures { OnOk result ((locations : Locations) (rest : ListOf ArgumentOf) → lent_by rest (lent_at taken.new locations) ≡ lent_by (argument_of argument.now ∷ rest) (lent_at taken.old locations)) }
{
    match argument {
        Argument::ByReference(number) => {
            taken.push(*number)?;
            Ok(())
        }
        _ => Ok(()),
    }
}

#[tactic(auto, using(crate::proofs::OneMore::one_more_lent))]
fn lend_arguments(taken: &mut List<usize>, given: &[Argument]) -> Result<(), NoMemory>
    ensures { OnOk result ((locations : Locations) → lent_at taken.new locations ≡ lent_by (arguments_of given.now) (lent_at taken.old locations)) }
{
    for argument in given {
        lend_argument(taken, argument)?;
    }
    Ok(())
}

// How many bytes of the input were read, or none if a branch with these parameters takes the input.
fn input_left(params: &[UParam], at: Option<usize>) -> Option<usize>
    ensures { result ≡ if takes_input params.now then None else at }
{
    if takes_input(params) { None } else { at }
}

// Whether the process still has the output after a branch with these parameters took its streams.
fn output_left(params: &[UParam], has_output: bool) -> bool
    ensures { result ≡ if takes_output params.now then false else has_output }
{
    if takes_output(params) {
        false
    } else {
        has_output
    }
}

// These locations are taken as well, and the streams of a branch with these parameters. A refusal
// changes nothing.
#[tactic(auto, using(crate::proofs::Lent::lent_join))]
fn take(remainder: &mut Remainder, more: List<usize>, params: &[UParam]) -> Result<(), NoMemory>
    ensures locations { OnOk result ((locations : Locations) → lent_at remainder.new.taken locations ≡ lent_at more (lent_at remainder.old.taken locations)) }
    ensures input { OnOk result (remainder.new.input_at ≡ if takes_input params.now then None else remainder.old.input_at) }
    ensures output { OnOk result (remainder.new.holds_output ≡ if takes_output params.now then false else remainder.old.holds_output) }
    ensures err { OnErr result (remainder.new ≡ remainder.old) }
{
    remainder.taken.append(more)?;
    remainder.input_at = input_left(params, remainder.input_at);
    remainder.holds_output = output_left(params, remainder.holds_output);
    Ok(())
}

/// A branch with these parameters takes its arguments. A refusal changes nothing.
pub fn lend(
    remainder: &mut Remainder,
    slots: &[usize],
    params: &[UParam],
    args: &[Arg],
) -> Result<(), NoMemory>
    ensures locations { OnOk result ((locations : Locations) → lent_at remainder.new.taken locations ≡ lent slots.now params.now args.now (lent_at remainder.old.taken locations)) }
    ensures input { OnOk result (remainder.new.input_at ≡ if takes_input params.now then None else remainder.old.input_at) }
    ensures output { OnOk result (remainder.new.holds_output ≡ if takes_output params.now then false else remainder.old.holds_output) }
    ensures err { OnErr result (remainder.new ≡ remainder.old) }
{
    let mut more = List::new(remainder.taken.allocator());
    lend_args(&mut more, slots, params, args)?;
    take(remainder, more, params)
}

/// A branch with these parameters takes these arguments, which are computed. A refusal changes nothing.
pub fn lend_given(
    remainder: &mut Remainder,
    params: &[UParam],
    given: &[Argument],
) -> Result<(), NoMemory>
    ensures locations { OnOk result ((locations : Locations) → lent_at remainder.new.taken locations ≡ lent_by (arguments_of given.now) (lent_at remainder.old.taken locations)) }
    ensures input { OnOk result (remainder.new.input_at ≡ if takes_input params.now then None else remainder.old.input_at) }
    ensures output { OnOk result (remainder.new.holds_output ≡ if takes_output params.now then false else remainder.old.holds_output) }
    ensures err { OnErr result (remainder.new ≡ remainder.old) }
{
    let mut more = List::new(remainder.taken.allocator());
    lend_arguments(&mut more, given)?;
    take(remainder, more, params)
}
