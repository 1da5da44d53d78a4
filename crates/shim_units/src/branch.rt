// The unit that a block branch becomes.
ghost use Rattle.std.specs.Prelude.{◌≡◌, ◌+◌, ◌++◌, ◌<◌, ◌^◌, IfOk, length, map};
ghost use Rattle.shim_units.specs.Usages.{captures_of};
ghost use Rattle.shim_units.specs.LiftContextView.{lift_context_view};
ghost use Rattle.shim_units.specs.PartFold.{parts};
ghost use Rattle.shim_units.specs.BranchCapturing.{IsBranchCaptures};
ghost use Rattle.shim_units.specs.Lifting.{taken, branch_param, branch_arg, branch_title, branch_slot_map, made_unit, branch_call, branch_unit};
ghost use Rattle.shim_units.specs.Lifting.{sort_of, name_of, try_name};

use crate::captures::{capture_at, is_reference, is_taken, take_all};
use crate::exceptions::ExceptionList;
use crate::found::Capture;
use crate::lift_context::LiftContext;
use crate::moving::{pass_variable, slot_index};
use crate::own::{declares_in, push_raises, tries_in};
use crate::slot_map::SlotMap;
use crate::unit::{Arg, UCall, UStmt, Unit};
use crate::uses::push_stmts;
use crate::word::{name_of, number, sort_of, try_name};
use itoa::Buffer;
use shim_base::{List, NoMemory};
use shim_scopes::{RFunction, RStmt, UParam};
use shim_syntax::Sort;
use std::alloc::Global;

/// What a block branch takes, throws and has.
#[derive(Drop)]
pub struct BranchCaptures {
    pub captures: List<Capture>,
    // The variables and exceptions of the unit around it that it takes, by the function's numbers.
    pub slots: List<u32>,
    pub exceptions: List<u32>,
    // Its own `try` statements.
    pub tries: List<u32>,
    pub inner: SlotMap,
}

// What a branch takes of some variables, in their order.
fn take_some(alloc: Global, captures: &[Capture], slots: &[u32]) -> Result<List<u32>, NoMemory>
    ensures { IfOk result (λ made. made ≡ taken (captures_of captures.now) slots.now) }
{
    let mut made = List::new(alloc);
    for slot in slots {
        if is_taken(capture_at(captures, *slot as usize)) {
            made.push(*slot)?;
        }
    }
    Ok(made)
}

fn join(alloc: Global, first: &[u32], second: &[u32]) -> Result<List<u32>, NoMemory>
    ensures { IfOk result (λ made. made ≡ first.now ++ second.now) }
{
    let mut made = List::from_slice(alloc, first)?;
    made.extend_from_slice(second)?;
    Ok(made)
}

/// What a unit has: what it is given, and then its own.
pub fn open_unit(
    alloc: Global,
    slots: &[u32],
    declares: &[u32],
    exceptions: &[u32],
    tries: &[u32],
) -> Result<SlotMap, NoMemory>
    ensures { IfOk result (λ made. made ≡ branch_slot_map slots.now declares.now exceptions.now tries.now) }
{
    let slots = join(alloc, slots, declares)?;
    let exceptions = ExceptionList::new(join(alloc, exceptions, tries)?);
    Ok(SlotMap { slots, exceptions })
}

fn make_params(
    alloc: Global,
    function: &RFunction,
    captures: &[Capture],
    slots: &[u32],
) -> Result<List<UParam>, NoMemory>
    ensures { IfOk result (λ made. made ≡ map (branch_param function.now (captures_of captures.now)) slots.now) }
{
    let mut made = List::with_capacity(alloc, slots.len())?;
    for slot in slots {
        made.push(UParam {
            sort: sort_of(function, *slot),
            by_ref: is_reference(capture_at(captures, *slot as usize)),
            name: name_of(function, *slot as usize),
        })?;
    }
    Ok(made)
}

fn make_args(
    alloc: Global,
    around: &[u32],
    captures: &[Capture],
    slots: &[u32],
) -> Result<List<Arg>, NoMemory>
    requires { length around.now < 2 ^ 32 }
    ensures { IfOk result (λ made. made ≡ map (branch_arg around.now (captures_of captures.now)) slots.now) }
{
    let mut made = List::with_capacity(alloc, slots.len())?;
    for slot in slots {
        let at = slot_index(around, *slot);
        made.push(pass_variable(is_reference(capture_at(captures, *slot as usize)), at))?;
    }
    Ok(made)
}

// The name of the unit of that number that is lifted out of a function.
fn make_title(alloc: Global, context: &LiftContext, unit: u32) -> Result<List<u8>, NoMemory>
    ensures { IfOk result (λ made. made ≡ branch_title (lift_context_view context.now) unit) }
{
    let mut title = List::from_slice(alloc, context.name.as_bytes())?;
    title.extend_from_slice(b".".as_slice())?;
    let mut buffer = Buffer::new();
    let text = buffer.format(unit.saturating_sub(context.first));
    title.extend_from_slice(text.as_bytes())?;
    Ok(title)
}

fn sort_all(alloc: Global, function: &RFunction, slots: &[u32]) -> Result<List<Sort>, NoMemory>
    ensures { IfOk result (λ made. made ≡ map (sort_of function.now) slots.now) }
{
    let mut made = List::with_capacity(alloc, slots.len())?;
    for slot in slots {
        made.push(sort_of(function, *slot))?;
    }
    Ok(made)
}

fn name_all(alloc: Global, function: &RFunction, slots: &[u32]) -> Result<List<u32>, NoMemory>
    ensures { IfOk result (λ made. made ≡ map (name_of function.now) slots.now) }
{
    let mut made = List::with_capacity(alloc, slots.len())?;
    for slot in slots {
        made.push(name_of(function, *slot as usize))?;
    }
    Ok(made)
}

fn name_tries(alloc: Global, function: &RFunction, tries: &[u32]) -> Result<List<u32>, NoMemory>
    ensures { IfOk result (λ made. made ≡ map (try_name function.now) tries.now) }
{
    let mut made = List::with_capacity(alloc, tries.len())?;
    for exception in tries {
        made.push(try_name(function, *exception))?;
    }
    Ok(made)
}

/// A unit, with its name, its parameters and how many exceptions it is given.
pub fn make_unit(
    alloc: Global,
    context: &LiftContext,
    title: List<u8>,
    params: List<UParam>,
    throws: usize,
    slot_map: &SlotMap,
    tries: &[u32],
    body: List<UStmt>,
) -> Result<Unit, NoMemory>
    requires { throws < 2 ^ 32 }
    ensures { IfOk result (λ made. made ≡ made_unit (lift_context_view context.now) title params throws slot_map.now tries.now body) }
{
    let function = context.function;
    let slots = sort_all(alloc, function, slot_map.slots.as_slice())?;
    let slot_names = name_all(alloc, function, slot_map.slots.as_slice())?;
    let throws = number(throws);
    let tries = name_tries(alloc, function, tries)?;
    Ok(Unit {
        title,
        function: context.number,
        params,
        slots,
        slot_names,
        throws,
        tries,
        body,
    })
}

/// What a block branch takes of the unit around it, by the uses in its whole text, and has of its own.
pub fn open_branch(
    alloc: Global,
    context: &LiftContext,
    slot_map: &SlotMap,
    body: &[RStmt],
) -> Result<BranchCaptures, NoMemory>
    ensures { IfOk result (λ captured. IsBranchCaptures captured (lift_context_view context.now) slot_map.now (parts body.now)) }
{
    let mut uses = List::new(alloc);
    push_stmts(&mut uses, context.functions, body)?;
    let captures = take_all(alloc, context.function.slots.as_slice(), uses.as_slice())?;
    let mut raises = List::new(alloc);
    push_raises(&mut raises, body)?;
    let declares = declares_in(alloc, body)?;
    let tries = tries_in(alloc, body)?;
    let slots = take_some(alloc, captures.as_slice(), slot_map.slots.as_slice())?;
    let exceptions = slot_map.exceptions.give(alloc, raises.as_slice())?;
    let inner = open_unit(
        alloc,
        slots.as_slice(),
        declares.as_slice(),
        exceptions.as_slice(),
        tries.as_slice(),
    )?;
    Ok(BranchCaptures {
        captures,
        slots,
        exceptions,
        tries,
        inner,
    })
}

/// The call of the unit of that number that a branch becomes.
pub fn call_branch(
    alloc: Global,
    slot_map: &SlotMap,
    unit: u32,
    captured: &BranchCaptures,
) -> Result<UCall, NoMemory>
    requires slots { length slot_map.now.slots < 2 ^ 32 }
    requires exceptions { length slot_map.now.exceptions < 2 ^ 32 }
    ensures { IfOk result (λ made. made ≡ branch_call slot_map.now unit (captures_of captured.now.captures) captured.now.slots captured.now.exceptions) }
{
    let args = make_args(
        alloc,
        slot_map.slots.as_slice(),
        captured.captures.as_slice(),
        captured.slots.as_slice(),
    )?;
    let throws = slot_map
        .exceptions
        .indices_of(alloc, captured.exceptions.as_slice())?;
    Ok(UCall { unit, args, throws })
}

/// The unit of that number that a branch becomes, with its statements.
pub fn close_branch(
    alloc: Global,
    context: &LiftContext,
    unit: u32,
    captured: &BranchCaptures,
    body: List<UStmt>,
) -> Result<Unit, NoMemory>
    requires { length captured.now.exceptions < 2 ^ 32 }
    ensures { IfOk result (λ made. made ≡ branch_unit (lift_context_view context.now) unit (captures_of captured.now.captures) captured.now.slots captured.now.exceptions captured.now.inner captured.now.tries body) }
{
    let title = make_title(alloc, context, unit)?;
    let params = make_params(
        alloc,
        context.function,
        captured.captures.as_slice(),
        captured.slots.as_slice(),
    )?;
    let made = make_unit(
        alloc,
        context,
        title,
        params,
        captured.exceptions.len(),
        &captured.inner,
        captured.tries.as_slice(),
        body,
    )?;
    Ok(made)
}
