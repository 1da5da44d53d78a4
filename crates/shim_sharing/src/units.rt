// A whole program as units.
ghost use Rattle.std.specs.Prelude.{◌≡◌, ◌+◌, ◌++◌, ◌<◌, ◌^◌, length, IfOk, OnOk, slice_get};
ghost use Rattle.shim_sharing.specs.Room.{FunctionHasRoom, FunctionsHaveRoom};
ghost use Rattle.shim_units.specs.LiftContextView.{lift_context_view};
ghost use Rattle.shim_units.specs.Lifting.{made_unit};
ghost use Rattle.shim_units.specs.PartFold.{tries_in};
ghost use Rattle.shim_units.specs.Units.{upto, function_slot_map, lift_function, lift_functions, throws_of, lifted};

use crate::lift::lift_body;
use shim_base::{List, Name, NoMemory};
use shim_scopes::{RFunction, Resolved};
use shim_units::{
    Form, LiftContext, SlotMap, UStmt, Unit, copy_params, copy_text, declares_in, make_unit,
    number, number_after, open_unit, tries_in,
};
use std::alloc::Global;

// The functions' own units, and those that are lifted out of them.
#[derive(Drop)]
pub struct LiftedUnits {
    pub own: List<Unit>,
    pub lifted: List<Unit>,
}

fn upto(alloc: Global, count: usize) -> Result<List<u32>, NoMemory>
    requires { count < 2 ^ 32 }
    ensures { IfOk result (λ made. made ≡ upto count) }
{
    let mut made = List::new(alloc);
    for at in 0..count {
        made.push(number(at))?;
    }
    Ok(made)
}

// The slot map of a function's own unit, and the `try` statements of the function outside block branches.
#[derive(Drop)]
struct FunctionSlots {
    slot_map: SlotMap,
    tries: List<u32>,
}

fn open_function(alloc: Global, function: &RFunction) -> Result<FunctionSlots, NoMemory>
    requires params { length function.now.params < 2 ^ 32 }
    requires throws { length function.now.throws < 2 ^ 32 }
    ensures slot_map { IfOk result (λ function_slots. function_slots.slot_map ≡ function_slot_map function.now) }
    ensures tries { IfOk result (λ function_slots. function_slots.tries ≡ tries_in function.now.body) }
{
    let slots = upto(alloc, function.params.len())?;
    let exceptions = upto(alloc, function.throws.len())?;
    let declares = declares_in(alloc, function.body.as_slice())?;
    let tries = tries_in(alloc, function.body.as_slice())?;
    let slot_map = open_unit(
        alloc,
        slots.as_slice(),
        declares.as_slice(),
        exceptions.as_slice(),
        tries.as_slice(),
    )?;
    Ok(FunctionSlots { slot_map, tries })
}

fn close_function(
    alloc: Global,
    context: &LiftContext,
    function_slots: &FunctionSlots,
    body: List<UStmt>,
) -> Result<Unit, NoMemory>
    requires { length (lift_context_view context.now).function.throws < 2 ^ 32 }
    ensures { IfOk result (λ made. made ≡ made_unit (lift_context_view context.now) (lift_context_view context.now).name (lift_context_view context.now).function.params (length (lift_context_view context.now).function.throws) function_slots.now.slot_map function_slots.now.tries body) }
{
    let function = context.function;
    let title = List::from_slice(alloc, context.name.as_bytes())?;
    let params = copy_params(alloc, function.params.as_slice())?;
    let throws = function.throws.len();
    make_unit(
        alloc,
        context,
        title,
        params,
        throws,
        &function_slots.slot_map,
        function_slots.tries.as_slice(),
        body,
    )
}

// A function as a unit. The units that are lifted out of it go to the end of `lifted`, whose first unit has
// the number `base`.
fn lift_function(
    alloc: Global,
    names: &[Name],
    functions: &[RFunction],
    number: u32,
    base: u32,
    lifted: &mut List<Unit>,
    function: &RFunction,
) -> Result<Unit, NoMemory>
    requires { FunctionHasRoom (base + length lifted.now) function.now }
    ensures own { IfOk result (λ made. made ≡ (lift_function names.now functions.now number (base + length lifted.old) function.now).own) }
    ensures lifted { OnOk result (lifted.new ≡ lifted.old ++ (lift_function names.now functions.now number (base + length lifted.old) function.now).lifted) }
{
    let name = copy_text(alloc, names, function.name)?;
    let context = LiftContext {
        functions,
        function,
        number,
        name: &name,
        first: number_after(base, lifted.len()),
    };
    let function_slots = open_function(alloc, function)?;
    let body = lift_body(
        alloc,
        &context,
        &function_slots.slot_map,
        base,
        lifted,
        function.body.as_slice(),
    )?;
    close_function(alloc, &context, &function_slots, body)
}

fn lift_functions(
    alloc: Global,
    names: &[Name],
    functions: &[RFunction],
) -> Result<LiftedUnits, NoMemory>
    requires { FunctionsHaveRoom (length functions.now) functions.now }
    ensures own { IfOk result (λ made. made.own ≡ (lift_functions names.now functions.now 0 (length functions.now) functions.now).own) }
    ensures lifted { IfOk result (λ made. made.lifted ≡ (lift_functions names.now functions.now 0 (length functions.now) functions.now).lifted) }
{
    let base = number(functions.len());
    let mut own = List::new(alloc);
    let mut lifted = List::new(alloc);
    for (at, function) in functions.iter().enumerate() {
        let at = number(at);
        own.push(lift_function(alloc, names, functions, at, base, &mut lifted, function)?)?;
    }
    Ok(LiftedUnits { own, lifted })
}

// The names of what a function throws.
fn throws_of(alloc: Global, functions: &[RFunction], number: u32) -> Result<List<u32>, NoMemory>
    ensures { IfOk result (λ made. made ≡ throws_of (slice_get functions.now number)) }
{
    match functions.get(number as usize) {
        Some(function) => {
            let throws = List::from_slice(alloc, function.throws.as_slice())?;
            Ok(throws)
        }
        None => Ok(List::new(alloc)),
    }
}

// The units of a program, whether it obeys the sharing rule or not. The form takes over the names of the
// program.
pub fn lift_program(alloc: Global, resolved: Resolved) -> Result<Form, NoMemory>
    requires { FunctionsHaveRoom (length resolved.functions) resolved.functions }
    ensures { IfOk result (λ form. form ≡ lifted resolved) }
{
    let functions = resolved.functions();
    let LiftedUnits {
        own: mut units,
        lifted,
    } = lift_functions(alloc, resolved.names(), functions)?;
    units.append(lifted)?;
    let main = resolved.main();
    let main_throws = throws_of(alloc, functions, main)?;
    Ok(Form {
        units,
        names: resolved.into_names(),
        main,
        main_throws,
    })
}
