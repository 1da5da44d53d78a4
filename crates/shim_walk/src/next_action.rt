// What the statement at which a process stands asks for.
ghost use Rattle.std.specs.Prelude.{◌≡◌, ◌<◌, ◌+◌, ◌^◌, length, slice_get, IfOk, if◌then◌else◌};
ghost use Rattle.shim_units.specs.declared.unit.UWhat.{out-UWhat};
ghost use Rattle.shim_process.specs.LocalState.{unit_or, env_of};
ghost use Rattle.shim_process.specs.Values.{value};
ghost use Rattle.std.specs.Option.{option_copied};
ghost use Rattle.shim_walk.specs.StatementContexts.{context_view};
ghost use Rattle.shim_process.specs.Steps as step;
ghost use Rattle.shim_walk.specs.Actions.{action_of};

use crate::action::Action;
use crate::labels::labels_for;
use crate::variable_actions::{assign, assign_first, declare_action, test, test_or};
use shim_base::{NoMemory, Trap};
use shim_locations::argument_fault::ArgumentFault;
use shim_locations::arguments::arguments;
use shim_locations::location::Location;
use shim_locations::locations::value_in;
use shim_scopes::UExpr;
use shim_units::{UCall, UStmt, UWhat, Unit};
use shim_walk_frames::handler::Handler;
use shim_walk_frames::successors::Successor;
use shim_walk_frames::text::{nth_label, params_of};
use std::alloc::Global;

/// What a statement sees of its process: the locations, the slots and labels of the innermost frame, the
/// exceptions in force, and which limits are reached.
#[derive(Drop)]
pub struct StatementContext<'a> {
    pub locations: &'a [Option<Location>],
    pub slots: &'a [usize],
    pub labels: &'a [u32],
    /// The frame's exception places in force, the outermost first, and the label of the first one.
    pub places: &'a [Handler],
    pub first: u32,
    pub units: &'a [Unit],
    pub unit: u32,
    pub halfway: bool,
    /// The process can make no more channels and do no more forks.
    pub full: bool,
    /// No more calls can be in force.
    pub deep: bool,
    pub holds_output: bool,
}

/// The name of the `try` of an exception.
#[tactic(auto, unfolding(shim_process::specs::LocalState::number_of))]
pub fn try_name(units: &[Unit], unit: u32, exception: u32) -> u32
    ensures { result ≡ step.try_name (unit_or (slice_get units.now unit)) exception }
{
    match units.get(unit as usize) {
        Some(unit) => nth_label(unit.tries.as_slice(), exception.saturating_sub(unit.throws)),
        None => 0,
    }
}

fn enter(alloc: Global, call: &UCall, context: &StatementContext<'_>) -> Result<Action, NoMemory>
    requires { context.now.first + length context.now.places.now < 2 ^ 32 }
    ensures { IfOk result (λ d. action_of d ≡ step.call_action call.now (context_view context.now)) }
{
    let params = params_of(context.units, call.unit);
    let given = match arguments(
        alloc,
        context.locations,
        context.slots,
        params,
        call.args.as_slice(),
    ) {
        Ok(given) => given,
        Err(ArgumentFault::Trapped(trap)) => return Ok(Action::Trapped(trap)),
        Err(ArgumentFault::NoMemory) => return Err(NoMemory),
    };
    if context.deep || context.full {
        return Ok(Action::Trapped(Trap::Depth));
    }
    let labels = labels_for(alloc, context, call.throws.as_slice())?;
    Ok(Action::Enter(call.unit, given, labels))
}

// What a statement asks for. A `next`, a `put`, a `throw`, a fork and a block ask for `Wait`.
fn what_action(
    alloc: Global,
    stmt: &UStmt,
    context: &StatementContext<'_>,
) -> Result<Action, NoMemory>
    requires { context.now.first + length context.now.places.now < 2 ^ 32 }
    ensures { IfOk result (λ d. action_of d ≡ step.what_action (out-UWhat stmt.now.what) (context_view context.now)) }
{
    let locations = context.locations;
    let slots = context.slots;
    match &stmt.what {
        UWhat::Declare(ty, slot, start) => Ok(declare_action(
            *ty,
            *slot,
            start,
            context.full,
            locations,
            slots,
        )),
        UWhat::Assign(slot, expr) => Ok(assign(*slot, expr, locations, slots)),
        UWhat::NextAssign(slot, expr) => Ok(first_part(*slot, expr, context)),
        UWhat::AssignNext(slot, other) => Ok(second_part(*slot, *other, context)),
        UWhat::Get(slot, _) => Ok(Action::Read(*slot)),
        UWhat::If(expr, _, _) => Ok(test(Successor::Second, expr, locations, slots)),
        UWhat::While(expr, _) => Ok(test(Successor::On, expr, locations, slots)),
        UWhat::For(_, expr, _, _) => Ok(test_or(Successor::On, expr, locations, slots)),
        UWhat::Call(call) => enter(alloc, call, context),
        UWhat::Try(_, exception, slot, _) => Ok(install(*exception, *slot, context)),
        _ => Ok(Action::Wait),
    }
}

// The assignment of `next x = e`, or `Wait` where it is done.
fn first_part(slot: u32, expr: &UExpr, context: &StatementContext<'_>) -> Action
    ensures { action_of result ≡ if context.now.halfway then step.Wait else step.action (step.StoreFirst slot) (value expr.now (env_of context.now.locations.now context.now.slots.now)) }
{
    if context.halfway {
        Action::Wait
    } else {
        assign_first(slot, expr, context.locations, context.slots)
    }
}

// The assignment of `x = next y`, or `Wait` before the rendezvous.
fn second_part(slot: u32, other: u32, context: &StatementContext<'_>) -> Action
    ensures { action_of result ≡ if context.now.halfway then step.Store slot (env_of context.now.locations.now context.now.slots.now other) else step.Wait }
{
    if context.halfway {
        Action::Store(slot, value_in(context.locations, context.slots, other))
    } else {
        Action::Wait
    }
}

// What a `try` asks for: its exception comes into force, or, where the process is full, the trap `Depth`.
fn install(exception: u32, slot: Option<u32>, context: &StatementContext<'_>) -> Action
    ensures { action_of result ≡ step.limited context.now.full (step.Install exception (step.try_name (unit_or (slice_get context.now.units.now context.now.unit)) exception) slot) }
{
    if context.full {
        Action::Trapped(Trap::Depth)
    } else {
        Action::Install(
            exception,
            try_name(context.units, context.unit, exception),
            slot,
        )
    }
}

/// What a statement asks for; `Wait` where there is no statement.
pub fn next_action(
    alloc: Global,
    stmt: Option<&UStmt>,
    context: &StatementContext<'_>,
) -> Result<Action, NoMemory>
    requires { context.now.first + length context.now.places.now < 2 ^ 32 }
    ensures { IfOk result (λ d. action_of d ≡ step.stmt_action (option_copied stmt.entry) (context_view context.now)) }
{
    match stmt {
        None => Ok(Action::Wait),
        Some(stmt) => what_action(alloc, stmt, context),
    }
}
