// The actions of statements that concern variables alone.
ghost use Rattle.std.specs.Prelude.{◌≡◌, pos, if◌then◌else◌};
ghost use Rattle.shim_base.specs.Operators.{is_zero};
ghost use Rattle.shim_process.specs.LocalState.{env_of};
ghost use Rattle.shim_process.specs.Steps as step;
ghost use Rattle.shim_process.specs.Todo as todo;
ghost use Rattle.shim_process.specs.Values.{value};
ghost use Rattle.shim_walk.specs.Actions.{action_of};
ghost use Rattle.shim_walk_frames.specs.Turns.{successor_of};

use crate::action::Action;
use shim_base::{Trap, Ty};
use shim_locations::location::Location;
use shim_locations::value::evaluate;
use shim_scopes::UExpr;
use shim_walk_frames::successors::Successor;

/// What a declaration asks for; an absent start is 0. A full process is trapped, after the start is computed.
pub fn declare_action(
    ty: Ty,
    slot: u32,
    start: &Option<UExpr>,
    full: bool,
    locations: &[Option<Location>],
    slots: &[usize],
) -> Action
    ensures { action_of result ≡ step.action (λ v. step.limited full (step.Make ty slot v)) (step.value_or (pos 0) start.now (env_of locations.now slots.now)) }
{
    match value_or(0, start, locations, slots) {
        Ok(_) if full => Action::Trapped(Trap::Depth),
        Ok(value) => Action::Make(ty, slot, value),
        Err(trap) => Action::Trapped(trap),
    }
}

fn value_or(
    absent: i64,
    expr: &Option<UExpr>,
    locations: &[Option<Location>],
    slots: &[usize],
) -> Result<i64, Trap>
    ensures { result ≡ step.value_or absent expr.now (env_of locations.now slots.now) }
{
    match expr {
        None => Ok(absent),
        Some(expr) => evaluate(expr, locations, slots),
    }
}

/// An assignment.
pub fn assign(slot: u32, expr: &UExpr, locations: &[Option<Location>], slots: &[usize]) -> Action
    ensures { action_of result ≡ step.action (step.Store slot) (value expr.now (env_of locations.now slots.now)) }
{
    match evaluate(expr, locations, slots) {
        Ok(value) => Action::Store(slot, value),
        Err(trap) => Action::Trapped(trap),
    }
}

/// The assignment before a rendezvous.
pub fn assign_first(
    slot: u32,
    expr: &UExpr,
    locations: &[Option<Location>],
    slots: &[usize],
) -> Action
    ensures { action_of result ≡ step.action (step.StoreFirst slot) (value expr.now (env_of locations.now slots.now)) }
{
    match evaluate(expr, locations, slots) {
        Ok(value) => Action::StoreFirst(slot, value),
        Err(trap) => Action::Trapped(trap),
    }
}

fn tested(value: Result<i64, Trap>, other: Successor) -> Action
    ensures { action_of result ≡ step.action (λ v. step.Go (if is_zero v then successor_of other else todo.First)) value }
{
    match value {
        Ok(0) => Action::Go(other),
        Ok(_) => Action::Go(Successor::First),
        Err(trap) => Action::Trapped(trap),
    }
}

/// What a test asks for: a 0 leads to the successor `other`, and another number into the first block.
pub fn test(
    other: Successor,
    expr: &UExpr,
    locations: &[Option<Location>],
    slots: &[usize],
) -> Action
    ensures { action_of result ≡ step.action (λ v. step.Go (if is_zero v then successor_of other else todo.First)) (value expr.now (env_of locations.now slots.now)) }
{
    tested(evaluate(expr, locations, slots), other)
}

/// The test of a `for`; an absent one holds.
pub fn test_or(
    other: Successor,
    expr: &Option<UExpr>,
    locations: &[Option<Location>],
    slots: &[usize],
) -> Action
    ensures { action_of result ≡ step.action (λ v. step.Go (if is_zero v then successor_of other else todo.First)) (step.value_or (pos 1) expr.now (env_of locations.now slots.now)) }
{
    tested(value_or(1, expr, locations, slots), other)
}
