// The statements of a unit, and the units that are lifted out of them.
ghost use Rattle.std.specs.Prelude.{◌≡◌, ◌+◌, ◌++◌, length, IfOk, OnOk};
ghost use Rattle.shim_units.specs.LiftContextView.{lift_context_view};
ghost use Rattle.shim_units.specs.Lifting.{lift_all, lift_branch};
ghost use Rattle.shim_sharing.specs.Room.{HasRoomToLift};
ghost use Rattle.shim_units.specs.Sizes.{in_own_units, stmt_extent, branch_extent, extent, fork_extent};
ghost use Rattle.shim_units.specs.PartFold.{part, parts, branch_part, branch_parts, lift_in};

use shim_base::{List, NoMemory};
use shim_scopes::{RBranch, RBranchWhat, RStmt, RWhat};
use shim_units::{
    LiftContext, SlotMap, UBranch, UCall, UStmt, UWhat, Unit, call_branch, close_branch, move_call,
    move_expr, move_option, number_after, open_branch, slot_index, slot_index_of_option,
};
use std::alloc::Global;

// Statements of a unit. The units that are lifted out of them go to the end of `units`, whose first unit has
// the number `next`.
#[cycle(lift)]
pub fn lift_body(
    alloc: Global,
    context: &LiftContext,
    slot_map: &SlotMap,
    next: u32,
    units: &mut List<Unit>,
    body: &[RStmt],
) -> Result<List<UStmt>, NoMemory>
    requires { HasRoomToLift slot_map.now (next + length units.now) (extent body.now) }
    ensures tree { IfOk result (λ made. made ≡ (lift_in body.now (lift_context_view context.now) slot_map.now (next + length units.old)).tree) }
    ensures units { OnOk result (units.new ≡ units.old ++ (lift_in body.now (lift_context_view context.now) slot_map.now (next + length units.old)).units) }
{
    let mut made = List::new(alloc);
    for stmt in body {
        made.push(lift_stmt(alloc, context, slot_map, next, units, stmt)?)?;
    }
    Ok(made)
}

#[cycle(lift)]
fn lift_stmt(
    alloc: Global,
    context: &LiftContext,
    slot_map: &SlotMap,
    next: u32,
    units: &mut List<Unit>,
    stmt: &RStmt,
) -> Result<UStmt, NoMemory>
    requires { HasRoomToLift slot_map.now (next + length units.now) (stmt_extent stmt.now) }
    ensures tree { IfOk result (λ made. made ≡ ((part stmt.now).lift (lift_context_view context.now) slot_map.now (next + length units.old)).tree) }
    ensures units { OnOk result (units.new ≡ units.old ++ ((part stmt.now).lift (lift_context_view context.now) slot_map.now (next + length units.old)).units) }
{
    let what = lift_what(alloc, context, slot_map, next, units, stmt)?;
    Ok(UStmt {
        line: stmt.line,
        what,
    })
}

#[cycle(lift)]
fn lift_what(
    alloc: Global,
    context: &LiftContext,
    slot_map: &SlotMap,
    next: u32,
    units: &mut List<Unit>,
    stmt: &RStmt,
) -> Result<UWhat, NoMemory>
    requires { HasRoomToLift slot_map.now (next + length units.now) (stmt_extent stmt.now) }
    ensures tree { IfOk result (λ made. made ≡ ((part stmt.now).lift (lift_context_view context.now) slot_map.now (next + length units.old)).tree.what) }
    ensures units { OnOk result (units.new ≡ units.old ++ ((part stmt.now).lift (lift_context_view context.now) slot_map.now (next + length units.old)).units) }
{
    let slots = slot_map.slots.as_slice();
    match &stmt.what {
        RWhat::Declare(ty, slot, expr) => {
            let slot = slot_index(slots, *slot);
            let expr = move_option(alloc, slots, expr)?;
            Ok(UWhat::Declare(*ty, slot, expr))
        }
        RWhat::Assign(slot, expr) => {
            let slot = slot_index(slots, *slot);
            let expr = move_expr(alloc, slots, expr)?;
            Ok(UWhat::Assign(slot, expr))
        }
        RWhat::Next(slot) => {
            let slot = slot_index(slots, *slot);
            Ok(UWhat::Next(slot))
        }
        RWhat::NextAssign(slot, expr) => {
            let slot = slot_index(slots, *slot);
            let expr = move_expr(alloc, slots, expr)?;
            Ok(UWhat::NextAssign(slot, expr))
        }
        RWhat::AssignNext(slot, source) => {
            let slot = slot_index(slots, *slot);
            let source = slot_index(slots, *source);
            Ok(UWhat::AssignNext(slot, source))
        }
        RWhat::Get(slot, input) => {
            let slot = slot_index(slots, *slot);
            let input = slot_index(slots, *input);
            Ok(UWhat::Get(slot, input))
        }
        RWhat::Put(output, expr) => {
            let output = slot_index(slots, *output);
            let expr = move_expr(alloc, slots, expr)?;
            Ok(UWhat::Put(output, expr))
        }
        RWhat::If(test, first, other) => {
            let test = move_expr(alloc, slots, test)?;
            let first = lift_body(alloc, context, slot_map, next, units, first.as_slice())?;
            let other = lift_body(alloc, context, slot_map, next, units, other.as_slice())?;
            Ok(UWhat::If(test, first, other))
        }
        RWhat::While(test, body) => {
            let test = move_expr(alloc, slots, test)?;
            let body = lift_body(alloc, context, slot_map, next, units, body.as_slice())?;
            Ok(UWhat::While(test, body))
        }
        RWhat::For(first, test, step, body) => {
            let first = lift_body(alloc, context, slot_map, next, units, first.as_slice())?;
            let test = move_option(alloc, slots, test)?;
            let step = lift_body(alloc, context, slot_map, next, units, step.as_slice())?;
            let body = lift_body(alloc, context, slot_map, next, units, body.as_slice())?;
            Ok(UWhat::For(first, test, step, body))
        }
        RWhat::Block(body) => {
            let body = lift_body(alloc, context, slot_map, next, units, body.as_slice())?;
            Ok(UWhat::Block(body))
        }
        RWhat::Call(call) => {
            let call = move_call(alloc, context.functions, call, slot_map)?;
            Ok(UWhat::Call(call))
        }
        RWhat::Try(body, exception, variable, handler) => {
            let body = lift_body(alloc, context, slot_map, next, units, body.as_slice())?;
            let exception = slot_map.exceptions.index_of(*exception);
            let variable = slot_index_of_option(slots, variable);
            let handler = lift_body(alloc, context, slot_map, next, units, handler.as_slice())?;
            Ok(UWhat::Try(body, exception, variable, handler))
        }
        RWhat::Throw(exception, expr) => {
            let exception = slot_map.exceptions.index_of(*exception);
            let expr = move_option(alloc, slots, expr)?;
            Ok(UWhat::Throw(exception, expr))
        }
        RWhat::Par(branches) => {
            let branches = lift_branches(
                alloc,
                context,
                slot_map,
                next,
                units,
                branches.as_slice(),
            )?;
            Ok(UWhat::Par(branches))
        }
    }
}

#[cycle(lift)]
fn lift_branches(
    alloc: Global,
    context: &LiftContext,
    slot_map: &SlotMap,
    next: u32,
    units: &mut List<Unit>,
    branches: &[RBranch],
) -> Result<List<UBranch>, NoMemory>
    requires { HasRoomToLift slot_map.now (next + length units.now) (fork_extent branches.now) }
    ensures tree { IfOk result (λ made. made ≡ (lift_all (branch_parts branches.now) (lift_context_view context.now) slot_map.now (next + length units.old)).tree) }
    ensures units { OnOk result (units.new ≡ units.old ++ (lift_all (branch_parts branches.now) (lift_context_view context.now) slot_map.now (next + length units.old)).units) }
{
    let mut made = List::new(alloc);
    for branch in branches {
        made.push(lift_branch(alloc, context, slot_map, next, units, branch)?)?;
    }
    Ok(made)
}

#[cycle(lift)]
fn lift_branch(
    alloc: Global,
    context: &LiftContext,
    slot_map: &SlotMap,
    next: u32,
    units: &mut List<Unit>,
    branch: &RBranch,
) -> Result<UBranch, NoMemory>
    requires { HasRoomToLift slot_map.now (next + length units.now) (branch_extent branch.now) }
    ensures tree { IfOk result (λ made. made ≡ ((branch_part branch.now).lift (lift_context_view context.now) slot_map.now (next + length units.old)).tree) }
    ensures units { OnOk result (units.new ≡ units.old ++ ((branch_part branch.now).lift (lift_context_view context.now) slot_map.now (next + length units.old)).units) }
{
    match &branch.what {
        RBranchWhat::Block(body) => {
            let call = lift_block(alloc, context, slot_map, next, units, body.as_slice())?;
            Ok(UBranch {
                line: branch.line,
                call,
            })
        }
        RBranchWhat::Call(call) => {
            let call = move_call(alloc, context.functions, call, slot_map)?;
            Ok(UBranch {
                line: branch.line,
                call,
            })
        }
    }
}

// The call of the unit that a block branch becomes. The unit goes to the end of the list, and after it the
// units that are lifted out of the branch.
#[cycle(lift)]
fn lift_block(
    alloc: Global,
    context: &LiftContext,
    slot_map: &SlotMap,
    next: u32,
    units: &mut List<Unit>,
    body: &[RStmt],
) -> Result<UCall, NoMemory>
    requires { HasRoomToLift slot_map.now (next + length units.now) (in_own_units (extent body.now)) }
    ensures tree { IfOk result (λ made. made ≡ (lift_branch (parts body.now) (lift_context_view context.now) slot_map.now (next + length units.old)).tree) }
    ensures units { OnOk result (units.new ≡ units.old ++ (lift_branch (parts body.now) (lift_context_view context.now) slot_map.now (next + length units.old)).units) }
{
    let unit = number_after(next, units.len());
    let after = unit + 1;
    let captured = open_branch(alloc, context, slot_map, body)?;
    let mut nested = List::new(alloc);
    let body = lift_body(alloc, context, &captured.inner, after, &mut nested, body)?;
    let call = call_branch(alloc, slot_map, unit, &captured)?;
    let lifted = close_branch(alloc, context, unit, &captured, body)?;
    units.push(lifted)?;
    units.append(nested)?;
    Ok(call)
}
