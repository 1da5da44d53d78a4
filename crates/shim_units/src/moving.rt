// Expressions and calls with a unit's own numbers of variables and exceptions.
ghost use Rattle.std.specs.Prelude.{◌≡◌, ◌<◌, ◌≤◌, ◌^◌, IfOk, length, position, nat_eq, Option};
ghost use Rattle.shim_units.specs.Calls.{bare, params_at};
ghost use Rattle.shim_units.specs.Moving.{slot_index_of, slot_index_of_option, renumbered, moved_option, by_mode, arg_of, args_of, moved_call};

use crate::calls::{behind_first, find_bare, lends_first, params_at};
use crate::slot_map::SlotMap;
use crate::unit::{Arg, UCall};
use crate::word::number;
use shim_base::{Boxed, List, NoMemory};
use shim_scopes::{RCall, RFunction, UExpr, UParam};
use std::alloc::Global;

fn find_index(all: &[u32], one: u32) -> Option<usize>
    ensures { result ≡ position (λ y. nat_eq y one) all.now }
{
    all.iter().position(|other| *other == one)
}

#[tactic(auto, unfolding(crate::specs::Moving::slot_index_of))]
pub fn index_in(all: &[u32], one: u32) -> usize
    ensures is { result ≡ slot_index_of all.now one }
    ensures within { result ≤ length all.now }
{
    match find_index(all, one) {
        Some(at) => at,
        None => all.len(),
    }
}

/// The place of one of the function's numbers among those that a unit has; their count where it isn't among them.
pub fn slot_index(all: &[u32], one: u32) -> u32
    requires { length all.now < 2 ^ 32 }
    ensures { result ≡ slot_index_of all.now one }
{
    number(index_in(all, one))
}

/// The expression with the place of each of its slots in the list in place of the slot.
#[tactic(auto, unfolding(crate::specs::Moving::renumbered))]
pub fn move_expr(alloc: Global, slots: &[u32], expr: &UExpr) -> Result<UExpr, NoMemory>
    requires { length slots.now < 2 ^ 32 }
    ensures { IfOk result (λ made. made ≡ renumbered slots.now expr.now) }
{
    match expr {
        UExpr::Number(number) => Ok(UExpr::Number(*number)),
        UExpr::Var(slot) => Ok(UExpr::Var(slot_index(slots, *slot))),
        UExpr::Unary(op, inner) => {
            let inner = move_expr(alloc, slots, inner)?;
            Ok(UExpr::Unary(*op, Boxed::new(alloc, inner)?))
        }
        UExpr::Binary(op, left, right) => {
            let left = move_expr(alloc, slots, left)?;
            let right = move_expr(alloc, slots, right)?;
            Ok(UExpr::Binary(*op, Boxed::new(alloc, left)?, Boxed::new(alloc, right)?))
        }
    }
}

/// The same of an expression, if there is one.
pub fn move_option(
    alloc: Global,
    slots: &[u32],
    expr: &Option<UExpr>,
) -> Result<Option<UExpr>, NoMemory>
    requires { length slots.now < 2 ^ 32 }
    ensures { IfOk result (λ made. made ≡ moved_option slots.now expr.now) }
{
    match expr {
        Some(expr) => {
            let expr = move_expr(alloc, slots, expr)?;
            Ok(Some(expr))
        }
        None => Ok(None),
    }
}

/// The number that the variable of a handler has, where there is one.
pub fn slot_index_of_option(all: &[u32], one: &Option<u32>) -> Option<u32>
    requires { length all.now < 2 ^ 32 }
    ensures { result ≡ slot_index_of_option all.now one.now }
{
    match one {
        Some(slot) => Some(slot_index(all, *slot)),
        None => None,
    }
}

// A bare variable as an argument.
pub fn pass_variable(by_ref: bool, slot: u32) -> Arg
    ensures { result ≡ by_mode by_ref slot }
{
    if by_ref {
        Arg::Ref(slot)
    } else {
        Arg::Pass(slot)
    }
}

fn move_arg(alloc: Global, slots: &[u32], lent: bool, arg: &UExpr) -> Result<Arg, NoMemory>
    requires { length slots.now < 2 ^ 32 }
    ensures { IfOk result (λ made. made ≡ arg_of slots.now lent (bare arg.now) arg.now) }
{
    match find_bare(arg) {
        Some(slot) => {
            let slot = slot_index(slots, slot);
            Ok(pass_variable(lent, slot))
        }
        None => {
            let arg = move_expr(alloc, slots, arg)?;
            Ok(Arg::Fresh(Boxed::new(alloc, arg)?))
        }
    }
}

fn move_args(
    alloc: Global,
    slots: &[u32],
    params: &[UParam],
    args: &[UExpr],
) -> Result<List<Arg>, NoMemory>
    requires { length slots.now < 2 ^ 32 }
    ensures { IfOk result (λ made. made ≡ args_of slots.now params.now args.now) }
{
    let mut made = List::with_capacity(alloc, args.len())?;
    let mut left = params;
    for arg in args {
        made.push(move_arg(alloc, slots, lends_first(left), arg)?)?;
        left = behind_first(left);
    }
    Ok(made)
}

/// A call of a function in a unit.
pub fn move_call(
    alloc: Global,
    functions: &[RFunction],
    call: &RCall,
    slot_map: &SlotMap,
) -> Result<UCall, NoMemory>
    requires slots { length slot_map.now.slots < 2 ^ 32 }
    requires exceptions { length slot_map.now.exceptions < 2 ^ 32 }
    ensures { IfOk result (λ made. made ≡ moved_call functions.now call.now slot_map.now) }
{
    let args = move_args(
        alloc,
        slot_map.slots.as_slice(),
        params_at(functions, call.function),
        call.args.as_slice(),
    )?;
    let throws = slot_map
        .exceptions
        .indices_of(alloc, call.throws.as_slice())?;
    Ok(UCall {
        unit: call.function,
        args,
        throws,
    })
}
