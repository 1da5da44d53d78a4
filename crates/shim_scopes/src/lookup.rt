// What names of variables and exceptions are bound to, and expressions over slots.
ghost use Rattle.std.specs.Prelude.{◌≡◌, IfOk};
ghost use Rattle.std.specs.Option.{option_copied, option_or};
ghost use Rattle.shim_scopes.specs.Binding.{binding_of, exception_of, unknown, unknown_in, no_number, no_input, no_output, stream_in, bare, slot_of, placed, unknown_in_all, placed_all, unknown_in_option, stream_in_option, placed_option, exception_number, unhandled};

use crate::scope::{Bound, Handled, LocalDeclaration};
use crate::tree::UExpr;
use shim_base::{Boxed, List, Name, NoMemory};
use shim_syntax::word::is_same;
use shim_syntax::{Expr, Sort};
use std::alloc::Global;

// What a name is bound to: the last declaration in scope that has it.
pub fn look_up(visible: &[LocalDeclaration], name: &Name) -> Option<Bound>
    ensures { result ≡ binding_of name.now visible.now }
{
    match visible.iter().rev().find(|one| is_same(&one.name, name)) {
        Some(local) => Some(local.bound),
        None => None,
    }
}

// The number of the innermost exception of a name.
pub fn look_up_exception(handled: &[Handled], name: &Name) -> Option<u32>
    ensures { result ≡ exception_of name.now handled.now }
{
    match handled.iter().rev().find(|one| is_same(&one.name, name)) {
        Some(one) => Some(one.number),
        None => None,
    }
}

// The name, where no exception of it is in scope.
pub fn find_unhandled<'a>(handled: &[Handled], name: &'a Name) -> Option<&'a Name>
    ensures { option_copied result ≡ unhandled handled.now name.now }
{
    match look_up_exception(handled, name) {
        Some(_) => None,
        None => Some(name),
    }
}

pub fn exception_at(handled: &[Handled], name: &Name) -> u32
    ensures { result ≡ exception_number handled.now name.now }
{
    match look_up_exception(handled, name) {
        Some(number) => number,
        None => 0,
    }
}

// The name, where it has no declaration in scope.
pub fn find_unknown_name<'a>(visible: &[LocalDeclaration], name: &'a Name) -> Option<&'a Name>
    ensures { option_copied result ≡ unknown visible.now name.now }
{
    match look_up(visible, name) {
        Some(_) => None,
        None => Some(name),
    }
}

// The name, where it is bound to a stream.
pub fn find_stream_name<'a>(visible: &[LocalDeclaration], name: &'a Name) -> Option<&'a Name>
    ensures { option_copied result ≡ no_number visible.now name.now }
{
    match look_up(visible, name) {
        Some(bound) => match bound.sort {
            Sort::Value(_) => None,
            Sort::Input => Some(name),
            Sort::Output => Some(name),
        },
        None => None,
    }
}

// The name, where it is bound to something else than the stream that comes in.
pub fn find_no_input<'a>(visible: &[LocalDeclaration], name: &'a Name) -> Option<&'a Name>
    ensures { option_copied result ≡ no_input visible.now name.now }
{
    match look_up(visible, name) {
        Some(bound) => match bound.sort {
            Sort::Value(_) => Some(name),
            Sort::Input => None,
            Sort::Output => Some(name),
        },
        None => None,
    }
}

// The name, where it is bound to something else than the stream that goes out.
pub fn find_no_output<'a>(visible: &[LocalDeclaration], name: &'a Name) -> Option<&'a Name>
    ensures { option_copied result ≡ no_output visible.now name.now }
{
    match look_up(visible, name) {
        Some(bound) => match bound.sort {
            Sort::Value(_) => Some(name),
            Sort::Input => Some(name),
            Sort::Output => None,
        },
        None => None,
    }
}

// The leftmost name of an expression that has no declaration in scope.
#[tactic(auto, unfolding(crate::specs::Binding::unknown_in))]
pub fn find_unknown<'a>(visible: &[LocalDeclaration], expr: &'a Expr) -> Option<&'a Name>
    ensures { option_copied result ≡ unknown_in visible.now expr.now }
{
    match expr {
        Expr::Number(_) => None,
        Expr::Var(name) => find_unknown_name(visible, name),
        Expr::Unary(_, inner) => find_unknown(visible, inner),
        Expr::Binary(_, left, right) => match find_unknown(visible, left) {
            Some(name) => Some(name),
            None => find_unknown(visible, right),
        },
    }
}

// The leftmost name of an expression that is a stream.
#[tactic(auto, unfolding(crate::specs::Binding::stream_in))]
pub fn find_stream<'a>(visible: &[LocalDeclaration], expr: &'a Expr) -> Option<&'a Name>
    ensures { option_copied result ≡ stream_in visible.now expr.now }
{
    match expr {
        Expr::Number(_) => None,
        Expr::Var(name) => find_stream_name(visible, name),
        Expr::Unary(_, inner) => find_stream(visible, inner),
        Expr::Binary(_, left, right) => match find_stream(visible, left) {
            Some(name) => Some(name),
            None => find_stream(visible, right),
        },
    }
}

// The name that an expression is, where it is one.
#[tactic(auto, unfolding(crate::specs::Binding::bare))]
pub fn find_bare(expr: &Expr) -> Option<&Name>
    ensures { option_copied result ≡ bare expr.now }
{
    match expr {
        Expr::Var(name) => Some(name),
        _ => None,
    }
}

pub fn slot_in(visible: &[LocalDeclaration], name: &Name) -> u32
    ensures { result ≡ slot_of visible.now name.now }
{
    match look_up(visible, name) {
        Some(bound) => bound.slot,
        None => 0,
    }
}

// The expression over slots.
#[tactic(auto, unfolding(crate::specs::Binding::placed))]
pub fn resolve_expr(
    alloc: Global,
    visible: &[LocalDeclaration],
    expr: &Expr,
) -> Result<UExpr, NoMemory>
    ensures { IfOk result (λ made. made ≡ placed visible.now expr.now) }
{
    match expr {
        Expr::Number(number) => Ok(UExpr::Number(*number)),
        Expr::Var(name) => Ok(UExpr::Var(slot_in(visible, name))),
        Expr::Unary(op, inner) => {
            let inner = resolve_expr(alloc, visible, inner)?;
            Ok(UExpr::Unary(*op, Boxed::new(alloc, inner)?))
        }
        Expr::Binary(op, left, right) => {
            let left = resolve_expr(alloc, visible, left)?;
            let right = resolve_expr(alloc, visible, right)?;
            Ok(UExpr::Binary(*op, Boxed::new(alloc, left)?, Boxed::new(alloc, right)?))
        }
    }
}

// The leftmost name of some expressions that has no declaration in scope.
pub fn find_unknown_of_all<'a>(visible: &[LocalDeclaration], exprs: &'a [Expr]) -> Option<&'a Name>
    ensures { option_copied result ≡ unknown_in_all visible.now exprs.now }
{
    for expr in exprs {
        match find_unknown(visible, expr) {
            Some(name) => return Some(name),
            None => {}
        }
    }
    None
}

pub fn resolve_exprs(
    alloc: Global,
    visible: &[LocalDeclaration],
    exprs: &[Expr],
) -> Result<List<UExpr>, NoMemory>
    ensures { IfOk result (λ made. made ≡ placed_all visible.now exprs.now) }
{
    let mut made = List::new(alloc);
    for expr in exprs {
        made.push(resolve_expr(alloc, visible, expr)?)?;
    }
    Ok(made)
}

pub fn find_unknown_in_option<'a>(
    visible: &[LocalDeclaration],
    expr: &'a Option<Expr>,
) -> Option<&'a Name>
    ensures { option_copied result ≡ unknown_in_option visible.now expr.now }
{
    match expr {
        Some(expr) => find_unknown(visible, expr),
        None => None,
    }
}

pub fn find_stream_in_option<'a>(
    visible: &[LocalDeclaration],
    expr: &'a Option<Expr>,
) -> Option<&'a Name>
    ensures { option_copied result ≡ stream_in_option visible.now expr.now }
{
    match expr {
        Some(expr) => find_stream(visible, expr),
        None => None,
    }
}

pub fn resolve_option(
    alloc: Global,
    visible: &[LocalDeclaration],
    expr: &Option<Expr>,
) -> Result<Option<UExpr>, NoMemory>
    ensures { IfOk result (λ made. made ≡ placed_option visible.now expr.now) }
{
    match expr {
        Some(expr) => {
            let expr = resolve_expr(alloc, visible, expr)?;
            Ok(Some(expr))
        }
        None => Ok(None),
    }
}

// The first of two, where there is one, and else the second.
pub fn first_of<'a>(first: Option<&'a Name>, second: Option<&'a Name>) -> Option<&'a Name>
    ensures { option_copied result ≡ option_or (option_copied first.entry) (option_copied second.entry) }
{
    match first {
        Some(name) => Some(name),
        None => second,
    }
}
