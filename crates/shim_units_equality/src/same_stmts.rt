// When two statements are the same.
ghost use Rattle.std.specs.Prelude.{◌≡◌, ◌↔◌, IsTrue};

use crate::same::{Same, same_all};
use crate::same_exprs::{same_expr, same_option};
use shim_units::{UStmt, UWhat};

// Whether two handlers have no variable, or the same.
fn same_variable(one: &Option<u32>, other: &Option<u32>) -> bool
    ensures { IsTrue result ↔ (one.now ≡ other.now) }
{
    match (one, other) {
        (None, None) => true,
        (Some(one), Some(other)) => *one == *other,
        _ => false,
    }
}

// Whether they do the same.
#[cycle(same)]
fn same_what(one: &UWhat, other: &UWhat) -> bool
    ensures { IsTrue result ↔ (one.now ≡ other.now) }
{
    match (one, other) {
        (UWhat::Declare(ty, slot, start), UWhat::Declare(kind, other, first)) => {
            *ty == *kind && *slot == *other && same_option(start, first)
        }
        (UWhat::Assign(slot, expr), UWhat::Assign(other, second)) => {
            *slot == *other && same_expr(expr, second)
        }
        (UWhat::Next(slot), UWhat::Next(other)) => *slot == *other,
        (UWhat::NextAssign(slot, expr), UWhat::NextAssign(other, second)) => {
            *slot == *other && same_expr(expr, second)
        }
        (UWhat::AssignNext(slot, from), UWhat::AssignNext(other, second)) => {
            *slot == *other && *from == *second
        }
        (UWhat::Get(slot, from), UWhat::Get(other, second)) => *slot == *other && *from == *second,
        (UWhat::Put(slot, expr), UWhat::Put(other, second)) => {
            *slot == *other && same_expr(expr, second)
        }
        (UWhat::If(test, first, second), UWhat::If(other, then, otherwise)) => {
            same_expr(test, other)
                && same_stmts(first.as_slice(), then.as_slice())
                && same_stmts(second.as_slice(), otherwise.as_slice())
        }
        (UWhat::While(test, body), UWhat::While(other, second)) => {
            same_expr(test, other) && same_stmts(body.as_slice(), second.as_slice())
        }
        (UWhat::For(first, test, step, body), UWhat::For(start, other, last, second)) => {
            same_option(test, other)
                && same_stmts(first.as_slice(), start.as_slice())
                && same_stmts(step.as_slice(), last.as_slice())
                && same_stmts(body.as_slice(), second.as_slice())
        }
        (UWhat::Block(body), UWhat::Block(second)) => {
            same_stmts(body.as_slice(), second.as_slice())
        }
        (UWhat::Call(call), UWhat::Call(other)) => call.same(other),
        (
            UWhat::Try(body, exception, variable, handler),
            UWhat::Try(second, other, slot, otherwise),
        ) => {
            *exception == *other
                && same_variable(variable, slot)
                && same_stmts(body.as_slice(), second.as_slice())
                && same_stmts(handler.as_slice(), otherwise.as_slice())
        }
        (UWhat::Throw(exception, expr), UWhat::Throw(other, second)) => {
            *exception == *other && same_option(expr, second)
        }
        (UWhat::Par(branches), UWhat::Par(second)) => {
            same_all(branches.as_slice(), second.as_slice())
        }
        _ => false,
    }
}

// Whether they stand in the same line and do the same.
#[cycle(same)]
fn same_stmt(one: &UStmt, other: &UStmt) -> bool
    ensures { IsTrue result ↔ (one.now ≡ other.now) }
{
    one.line == other.line && same_what(&one.what, &other.what)
}

/// Whether two lists of statements are the same.
#[cycle(same)]
pub fn same_stmts(one: &[UStmt], other: &[UStmt]) -> bool
    ensures { IsTrue result ↔ (one.now ≡ other.now) }
{
    let mut left = other;
    for stmt in one {
        let Some((first, rest)) = left.split_first() else {
            return false;
        };
        if !same_stmt(stmt, first) {
            return false;
        }
        left = rest;
    }
    left.is_empty()
}
