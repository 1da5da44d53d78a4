// The canonical text of expressions, with parentheses only where they are needed.
ghost use Rattle.std.specs.Prelude.{◌≡◌, ◌++◌, OnOk};
ghost use Rattle.shim_syntax.specs.Printing.{args_pieces, call_pieces, expr_pieces, expr_row, first_value_pieces, more_args_pieces, test_pieces, pieces_text, wrapped};

use super::words::{binary_row, binary_sign, push_number, push_word, unary_sign};
use crate::tree::{Call, Expr};
use shim_base::{List, NoMemory};

// The row of the outermost operator where it has two operands, and else 0.
fn outer_row(expr: &Expr) -> u8
    ensures { result ≡ expr_row expr.now }
{
    match expr {
        Expr::Binary(op, _, _) => binary_row(*op),
        _ => 0,
    }
}

#[cycle(expressions)]
pub(super) fn push_expr(text: &mut List<u8>, expr: &Expr) -> Result<(), NoMemory>
    ensures { OnOk result (text.new ≡ text.old ++ pieces_text (expr_pieces expr.now)) }
{
    match expr {
        Expr::Number(number) => push_number(text, *number),
        Expr::Var(name) => push_word(text, name),
        Expr::Unary(op, inner) => {
            text.extend_from_slice(unary_sign(*op))?;
            text.push(b' ')?;
            push_operand(text, inner, outer_row(inner) > 0)
        }
        Expr::Binary(op, left, right) => {
            let row = binary_row(*op);
            push_operand(text, left, outer_row(left) > row)?;
            text.extend_from_slice(binary_sign(*op))?;
            text.push(b' ')?;
            push_operand(text, right, outer_row(right) >= row)
        }
    }
}

#[cycle(expressions)]
fn push_operand(text: &mut List<u8>, expr: &Expr, in_parens: bool) -> Result<(), NoMemory>
    ensures { OnOk result (text.new ≡ text.old ++ pieces_text (wrapped in_parens (expr_pieces expr.now))) }
{
    if in_parens {
        text.extend_from_slice(b"( ")?;
        push_expr(text, expr)?;
        text.extend_from_slice(b") ")
    } else {
        push_expr(text, expr)
    }
}

// The first value of a variable, where it has one.
pub(super) fn push_first_value(text: &mut List<u8>, value: &Option<Expr>) -> Result<(), NoMemory>
    ensures { OnOk result (text.new ≡ text.old ++ pieces_text (first_value_pieces value.now)) }
{
    match value {
        None => Ok(()),
        Some(value) => {
            text.extend_from_slice(b"= ")?;
            push_expr(text, value)
        }
    }
}

// The test of a `for`, where it has one.
pub(super) fn push_test(text: &mut List<u8>, test: &Option<Expr>) -> Result<(), NoMemory>
    ensures { OnOk result (text.new ≡ text.old ++ pieces_text (test_pieces test.now)) }
{
    match test {
        None => Ok(()),
        Some(test) => push_expr(text, test),
    }
}

pub(super) fn push_call(text: &mut List<u8>, call: &Call) -> Result<(), NoMemory>
    ensures { OnOk result (text.new ≡ text.old ++ pieces_text (call_pieces call.now)) }
{
    push_word(text, &call.function)?;
    text.extend_from_slice(b"( ")?;
    push_args(text, call.args.as_slice())?;
    text.extend_from_slice(b") ")
}

fn push_args(text: &mut List<u8>, args: &[Expr]) -> Result<(), NoMemory>
    ensures { OnOk result (text.new ≡ text.old ++ pieces_text (args_pieces args.now)) }
{
    match args.split_first() {
        None => Ok(()),
        Some((arg, more)) => {
            push_expr(text, arg)?;
            push_more_args(text, more)
        }
    }
}

fn push_more_args(text: &mut List<u8>, args: &[Expr]) -> Result<(), NoMemory>
    ensures { OnOk result (text.new ≡ text.old ++ pieces_text (more_args_pieces args.now)) }
{
    for arg in args {
        text.extend_from_slice(b", ")?;
        push_expr(text, arg)?;
    }
    Ok(())
}
