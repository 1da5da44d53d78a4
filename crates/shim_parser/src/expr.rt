// Expressions.
ghost use Rattle.std.specs.Prelude.{◌≡◌, ◌≤◌, false, [], ◌∷◌, IfOk};
ghost use Rattle.shim_syntax.specs.Terminals.{first};
ghost use Rattle.shim_syntax.specs.Limits.{limits};
ghost use Rattle.shim_syntax.specs.Grammar.{IsExpr, IsWhole};
ghost use Rattle.shim_grammar.specs.Machine.{Fixed, Operand, Inside, Operators, Expression};
ghost use Rattle.shim_grammar.specs.declared.punctuation.Punctuation.TheVariants as punctuation;
ghost use Rattle.shim_grammar.specs.Machine.{is_operator};
ghost use Rattle.shim_parser.specs.Parts as parts;
ghost use Rattle.shim_parser.specs.Parts.{IsEntered, IsUnarySign, IsWholeBefore, IsTestOf, Stops};
ghost use Rattle.shim_parser.specs.ReaderViews.{Reads};

use crate::fault::ParseFault;
use crate::operator::{binary_of, row_of_sign};
use crate::parts::punctuation;
use crate::reader::Reader;
use crate::terminal::Terminal;
use shim_base::{BinOp, Boxed, Name, NoMemory, Sign, UnOp};
use shim_grammar::Punctuation;
use shim_syntax::Expr;
use std::alloc::Global;

/// The row of the operators that bind loosest.
const LOOSEST: u8 = 10;

fn binary(alloc: Global, op: BinOp, left: Expr, right: Expr) -> Result<Expr, NoMemory>
    ensures { IfOk result (λ x. x ≡ Expr.Binary op left right) }
{
    let left = Boxed::new(alloc, left)?;
    let right = Boxed::new(alloc, right)?;
    Ok(Expr::Binary(op, left, right))
}

fn unary(alloc: Global, op: UnOp, operand: Expr) -> Result<Expr, NoMemory>
    ensures { IfOk result (λ x. x ≡ Expr.Unary op operand) }
{
    Ok(Expr::Unary(op, Boxed::new(alloc, operand)?))
}

/// Whether an operand begins with the next terminal.
pub(crate) fn begins_operand(tokens: &Reader) -> bool
    ensures { result ≡ parts.begins_operand (first tokens.now.rest) }
{
    match tokens.peek().what {
        Terminal::Number(_) | Terminal::Name(_) => true,
        Terminal::Sign(Sign::LeftParen | Sign::Minus | Sign::Bang | Sign::Tilde) => true,
        _ => false,
    }
}

/// An operand that is a thing of this level begins.
fn enter_operand(tokens: &mut Reader, level: u16) -> Result<(), ParseFault>
    ensures { Reads (IsEntered level) (Inside level ∷ []) result tokens.old tokens.new }
{
    if !begins_operand(tokens) {
        return Err(tokens.unexpected());
    }
    tokens.enter(level)
}

/// An operator with one operand, which is the next terminal, together with the operand.
#[cycle(expr)]
fn operand_of(alloc: Global, tokens: &mut Reader, op: UnOp, level: u16) -> Result<Expr, ParseFault>
    requires level { level ≤ 64 }
    requires sign { IsUnarySign op (first tokens.old.rest) }
    ensures { Reads (IsExpr limits 0 level) (Operand level ∷ []) result tokens.old tokens.new }
{
    tokens.count_operator()?;
    tokens.advance();
    enter_operand(tokens, level + 1)?;
    let operand = operand(alloc, tokens, level + 1)?;
    Ok(unary(alloc, op, operand)?)
}

#[cycle(expr)]
fn operand(alloc: Global, tokens: &mut Reader, level: u16) -> Result<Expr, ParseFault>
    requires { level ≤ 64 }
    ensures { Reads (IsExpr limits 0 level) (Operand level ∷ []) result tokens.old tokens.new }
{
    match tokens.peek().what {
        Terminal::Number(n) => {
            tokens.advance();
            Ok(Expr::Number(n))
        }
        Terminal::Name(text) => {
            tokens.advance();
            Ok(Expr::Var(Name::new(alloc, text)?))
        }
        Terminal::Sign(Sign::LeftParen) => {
            tokens.advance();
            enter_operand(tokens, level + 1)?;
            let inside = row(alloc, tokens, LOOSEST, level + 1)?;
            punctuation(tokens, Punctuation::RightParen)?;
            Ok(inside)
        }
        Terminal::Sign(Sign::Minus) => operand_of(alloc, tokens, UnOp::Neg, level),
        Terminal::Sign(Sign::Bang) => operand_of(alloc, tokens, UnOp::Not, level),
        Terminal::Sign(Sign::Tilde) => operand_of(alloc, tokens, UnOp::Flip, level),
        _ => Err(tokens.unexpected()),
    }
}

/// An expression of this row or a tighter one.
#[cycle(expr)]
fn row(alloc: Global, tokens: &mut Reader, n: u8, level: u16) -> Result<Expr, ParseFault>
    requires row { n ≤ 10 }
    requires level { level ≤ 64 }
    ensures reads { Reads (IsExpr limits n level) (Operand level ∷ Operators level ∷ []) result tokens.old tokens.new }
    ensures stops { IfOk result (λ _. Stops n tokens.new.rest) }
{
    if n == 0 {
        return operand(alloc, tokens, level);
    }
    let mut left = row(alloc, tokens, n - 1, level)?;
    'operators: loop {
        let Terminal::Sign(sign) = tokens.peek().what else {
            return Ok(left);
        };
        if row_of_sign(sign) != n {
            return Ok(left);
        }
        tokens.count_operator()?;
        tokens.advance();
        let right = row(alloc, tokens, n - 1, level)?;
        left = binary(alloc, binary_of(sign), left, right)?;
    }
}

/// A whole expression.
pub(crate) fn expression(alloc: Global, tokens: &mut Reader, level: u16) -> Result<Expr, ParseFault>
    requires { level ≤ 64 }
    ensures reads { Reads (IsWhole limits level) (Expression level ∷ Operators level ∷ []) result tokens.old tokens.new }
    ensures stops { IfOk result (λ _. is_operator (first tokens.new.rest) ≡ false) }
{
    tokens.begin_expression();
    row(alloc, tokens, LOOSEST, level)
}

/// A whole expression, and the punctuation that must come after it.
pub(crate) fn expression_before(
    alloc: Global,
    tokens: &mut Reader,
    level: u16,
    behind: Punctuation,
) -> Result<Expr, ParseFault>
    requires { level ≤ 64 }
    ensures { Reads (IsWholeBefore behind level) (Expression level ∷ Operators level ∷ Fixed behind ∷ []) result tokens.old tokens.new }
{
    let value = expression(alloc, tokens, level)?;
    punctuation(tokens, behind)?;
    Ok(value)
}

/// A test in parentheses.
pub(crate) fn test(alloc: Global, tokens: &mut Reader, level: u16) -> Result<Expr, ParseFault>
    requires { level ≤ 64 }
    ensures { Reads (IsTestOf level) (Fixed punctuation.LeftParen ∷ Expression level ∷ Operators level ∷ Fixed punctuation.RightParen ∷ []) result tokens.old tokens.new }
{
    punctuation(tokens, Punctuation::LeftParen)?;
    expression_before(alloc, tokens, level, Punctuation::RightParen)
}
