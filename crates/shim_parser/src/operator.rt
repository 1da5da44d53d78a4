// The operators with two operands, by their signs.
ghost use Rattle.std.specs.Prelude.{◌≡◌, ◌≤◌};
ghost use Rattle.shim_syntax.specs.Grammar as grammar;

use shim_base::{BinOp, Sign};

/// The row of an operator with two operands, from 1, the one that binds tightest, to 10; 0 for any
/// other sign.
pub(crate) fn row_of_sign(sign: Sign) -> u8
    ensures is { result ≡ grammar.row_of_sign sign }
    ensures at_most { result ≤ 10 }
{
    match sign {
        Sign::Star | Sign::Slash | Sign::Percent => 1,
        Sign::Plus | Sign::Minus => 2,
        Sign::Shl | Sign::Shr => 3,
        Sign::Less | Sign::Le | Sign::Greater | Sign::Ge => 4,
        Sign::EqEq | Sign::NotEq => 5,
        Sign::Amp => 6,
        Sign::Caret => 7,
        Sign::Bar => 8,
        Sign::AndAnd => 9,
        Sign::OrOr => 10,
        _ => 0,
    }
}

/// The operator with two operands that the sign is; `Mul` where it is none.
pub(crate) fn binary_of(sign: Sign) -> BinOp
    ensures { result ≡ grammar.operator_of_sign sign }
{
    match sign {
        Sign::Slash => BinOp::Div,
        Sign::Percent => BinOp::Rem,
        Sign::Plus => BinOp::Add,
        Sign::Minus => BinOp::Sub,
        Sign::Shl => BinOp::Shl,
        Sign::Shr => BinOp::Shr,
        Sign::Less => BinOp::Lt,
        Sign::Le => BinOp::Le,
        Sign::Greater => BinOp::Gt,
        Sign::Ge => BinOp::Ge,
        Sign::EqEq => BinOp::Eq,
        Sign::NotEq => BinOp::Ne,
        Sign::Amp => BinOp::BitAnd,
        Sign::Caret => BinOp::BitXor,
        Sign::Bar => BinOp::BitOr,
        Sign::AndAnd => BinOp::And,
        Sign::OrOr => BinOp::Or,
        _ => BinOp::Mul,
    }
}
