// The operators of expressions: what each gives for its operands, and where it traps.
ghost use Rattle.std.specs.Prelude.{◌≡◌, ◌<◌, ◌^◌, pos, ◌*ℤ◌, if◌then◌else◌, unsigned_abs, Ok, Err};
ghost use Rattle.shim_base.specs.Operators.{applied, applied1, fitted, is_count};

/// An operator with one operand.
#[derive(Clone, Copy, Debug, PartialEq, Eq)]
pub enum UnOp {
    /// `-a`, the exact opposite; `Overflow` for the least number.
    Neg,

    /// `!a`, 1 where a is 0, and else 0.
    Not,

    /// `~a`, each of the 64 bits turned over.
    Flip,
}

/// An operator with two operands.
#[derive(Clone, Copy, Debug, PartialEq, Eq)]
pub enum BinOp {
    /// `a * b`, the exact product, or `Overflow`.
    Mul,

    /// `a / b`, the quotient, cut toward zero; `Zero` where b is 0, and `Overflow` for the least
    /// number by -1.
    Div,

    /// `a % b`, what that quotient leaves, with the sign of a; `Zero` where b is 0. For the least
    /// number by -1 it is 0.
    Rem,

    /// `a + b`, the exact sum, or `Overflow`.
    Add,

    /// `a - b`, the exact difference, or `Overflow`.
    Sub,

    /// `a << b`, the exact product of a and 2 to the b; `Shift` where b isn't from 0 to 63, and else
    /// `Overflow` where the product doesn't fit.
    Shl,

    /// `a >> b`, the quotient of a and 2 to the b, rounded down; `Shift` where b isn't from 0 to 63.
    Shr,

    /// `a < b`, 1 where it holds, and else 0, as with each comparison.
    Lt,

    /// `a <= b`.
    Le,

    /// `a > b`.
    Gt,

    /// `a >= b`.
    Ge,

    /// `a == b`.
    Eq,

    /// `a != b`.
    Ne,

    /// `a & b`, the bits that both have.
    BitAnd,

    /// `a ^ b`, the bits that one of them has alone.
    BitXor,

    /// `a | b`, the bits that either has.
    BitOr,

    /// `a && b`, 1 where neither is 0, and else 0.
    And,

    /// `a || b`, 1 where at least one isn't 0, and else 0.
    Or,
}

/// Why an operation has no value.
#[derive(Clone, Copy, Debug, PartialEq, Eq)]
pub enum Trap {
    /// The exact result doesn't fit 64 bits with a sign.
    Overflow,

    /// The divisor of a quotient or a remainder is 0.
    Zero,

    /// The count of a shift isn't from 0 to 63.
    Shift,

    /// Forks or calls stand too deep in one another, or a process has made too many channels or
    /// forks; no operator gives it.
    Depth,
}

/// What the operator gives for two numbers. Both are already computed: of `&&` and `||` this is the
/// truth value of the two, and whoever computes the right side asks first whether it is wanted.
// Inline: in the loops of the machine a call costs as much as all else of the instruction.
#[inline(always)]
pub fn apply(op: BinOp, a: i64, b: i64) -> Result<i64, Trap>
    ensures { result ≡ applied op a b }
{
    match op {
        BinOp::Mul => a.checked_mul(b).ok_or(Trap::Overflow),
        BinOp::Div => quotient(a, b),
        BinOp::Rem => remainder(a, b),
        BinOp::Add => a.checked_add(b).ok_or(Trap::Overflow),
        BinOp::Sub => a.checked_sub(b).ok_or(Trap::Overflow),
        BinOp::Shl => shift_left(a, b),
        BinOp::Shr => shift_right(a, b),
        BinOp::Lt => Ok(i64::from(a < b)),
        BinOp::Le => Ok(i64::from(a <= b)),
        BinOp::Gt => Ok(i64::from(a > b)),
        BinOp::Ge => Ok(i64::from(a >= b)),
        BinOp::Eq => Ok(i64::from(a == b)),
        BinOp::Ne => Ok(i64::from(a != b)),
        BinOp::BitAnd => Ok(a & b),
        BinOp::BitXor => Ok(a ^ b),
        BinOp::BitOr => Ok(a | b),
        BinOp::And => Ok(i64::from(a != 0 && b != 0)),
        BinOp::Or => Ok(i64::from(a != 0 || b != 0)),
    }
}

/// What the operator gives for one number.
pub fn apply1(op: UnOp, a: i64) -> Result<i64, Trap>
    ensures { result ≡ applied1 op a }
{
    match op {
        UnOp::Neg => a.checked_neg().ok_or(Trap::Overflow),
        UnOp::Not => Ok(i64::from(a == 0)),
        UnOp::Flip => Ok(!a),
    }
}

#[inline(never)]
fn quotient(a: i64, b: i64) -> Result<i64, Trap>
    ensures { result ≡ applied BinOp.Div a b }
{
    if b == 0 {
        return Err(Trap::Zero);
    }
    a.checked_div(b).ok_or(Trap::Overflow)
}

#[inline(never)]
fn remainder(a: i64, b: i64) -> Result<i64, Trap>
    ensures { result ≡ applied BinOp.Rem a b }
{
    if b == 0 {
        return Err(Trap::Zero);
    }
    Ok(a.wrapping_rem(b))
}

// The number as the count of a shift, or `Shift` where it isn't from 0 to 63.
#[inline(always)]
fn count(b: i64) -> Result<u32, Trap>
    ensures { result ≡ if is_count b then Ok (unsigned_abs b) else Err Trap.Shift }
{
    if 0 <= b && b < 64 {
        Ok(b as u32)
    } else {
        Err(Trap::Shift)
    }
}

#[inline(always)]
fn shift_left(a: i64, b: i64) -> Result<i64, Trap>
    ensures { result ≡ applied BinOp.Shl a b }
{
    doubled(a, count(b)?)
}

// The number times 2 to the count, or `Overflow` where the product doesn't fit 64 bits with a sign. In 128 bits
// no product of a number and this power overflows.
#[inline(always)]
#[tactic(auto, using(crate::proofs::Shifts::int_shl_is))]
fn doubled(a: i64, count: u32) -> Result<i64, Trap>
    requires { count < 64 }
    ensures { result ≡ fitted (a *ℤ pos (2 ^ count)) }
{
    i64::try_from(i128::from(a) << count).map_err(|_| Trap::Overflow)
}

#[inline(always)]
fn shift_right(a: i64, b: i64) -> Result<i64, Trap>
    ensures { result ≡ applied BinOp.Shr a b }
{
    Ok(a >> count(b)?)
}
