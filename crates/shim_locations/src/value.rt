// The value of an expression.
ghost use Rattle.std.specs.Prelude.{◌≡◌};
ghost use Rattle.shim_process.specs.Values.{value};
ghost use Rattle.shim_process.specs.LocalState.{env_of};

use crate::location::Location;
use crate::locations::value_in;
use shim_base::{BinOp, Trap, apply, apply1};
use shim_scopes::UExpr;

/// The value where the slots have the locations of these numbers, or the trap that comes first.
pub fn evaluate(expr: &UExpr, locations: &[Option<Location>], slots: &[usize]) -> Result<i64, Trap>
    ensures { result ≡ value expr.now (env_of locations.now slots.now) }
{
    match expr {
        UExpr::Number(number) => Ok(*number),
        UExpr::Var(slot) => Ok(value_in(locations, slots, *slot)),
        UExpr::Unary(op, operand) => apply1(*op, evaluate(operand, locations, slots)?),
        UExpr::Binary(BinOp::And, left, right) => {
            if evaluate(left, locations, slots)? == 0 {
                return Ok(0);
            }
            let other = evaluate(right, locations, slots)?;
            Ok(i64::from(other != 0))
        }
        UExpr::Binary(BinOp::Or, left, right) => {
            if evaluate(left, locations, slots)? != 0 {
                return Ok(1);
            }
            let other = evaluate(right, locations, slots)?;
            Ok(i64::from(other != 0))
        }
        UExpr::Binary(op, left, right) => {
            let first = evaluate(left, locations, slots)?;
            let second = evaluate(right, locations, slots)?;
            apply(*op, first, second)
        }
    }
}
