// The number that a `put` puts.
ghost use Rattle.std.specs.Prelude.{◌≡◌, Ok, Some};
ghost use Rattle.std.specs.Option.{option_copied};
ghost use Rattle.shim_units.specs.declared.unit.UWhat.{out-UWhat};
ghost use Rattle.shim_process.specs.Stops.{low_bits, stmt_put, what_put};
ghost use Rattle.shim_walk.specs.StatementContexts.{context_view};

use crate::next_action::StatementContext;
use shim_base::Trap;
use shim_locations::value::evaluate;
use shim_units::{UStmt, UWhat};

fn what_put(stmt: &UStmt, context: &StatementContext<'_>) -> Result<i64, Trap>
    ensures { result ≡ what_put (out-UWhat stmt.now.what) (context_view context.now) }
{
    match &stmt.what {
        UWhat::Put(_, expr) => evaluate(expr, context.locations, context.slots),
        _ => Ok(0),
    }
}

/// The number that a `put` puts, or the trap; 0 of another statement, or where there is none.
pub fn stmt_put(stmt: Option<&UStmt>, context: &StatementContext<'_>) -> Result<i64, Trap>
    ensures { result ≡ stmt_put (option_copied stmt.entry) (context_view context.now) }
{
    match stmt {
        None => Ok(0),
        Some(stmt) => what_put(stmt, context),
    }
}

/// The low 8 bits of a number.
pub fn low_bits(value: i64) -> u8
    ensures { low_bits (Ok value) ≡ Some result }
{
    value.rem_euclid(256) as u8
}
