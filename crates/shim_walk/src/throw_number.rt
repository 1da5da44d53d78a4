// The number of a throw.
ghost use Rattle.std.specs.Prelude.{◌≡◌, Ok};
ghost use Rattle.std.specs.Option.{option_copied};
ghost use Rattle.shim_units.specs.declared.unit.UWhat.{out-UWhat};
ghost use Rattle.shim_process.specs.Stops.{stmt_thrown, what_thrown};
ghost use Rattle.shim_walk.specs.StatementContexts.{context_view};

use crate::next_action::StatementContext;
use shim_base::Trap;
use shim_locations::value::evaluate;
use shim_units::{UStmt, UWhat};

fn what_thrown(stmt: &UStmt, context: &StatementContext<'_>) -> Result<i64, Trap>
    ensures { result ≡ what_thrown (out-UWhat stmt.now.what) (context_view context.now) }
{
    match &stmt.what {
        UWhat::Throw(_, Some(expr)) => evaluate(expr, context.locations, context.slots),
        _ => Ok(0),
    }
}

/// The number that is thrown, which is 0 where the statement gives none, or the trap.
pub fn stmt_thrown(stmt: Option<&UStmt>, context: &StatementContext<'_>) -> Result<i64, Trap>
    ensures { result ≡ stmt_thrown (option_copied stmt.entry) (context_view context.now) }
{
    match stmt {
        None => Ok(0),
        Some(stmt) => what_thrown(stmt, context),
    }
}
