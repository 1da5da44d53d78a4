// Where the value of a rendezvous goes.
ghost use Rattle.std.specs.Prelude.{◌≡◌, ℤ};
ghost use Rattle.std.specs.Option.{option_copied};
ghost use Rattle.shim_units.specs.declared.unit.UWhat.{out-UWhat};
ghost use Rattle.shim_process.specs.LocalState.{LocalState};
ghost use Rattle.shim_process.specs.Stops.{stmt_receive, what_receive};
ghost use Rattle.shim_walk.specs.Receivers.{received};

use shim_units::{UStmt, UWhat};

/// The slot in which a statement stores what its rendezvous gives.
#[derive(Clone, Copy, Debug, PartialEq, Eq)]
pub enum Receiver {
    /// The statement is over then.
    Whole(u32),
    /// The statement's second part comes then.
    First(u32),
    /// The statement has no rendezvous, or there is no statement.
    Nothing,
}

fn what_receiver(stmt: &UStmt) -> Receiver
    ensures { (v : ℤ) (l : LocalState) → received result v l ≡ what_receive (out-UWhat stmt.now.what) v l }
{
    match &stmt.what {
        UWhat::Next(slot) => Receiver::Whole(*slot),
        UWhat::NextAssign(slot, _) => Receiver::Whole(*slot),
        UWhat::AssignNext(_, slot) => Receiver::First(*slot),
        _ => Receiver::Nothing,
    }
}

/// The receiver of a statement; `Nothing` where there is no statement.
pub fn receiver_at(stmt: Option<&UStmt>) -> Receiver
    ensures { (v : ℤ) (l : LocalState) → received result v l ≡ stmt_receive (option_copied stmt.entry) v l }
{
    match stmt {
        None => Receiver::Nothing,
        Some(stmt) => what_receiver(stmt),
    }
}
