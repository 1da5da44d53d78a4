// At what a process stands.
ghost use Rattle.std.specs.Prelude.{◌≡◌, ◌<◌, ◌+◌, ◌^◌, length, if◌then◌else◌};
ghost use Rattle.std.specs.Option.{option_copied};
ghost use Rattle.shim_units.specs.declared.unit.UWhat.{out-UWhat};
ghost use Rattle.shim_local.specs.Process.{AtQuiet, AtTrap};
ghost use Rattle.shim_local.specs.Views.{stop_view};
ghost use Rattle.shim_process.specs.LocalState.{location_of};
ghost use Rattle.shim_process.specs.Stops as stops;
ghost use Rattle.shim_walk.specs.StatementContexts.{context_view};

use crate::labels::label_for;
use crate::next_action::StatementContext;
use crate::trapped_at::TrappedAt;
use shim_local::Stop;
use shim_locations::locations::{location_at, number_of};
use shim_units::{UBranch, UStmt, UWhat};

/// The stop at a `next` of the variable in this slot; the end where the slot has no location.
pub fn next_of<'a>(context: &StatementContext<'a>, slot: u32) -> Stop<'a>
    ensures { stop_view result ≡ stops.at_next (location_of context.now.locations.now context.now.slots.now slot) }
{
    match location_at(context.locations, number_of(context.slots, slot)) {
        None => Stop::Finish,
        Some(location) => Stop::Next(location.chan()),
    }
}

// The stop at `next x = e`: quiet before the assignment, and at the rendezvous after it.
fn meets_second<'a>(context: &StatementContext<'a>, slot: u32) -> Stop<'a>
    ensures { stop_view result ≡ if context.now.halfway then stops.at_next (location_of context.now.locations.now context.now.slots.now slot) else AtQuiet }
{
    if context.halfway {
        next_of(context, slot)
    } else {
        Stop::Quiet
    }
}

// The stop at `x = next y`: at the rendezvous, and quiet once it is done, before the assignment.
fn meets_first<'a>(context: &StatementContext<'a>, slot: u32) -> Stop<'a>
    ensures { stop_view result ≡ if context.now.halfway then AtQuiet else stops.at_next (location_of context.now.locations.now context.now.slots.now slot) }
{
    if context.halfway {
        Stop::Quiet
    } else {
        next_of(context, slot)
    }
}

/// The stop at a `put`, if the process has the output, and else the end.
pub fn at_put<'a>(holds_output: bool) -> Stop<'a>
    ensures { stop_view result ≡ stops.at_put holds_output }
{
    if holds_output {
        Stop::Put
    } else {
        Stop::Finish
    }
}

// The stop at a fork, if it has branches, and else the end.
fn at_fork<'a>(branches: &[UBranch]) -> Stop<'a>
    ensures { stop_view result ≡ stops.at_fork branches.now }
{
    if branches.is_empty() {
        Stop::Finish
    } else {
        Stop::Fork
    }
}

fn what_stop<'a>(stmt: &UStmt, context: &StatementContext<'a>) -> Stop<'a>
    requires { context.now.first + length context.now.places.now < 2 ^ 32 }
    ensures { stop_view result ≡ stops.what_stop (out-UWhat stmt.now.what) (context_view context.now) }
{
    match &stmt.what {
        UWhat::Next(slot) => next_of(context, *slot),
        UWhat::NextAssign(slot, _) => meets_second(context, *slot),
        UWhat::AssignNext(_, slot) => meets_first(context, *slot),
        UWhat::Put(_, _) => at_put(context.holds_output),
        UWhat::Throw(exception, _) => Stop::Throw(label_for(context, *exception)),
        UWhat::Par(branches) => at_fork(branches.as_slice()),
        _ => Stop::Quiet,
    }
}

/// The stop at a statement, or the end where there is none.
pub fn stop_at<'a>(stmt: Option<&UStmt>, context: &StatementContext<'a>) -> Stop<'a>
    requires { context.now.first + length context.now.places.now < 2 ^ 32 }
    ensures { stop_view result ≡ stops.stmt_stop (option_copied stmt.entry) (context_view context.now) }
{
    match stmt {
        None => Stop::Finish,
        Some(stmt) => what_stop(stmt, context),
    }
}

/// At a trap.
pub fn at_trap<'a>(trap: TrappedAt) -> Stop<'a>
    ensures { stop_view result ≡ AtTrap trap.kind trap.line }
{
    Stop::Trapped(trap.kind, trap.line)
}
