// Laws that tie what the calls do to the records with what records show.
ghost use Rattle.shim_records.specs.Acted.{StepUpdatesCounts};
ghost use Rattle.shim_records.specs.UpdatesAbove.{UpdatesGiveCounts};
ghost use Rattle.shim_records.specs.Representing.{BlocksAreEvents, ForkInitialCounts};

use shim_local::Local;

/// Where the states and records of children were put together, and the record of their parent says so, the
/// process has forked; and where the records of a fork's children are free, and its own says what came of it,
/// the fork has closed. Nobody else has changed.
pub fn blocks_are_events<L: Local>()
    ensures { BlocksAreEvents L.ops }
{}

/// The counts and the labels of the pairs of a new fork are those of its children.
pub fn fork_initial_counts<L: Local>()
    ensures { ForkInitialCounts L.ops }
{}

/// Where a process has done anything by itself, and for each channel that it was given and shares the counts above
/// were updated, the counts of all records are right again.
pub fn updates_give_counts<L: Local>()
    ensures { UpdatesGiveCounts L.ops }
{}

/// So they are where `update_all_counts` did that.
pub fn step_updates_counts<L: Local>()
    ensures { StepUpdatesCounts L.ops }
{}
