// Laws of what can happen, read off records and their counts.
ghost use Rattle.shim_laws_table.specs.Dooms.{MinLabelsDecide, MinLabelsFollow};
ghost use Rattle.shim_laws_table.specs.Beginning.{LabelsBegin};
ghost use Rattle.shim_laws_table.specs.Enabled.{EnabledByRecords, EnabledAreFound, NothingNew};
ghost use Rattle.shim_laws_table.specs.LoweredLabels.{LabelsLowered};
ghost use Rattle.shim_laws_table.specs.Recomputing.{LabelsRecomputed};

use shim_local::Local;

/// The least label of the dead below a fork that share a channel decides who is doomed: a child can be poisoned
/// exactly where its fork shares the channel, it is ready, and that label is in force at the fork.
pub fn min_labels_decide<L: Local>()
    ensures { MinLabelsDecide L.ops }
{}

/// How the least label follows a change of a node. If the old node had none, all forks above take in that of the new
/// node. If both nodes have the same one, the labels of all forks above stay.
pub fn min_labels_follow<L: Local>()
    ensures { MinLabelsFollow L.ops }
{}

/// What can happen at a record follows from its state, its counts and its least label.
pub fn enabled_by_records<L: Local>()
    ensures { EnabledByRecords L.ops }
{}

/// Each enabled event is found at a record: the process's own, the fork's, the channel's home, or a fork and
/// its child.
pub fn enabled_are_found<L: Local>()
    ensures { EnabledAreFound L.ops }
{}

/// Where a record is as before, with its counts, its least label, and which of its children are ready, nothing can
/// happen there that couldn't. So what becomes possible is found by looking at the records of which something has
/// just changed.
pub fn nothing_new<L: Local>()
    ensures { NothingNew L.ops }
{}

/// How the labels that forks keep stand when a process has changed, has forked, or its fork has closed: those above
/// are still those of the tree before.
pub fn labels_begin<L: Local>()
    ensures { LabelsBegin L.ops }
{}

/// A process has died, and its label was taken in on the way up. Then the labels that forks keep for a channel are
/// all those of the tree after its death.
pub fn labels_lowered<L: Local>()
    ensures { LabelsLowered L.ops }
{}

/// Another node is in a place, as a fork has closed, and the labels above were read off the forks' children again.
/// Then all labels are those of the tree with that node.
pub fn labels_recomputed<L: Local>()
    ensures { LabelsRecomputed L.ops }
{}
