// Laws of the nodes of a tree by their places, and of records that represent it.
ghost use Rattle.shim_laws_table.specs.Agrees.{OneTree, StartRepresents};
ghost use Rattle.shim_laws_table.specs.Places.{NodesAreReplaced, EventsShow};
ghost use Rattle.shim_laws_table.specs.Changes.{EventsPreserve, ChildrenAreRepresented, OneChangeIsRepresented};
ghost use Rattle.shim_laws_table.specs.Singles.{SingleChangesAreRepresented};
ghost use Rattle.shim_laws_table.specs.Sources.{SourcesByRecords};
ghost use Rattle.shim_laws_table.specs.EventEffects.{EffectsOfEvents};

use shim_local::Local;

/// Records agree with one tree at most.
pub fn one_tree<L: Local>()
    ensures { OneTree L.ops }
{}

/// In the place of any node another one can be put, with all else as it was, and in one way.
pub fn nodes_are_replaced<L: Local>()
    ensures { NodesAreReplaced L.ops }
{}

/// Where an event changes states and statuses: what a process does by itself, at its place and below; a
/// rendezvous, at each process that waits at the channel; a poison, at each live sharer at and below the child.
pub fn events_show<L: Local>()
    ensures { EventsShow L.ops }
{}

/// One record represents the tree in which one process lives.
pub fn start_represents<L: Local>()
    ensures { StartRepresents L.ops }
{}

/// Where records represent a sound tree and have changed as an event changes them, and no other has, they
/// represent the tree after the event.
pub fn events_preserve<L: Local>()
    ensures { EventsPreserve L.ops }
{}

/// What the records of a fork's children hold together: how many they are, their states, and the prevailing
/// death among them.
pub fn children_are_represented<L: Local>()
    ensures { ChildrenAreRepresented L.ops }
{}

/// Where one record, of a process with nothing below it, gets another state of the same path or another
/// status, the records agree with the tree in which just its node is changed.
pub fn one_change_is_represented<L: Local>()
    ensures { OneChangeIsRepresented L.ops }
{}

/// Where one process has received a value, or has died of an exception for which it has no handler, and
/// no other has changed, the records represent a sound tree again. So a rendezvous and a poison can be done one
/// process after the other.
pub fn single_changes_are_represented<L: Local>()
    ensures { SingleChangesAreRepresented L.ops }
{}

/// What an event leaves of a tree beside its nodes: what it puts, logs and counts, and what a rendezvous adds to its
/// channel's history.
pub fn effects_of_events<L: Local>()
    ensures { EffectsOfEvents L.ops }
{}

/// The source of a channel is in the one record that carries it, and the name that its first rendezvous brings is
/// that of the live process at the channel whose place comes first.
pub fn sources_by_records<L: Local>()
    ensures { SourcesByRecords L.ops }
{}
