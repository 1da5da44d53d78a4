// Laws of rendezvous and of poisons, of every order of events, and that the walk lists each event once.
ghost use Rattle.shim_laws_schedules.specs.ChangingPlaces.{MeetsWhereAllWait, MeetingsChangePlaces, PoisonsChangePlaces};
ghost use Rattle.shim_laws_schedules.specs.Laws.{EventsCommute, RunsAgree, RoundsLead};
ghost use Rattle.shim_laws_schedules.specs.ListedOnce.{ListsOnce};
ghost use Rattle.shim_laws_schedules.specs.Throws.{CatchesAreLogged, CatchesHaveNumbers, ThrownWhereCaught};

use shim_local::Local;

/// In a sound tree a channel's rendezvous is enabled exactly where each live process that shares the
/// channel waits at it, each forked one that shares it has a live or forked child that shares it, no
/// dead one shares it, and some live or forked one does. It may change places with each own step, end or
/// close and with each other rendezvous that is enabled beside it, as in `diamond`.
pub fn meetings<L: Local>()
    ensures exactly { MeetsWhereAllWait L.ops }
    ensures change_places { MeetingsChangePlaces L.ops }
{}

/// In a sound tree the poison of a child may change places with each other event.
pub fn poisons<L: Local>()
    ensures { PoisonsChangePlaces L.ops }
{}

/// Two different events of a sound tree that can both happen may change places: neither hinders the
/// other, and it doesn't show in the tree after both which of them came first.
pub fn diamond<L: Local>()
    ensures { EventsCommute L.ops }
{}

/// If one run from a sound tree comes to an end in which nothing can happen, no other run from that tree
/// is longer, and those that come to such an end are just as long and leave the same tree.
pub fn length<L: Local>()
    ensures { RunsAgree L.ops }
{}

/// No run is ahead of the rounds: as many rounds as it had events, from the sound tree in which it began,
/// put what it put and perhaps more, and give each channel the values that it gave it, by the same name,
/// and perhaps more. A round does what can happen at its beginning, in the order of the walk, and leaves
/// out what can't any more in its turn.
pub fn rounds<L: Local>()
    ensures { RoundsLead L.ops }
{}

/// What is caught in a run from a sound tree of one live process was thrown, with the same number: by the
/// process that catches it, as its step, or by a process below its fork while that was open, and it is caught
/// as the fork closes. A trap isn't caught by anyone. Each catch is logged of its process, with the name and
/// the line of the handler, and no other event logs a catch.
pub fn thrown<L: Local>()
    ensures caught { ThrownWhereCaught L.ops }
    ensures logged { CatchesAreLogged L.ops }
{}

/// After a run from a sound tree of one live process, a fork may close and its process catch an exception. The
/// prevailing death of the children then has a number, which the handler is given. It is never 0 because all
/// that died of the exception were poisoned. `thrown` says that the exception was thrown with this number.
pub fn numbers<L: Local>()
    ensures { CatchesHaveNumbers L.ops }
{}

/// In a tree whose states are sound and whose paths are as forks make them, the walk from the root lists
/// no event twice.
pub fn walk_lists_once<L: Local>()
    ensures { ListsOnce L.ops }
{}
