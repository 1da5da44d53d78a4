// Laws of the events of a tree.
ghost use Rattle.shim_semantics.specs.Listing.{ListsEnabled};
ghost use Rattle.shim_semantics.specs.Laws.{KeepsSound, RunsStaySound, ChildrenShareGiven};

use shim_local::Local;

/// In a tree whose states are sound and whose paths are as forks make them, the walk from the root
/// lists the enabled events, and no others.
pub fn walk_lists_enabled<L: Local>()
    ensures { ListsEnabled L.ops }
{}

/// A tree of one process whose state is sound and whose channels are all its own is sound, and events leave sound
/// trees sound, as do runs. So a channel, and the output too, is with one process at most throughout a run.
pub fn holders<L: Local>()
    ensures kept { KeepsSound L.ops }
    ensures runs { RunsStaySound L.ops }
{}

/// In a sound tree a process below the root shares a channel of another process exactly where the fork
/// that made it gave it that channel.
pub fn given<L: Local>()
    ensures { ChildrenShareGiven L.ops }
{}
