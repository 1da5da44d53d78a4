// Laws of journals, grants and ends.
ghost use Rattle.shim_laws_replay.specs.Journals.{JournalsAreRuns};
ghost use Rattle.shim_laws_replay.specs.Grants.{QuietUndisturbed, OutStaysOut, GrantableAreListed};
ghost use Rattle.shim_laws_replay.specs.Moves.{JournalsGoOn, PiecesAreEntries};
ghost use Rattle.shim_laws_replay.specs.Ends.{JournalsAgree, JournalsMean};
ghost use Rattle.shim_laws_replay.specs.ReadOff.{EndsAreReadOff, MomentsLead};
ghost use Rattle.shim_laws_replay.specs.Nets.{NetsKeep};

use shim_local::Local;

/// Where a journal leads to a tree, its events are a run there, each enabled in its
/// turn, and as many as the tree's steps.
pub fn journals_are_runs<L: Local>()
    ensures { JournalsAreRuns L.ops }
{}

/// A journal without entries leads to the tree of the one process. With an entry more a journal leads to the tree
/// after that entry. Each part of it from the start leads to a tree, from which the rest leads on. If the root is
/// sound and shares only channels that it declared, each tree to which a journal leads is sound.
pub fn journals_go_on<L: Local>()
    ensures { JournalsGoOn L.ops }
{}

/// In a sound tree a process that stands before a quiet step stays where it is, as it is, whatever event
/// happens but its own step.
pub fn quiet_undisturbed<L: Local>()
    ensures { QuietUndisturbed L.ops }
{}

/// A live process that stands in a sound tree before a quiet step stays so, in the same state, through each event
/// that is no quiet step. It stays so, too, through each entry that is neither of its quiet steps nor its own step.
pub fn out_stays_out<L: Local>()
    ensures { OutStaysOut L.ops }
{}

/// The processes that stand in a sound tree before a quiet step are those of the list from the root with
/// leftmost children first.
pub fn grantable_are_listed<L: Local>()
    ensures { GrantableAreListed L.ops }
{}

/// A piece of work whose process stands where it was granted may be taken in: it is one entry, which leaves
/// a sound tree of as many steps more, in which the process stands in its last state. Each entry of one quiet
/// step or more is a piece of its process. A piece has a step, where one was granted to a process that stands before
/// a quiet step, and memory wasn't refused.
pub fn pieces_are_entries<L: Local>()
    ensures { PiecesAreEntries L.ops }
{}

/// Two journals of one root, which is sound and shares only channels that it declared, end alike, if both lead to
/// ends of schedules within one budget. No event is enabled in the one tree exactly where none is in the other, and
/// then they are one tree. As many steps led to both.
pub fn journals_agree<L: Local>()
    ensures { JournalsAgree L.ops }
{}

/// A journal that leads to the end of a schedule ends like the meaning within the same budget. The root is sound and
/// shares only channels that it declared. Some run leads to the journal's tree with as many events as the tree has
/// steps. Where an event is enabled in the meaning, some run leads there with as many as the budget has steps.
pub fn journals_mean<L: Local>()
    ensures { JournalsMean L.ops }
{}

/// A schedule that has ended is reported as spent exactly where the meaning is, and then just the budget's steps
/// led to its tree; else what is reported of it is what is reported of the meaning.
pub fn ends_are_read_off<L: Local>()
    ensures { EndsAreReadOff L.ops }
{}

/// Each tree to which a journal leads is reached by a run with as many events as the tree has steps. Its output is a
/// prefix of the output after as many rounds, and each channel's history is a prefix of its history there. The root
/// is sound and shares only channels that it declared.
pub fn moments_lead<L: Local>()
    ensures { MomentsLead L.ops }
{}

/// A net of a root and a budget keeps, whatever is done with it, that its tree is the replay of its journal,
/// that its budget isn't passed even where each open grant takes all its steps, and that each process that is
/// out stands where it was given out. Done with it are events that are no quiet steps, grants of processes
/// that aren't out, finished pieces that are taken in, and grants that are taken back.
pub fn nets_keep<L: Local>()
    ensures { NetsKeep L.ops }
{}
