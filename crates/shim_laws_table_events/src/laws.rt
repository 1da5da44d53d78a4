// Laws of what each event does to records, and of where the next one is looked for.
ghost use Rattle.shim_laws_table_events.specs.keeping.Laws.{StartEstablishes, QuietStepsPreserve};
ghost use Rattle.shim_laws_table_events.specs.keeping.Acting.{StepPreserves, ExitPreserves};
ghost use Rattle.shim_laws_table_events.specs.forks.Forking.{ForkPreserves, ForkTrapPreserves};
ghost use Rattle.shim_laws_table_events.specs.closes.Laws.{ClosePreserves, TruncatePreserves};
ghost use Rattle.shim_laws_table_events.specs.meetings.Descents.{DescentsFind};
ghost use Rattle.shim_laws_table_events.specs.meetings.Meetings.{MeetingPreserves, SharersReceive};
ghost use Rattle.shim_laws_table_events.specs.meetings.Plans.{PlansFind, SourcesLead};
ghost use Rattle.shim_laws_table_events.specs.meetings.Poisons.{PoisonPreserves};
ghost use Rattle.shim_laws_table_events.specs.meetings.Names.{NamesFound};
ghost use Rattle.shim_laws_table_events.specs.meetings.Laws.{ReceivePreserves, DeathPreserves};
ghost use Rattle.shim_laws_table_events.specs.queues.Requeueing.{RequeueingSuffices, EventHasOneOwner};
ghost use Rattle.shim_laws_table_events.specs.queues.RecordDecisions.{RecordDecides};
ghost use Rattle.shim_laws_table_events.specs.queues.NoMore.{NoMoreCanHappen};
ghost use Rattle.shim_laws_table_events.specs.queues.EventQueue.{QueueStaysComplete};

use shim_local::Local;

/// The record of a root, alone, represents the tree of one live process.
pub fn start_establishes<L: Local>()
    ensures { StartEstablishes L.ops }
{}

/// Where a live process does quiet steps, the records represent the tree after them.
pub fn quiet_steps_preserve<L: Local>()
    ensures { QuietStepsPreserve L.ops }
{}

/// Where a live process did something by itself that lets it live on, the records represent the tree after it.
pub fn step_preserves<L: Local>()
    ensures { StepPreserves L.ops }
{}

/// Where a live process ended or died, the records represent the tree after it.
pub fn exit_preserves<L: Local>()
    ensures { ExitPreserves L.ops }
{}

/// Where a process forks, and the records of its children are put in place of free ones or after all others, the
/// records represent the tree after it.
pub fn fork_preserves<L: Local>()
    ensures { ForkPreserves L.ops }
{}

/// Where the fork of a process traps, the records represent the tree after it.
pub fn fork_trap_preserves<L: Local>()
    ensures { ForkTrapPreserves L.ops }
{}

/// Where a fork closes, the records represent the tree after that.
pub fn close_preserves<L: Local>()
    ensures { ClosePreserves L.ops }
{}

/// Where free records at the end are cut off, those that are left represent the same tree.
pub fn truncate_preserves<L: Local>()
    ensures { TruncatePreserves L.ops }
{}

/// Where a live process receives at the channel at which it is, the records represent the tree after that.
pub fn receive_preserves<L: Local>()
    ensures { ReceivePreserves L.ops }
{}

/// Where a live process dies of an exception for which it has no handler, the records represent the tree after that.
pub fn death_preserves<L: Local>()
    ensures { DeathPreserves L.ops }
{}

/// A descent from a process that shares a channel finds all that share it at and below that process.
pub fn descents_find<L: Local>()
    ensures { DescentsFind L.ops }
{}

/// Where all that wait at a channel received the value of its source one after the other, the tree moves by the
/// rendezvous.
pub fn meeting_preserves<L: Local>()
    ensures { MeetingPreserves L.ops }
{}

/// Where a rendezvous is enabled, all that share the channel at and below its home include each live process that
/// waits at it.
pub fn sharers_receive<L: Local>()
    ensures { SharersReceive L.ops }
{}

/// A walk from a channel's home by what forks know of their children's branches finds all that wait at the
/// channel, each once.
pub fn plans_find<L: Local>()
    ensures { PlansFind L.ops }
{}

/// The way from a channel's home by the children that took its own variable leads to whoever carries it.
pub fn sources_lead<L: Local>()
    ensures { SourcesLead L.ops }
{}

/// Where all that live and share a channel at and below a child died one after the other of the innermost label
/// in force at its fork, the tree moves by the child's poison.
pub fn poison_preserves<L: Local>()
    ensures { PoisonPreserves L.ops }
{}

/// The first name among all that share a channel is the one that its first rendezvous brings.
pub fn names_found<L: Local>()
    ensures { NamesFound L.ops }
{}

/// What becomes possible is at a record that has changed, or at the parent of one.
pub fn requeueing_suffices<L: Local>()
    ensures { RequeueingSuffices L.ops }
{}

/// Each enabled event is looked for at one record, and at no other.
pub fn event_has_one_owner<L: Local>()
    ensures { EventHasOneOwner L.ops }
{}

/// What can happen at a record is decided by its state, by what it says itself, and by the states and records of
/// its children.
pub fn record_decides<L: Local>()
    ensures { RecordDecides L.ops }
{}

/// By a record no more can happen than before in three cases. Nothing but a quiet step can happen by it. Its state,
/// labels and what it says of its process are as before, and neither it nor a child has become ready on a channel by
/// which something could. It needn't be looked at again.
pub fn no_more_can_happen<L: Local>()
    ensures { NoMoreCanHappen L.ops }
{}

/// An event queue stays complete where each record by which more can happen than before is listed, too. A record by
/// which nothing but a quiet step can happen may be dropped.
pub fn queue_stays_complete<L: Local>()
    ensures { QueueStaysComplete L.ops }
{}
