// Laws of the counts that forks keep of their children.
ghost use Rattle.shim_laws_table.specs.Counts.{CountsTell};
ghost use Rattle.shim_laws_table.specs.Updating.{CountsFollow};
ghost use Rattle.shim_laws_table.specs.Beginning.{CountsBegin, ForeignStays};
ghost use Rattle.shim_laws_table.specs.Sufficing.{GivenSuffice, ActorsAreRead};
ghost use Rattle.shim_laws_table.specs.Links.{LinksFollow, RunningFollow};

use shim_local::Local;

/// What is read of a fork on a channel follows from three counts of its children: how many that go on share it, how
/// many of these aren't ready, and how many dead ones share it. A child's change moves them by bits.
pub fn counts_tell<L: Local>()
    ensures { CountsTell L.ops }
{}

/// How the counts follow a change at one process up the forks: channel by channel either the counts above are
/// updated, or nothing is to be done.
pub fn counts_follow<L: Local>()
    ensures { CountsFollow L.ops }
{}

/// What a process does by itself changes neither what its fork gave it nor what it shares of the channels
/// of others. So what is read of it changes on few channels.
pub fn foreign_stays<L: Local>()
    ensures { ForeignStays L.ops }
{}

/// Of a channel that its fork didn't give it, or that it doesn't share, what a process does by itself changes
/// neither counts nor labels above. So those of its given channels that it shares are enough to look at.
pub fn given_suffice<L: Local>()
    ensures { GivenSuffice L.ops }
{}

/// What a fork reads of a process that does anything by itself: before, it isn't ready and not dead; afterwards, if
/// it has no children, its state and its status decide.
pub fn actors_are_read<L: Local>()
    ensures { ActorsAreRead L.ops }
{}

/// How the counts stand when a process has changed, has forked, or its fork has closed: those above are still those
/// of the tree before.
pub fn counts_begin<L: Local>()
    ensures { CountsBegin L.ops }
{}

/// What children know of their forks follows what the records do.
pub fn links_follow<L: Local>()
    ensures { LinksFollow L.ops }
{}

/// How many of a fork's children go on follows a change below it.
pub fn running_follow<L: Local>()
    ensures { RunningFollow L.ops }
{}
