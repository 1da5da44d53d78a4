// Laws of blocked trees and of their explanations.
ghost use Rattle.shim_waits.specs.Laws.{BlockedIsExplained, EndsAreExplainedAlike, ExplainedHolds, NobodyWaitsForHimself};
ghost use Rattle.shim_waits.specs.Numbers.{NumbersLead, AskingGivenSuffices};

use shim_local::Local;

/// In a sound tree in which nothing can happen, and whose root has neither ended nor died, each live process waits
/// for another one. From the first wait one cycle of waits is reached, and no other. What `explain` gives is an
/// explanation in the sense of `holds`. On the cycle of each explanation there are two different processes.
pub fn blocked<L: Local>()
    ensures explained { BlockedIsExplained L.ops }
    ensures holds { ExplainedHolds L.ops }
    ensures others { NobodyWaitsForHimself L.ops }
{}

/// Two runs of a sound tree that both come to a tree in which nothing can happen come to one explanation, whatever
/// the order of their events.
pub fn ends_alike<L: Local>()
    ensures { EndsAreExplainedAlike L.ops }
{}

/// A walk that counts the live processes that it passes finds the first node of which a test is true. Its count is
/// the number of the leftmost live process at or below that node, if there is one. In a sound tree the first process
/// that holds up those that wait at a channel is the first that does so of those that were given the channel.
pub fn walk_numbers<L: Local>()
    ensures lead { NumbersLead L }
    ensures given { AskingGivenSuffices L.ops }
{}
