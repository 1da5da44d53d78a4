// Laws of recorded journals.
ghost use Rattle.shim_laws_journals.specs.Accepting.{OneAnswer, AcceptedIsReadOff};
ghost use Rattle.shim_laws_journals.specs.Traces.{NetsAreTraced};

use shim_local::Local;

/// For a root, a budget and entries one answer is right at most: the journal is accepted, with one tree, or it
/// is refused at one line for one cause.
pub fn one_answer<L: Local>()
    ensures { OneAnswer L.ops }
{}

/// The tree of an accepted journal agrees with the meaning within the budget, and as many steps led to both. It is
/// reported as spent exactly where the meaning is; else what is reported of it is what is reported of the meaning.
/// The root is sound and shares only channels that it declared.
pub fn accepted_is_read_off<L: Local>()
    ensures { AcceptedIsReadOff L.ops }
{}

/// Where the budget of a net is 1 to 4,000,000, the budget and the journal are in the ranges of a journal's text.
/// Each entry has a step at least. All entries together have as many steps as the net's tree, which has no more
/// steps than the budget. Where no event is enabled in the tree, or the budget is spent, the journal is accepted.
pub fn nets_are_traced<L: Local>()
    ensures { NetsAreTraced L.ops }
{}
