// Journals that are replayed.
ghost use Rattle.std.specs.Prelude.{◌≡◌, ◌≤◌, ◌<◌, ◌+◌, IfOk, length};
ghost use Rattle.shim_semantics.specs.Trees as trees;
ghost use Rattle.shim_semantics.specs.Sound.{SharesItsOwn};
ghost use Rattle.shim_laws_journals.specs.Ranges.{IsInRange, steps_in};
ghost use Rattle.shim_replay.specs.Entries.{entry_of, entries_of};
ghost use Rattle.shim_replay.specs.Replaying.{AnswersEnd, DoesEntry, ReplayAnswers};

use crate::fault::ReplayFault;
use crate::journal::{Journal, steps_in};
use shim_base::NoMemory;
use shim_local::Local;
use shim_run_log::Entry;
use shim_tree::Tree;
use std::alloc::Global;

// Does an entry. False where a step of it isn't enabled in its turn, or isn't quiet in an entry of quiet steps.
fn do_entry<L: Local>(tree: &mut Tree<L>, entry: &Entry) -> Result<bool, NoMemory>
    requires few { trees.steps tree.old + steps_in (entry_of entry.now) ≤ 4000000 }
    ensures { IfOk result (λ done. DoesEntry L.ops (entry_of entry.now) tree.old tree.new done) }
{
    match entry {
        Entry::Quiet { path, steps } => tree.step_on(path, *steps),
        Entry::Did(event) => {
            if !tree.is_enabled(event) {
                return Ok(false);
            }
            tree.do_event(event)?;
            Ok(true)
        }
    }
}

// The answer when all entries are done: the tree, or `Unfinished` where an event is enabled and budget is left.
fn end_of<L: Local>(tree: Tree<L>, spent: bool, line: u32) -> Result<Tree<L>, ReplayFault>
    ensures { AnswersEnd L.ops tree spent line result }
{
    if !tree.quiescent() && !spent {
        return Err(ReplayFault::Unfinished { line });
    }
    Ok(tree)
}

// Replays entries from this process on, within the budget.
#[tactic(auto, using(crate::proofs::Replayed::answers))]
fn replay_entries<L: Local>(
    alloc: Global,
    root: L,
    budget: u64,
    entries: &[Entry],
) -> Result<Tree<L>, ReplayFault>
    requires own { SharesItsOwn L.ops root }
    requires budget { budget ≤ 4000000 }
    requires few { length entries.now < 4294967293 }
    ensures { ReplayAnswers L.ops root budget (entries_of entries.now) result }
{
    let mut tree = Tree::start(alloc, root)?;
    let mut done = 0u64;
    let mut line = 2u32;
    for entry in entries {
        let steps = steps_in(entry);
        if steps > budget - done {
            return Err(ReplayFault::OverBudget { line });
        }
        if !do_entry(&mut tree, entry)? {
            return Err(ReplayFault::NotEnabled { line });
        }
        done += steps;
        line += 1;
    }
    end_of(tree, done == budget, line)
}

/// Replays a journal from the process that runs alone at the start, and shares only channels that it declared. It
/// answers the tree to which the entries lead, where no event is enabled in it or the budget is spent. Else it
/// answers the line of the first entry that isn't done, and why; or, where all are done, the last line.
#[tactic(auto, using(crate::proofs::InRange::few_entries))]
pub fn replay<L: Local>(alloc: Global, root: L, journal: &Journal) -> Result<Tree<L>, ReplayFault>
    requires own { SharesItsOwn L.ops root }
    requires range { IsInRange journal.now.budget (entries_of journal.now.entries) }
    ensures answers { ReplayAnswers L.ops root journal.now.budget (entries_of journal.now.entries) result }
{
    replay_entries(alloc, root, journal.budget, journal.entries.as_slice())
}
