// What a source comes to that is run as a journal records it.
ghost use Rattle.std.specs.Prelude.{◌≡◌, ◌≤◌, IfOk, length};
ghost use Rattle.shim_process.specs.Ops.{process_ops};
ghost use Rattle.shim_reference.specs.Naming as naming;
ghost use Rattle.shim_semantics.specs.Endings as endings;
ghost use Rattle.shim_laws_journals.specs.Ranges.{IsInRange};
ghost use Rattle.shim_laws_replay.specs.Ends.{HasEnded};
ghost use Rattle.shim_replay.specs.Entries.{entries_of};
ghost use Rattle.shim_results.specs.Answer.{AnswersEntries, AnswersReplay, AnswersReplaySource, reported};
ghost use Rattle.shim_results.specs.Recorded.{execution_within};
ghost use Rattle.shim_results.specs.Views.{answer_view};

use shim_base::{List, NoMemory, Shared};
use shim_code::compile;
use shim_front_end::read_source;
use shim_reference::named;
use shim_replay::{Journal, JournalFault, ReplayFault, read_journal, replay};
use shim_report::text;
use shim_results::{Answer, ExitStatus, journal_refused, refused};
use shim_sharing::Accepted;
use shim_tree::Tree;
use shim_vm::Body;
use std::alloc::Global;

// The report of the tree to which a journal leads.
fn answer_tree(
    alloc: Global,
    source: &Accepted,
    tree: &Tree<Body>,
    budget: u64,
) -> Result<Answer, NoMemory>
    requires ended { HasEnded process_ops budget tree.now }
    ensures { IfOk result (λ a. answer_view a ≡ reported source.now (naming.named source.now.main_throws (endings.ended process_ops tree.now))) }
{
    let end = named(tree.ended(budget)?, source.main_throws());
    Ok(Answer {
        status: ExitStatus::of(end.outcome),
        text: text(alloc, &end, source.names())?,
    })
}

// Runs a source as a journal says, and answers how that ended, or at which line the journal is refused.
fn replay_entries_of(
    alloc: Global,
    source: &Accepted,
    input: List<u8>,
    journal: &Journal,
) -> Result<Answer, NoMemory>
    requires range { IsInRange journal.now.budget (entries_of journal.now.entries) }
    ensures { IfOk result (λ a. AnswersEntries (execution_within source.now input journal.now.budget) (entries_of journal.now.entries) (answer_view a)) }
{
    let input = Shared::new(alloc, input)?;
    let code = Shared::new(alloc, compile(alloc, source)?)?;
    let main = Body::main(alloc, code, input)?;
    match replay(alloc, main, journal) {
        Ok(tree) => answer_tree(alloc, source, &tree, journal.budget),
        Err(ReplayFault::OverBudget { line }) => journal_refused(alloc, line, "over budget"),
        Err(ReplayFault::NotEnabled { line }) => journal_refused(alloc, line, "not enabled"),
        Err(ReplayFault::Unfinished { line }) => journal_refused(alloc, line, "unfinished"),
        Err(ReplayFault::NoMemory) => Err(NoMemory),
    }
}

// Runs a source by the journal in a text, and answers how that ended. A text that is no journal is refused with its
// line, too.
fn replay_text(
    alloc: Global,
    source: &Accepted,
    input: List<u8>,
    journal: &[u8],
) -> Result<Answer, NoMemory>
    requires few { length journal.now ≤ 67108864 }
    ensures { IfOk result (λ a. AnswersReplay source.now input journal.now (answer_view a)) }
{
    match read_journal(alloc, journal) {
        Ok(journal) => replay_entries_of(alloc, source, input, &journal),
        Err(JournalFault::Malformed { line }) => journal_refused(alloc, line, "malformed"),
        Err(JournalFault::NoMemory) => Err(NoMemory),
    }
}

/// Runs the source in a text by the journal in another text, and reports how that ended. A source that
/// is refused comes before a journal that is.
pub fn answer_replay(
    alloc: Global,
    bytes: &[u8],
    input: List<u8>,
    journal: &[u8],
) -> Result<Answer, NoMemory>
    requires short { length bytes.now ≤ 1048576 }
    requires few { length journal.now ≤ 67108864 }
    ensures { IfOk result (λ a. AnswersReplaySource input journal.now bytes.now (answer_view a)) }
{
    match read_source(alloc, bytes) {
        Ok(source) => replay_text(alloc, &source, input, journal),
        Err(fault) => refused(alloc, fault),
    }
}
