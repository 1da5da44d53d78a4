// What is printed of a meaning and, where that is blocked, of who waits for whom.
ghost use Rattle.std.specs.Prelude.{◌≡◌, ◌≤◌, ◌++◌, IfOk, OnOk, length, true};
ghost use Rattle.shim_command.specs.Jobs.{IsWithin};
ghost use Rattle.shim_command.specs.declared.mode.Course.TheVariants as courses;
ghost use Rattle.shim_local.specs.declared.Outcome.TheVariants as outcomes;
ghost use Rattle.shim_process.specs.Ops.{process_ops};
ghost use Rattle.shim_report.specs.Report.{report};
ghost use Rattle.shim_semantics.specs.Nodes.{goes};
ghost use Rattle.shim_semantics.specs.Trees.{IsQuiescent};
ghost use Rattle.shim_results.specs.Answer.{AnswersMeaning, AnswersRun};
ghost use Rattle.shim_results.specs.SourceActions.{executed};
ghost use Rattle.shim_results.specs.Reasons.{reasons_of, report_with_reasons};
ghost use Rattle.shim_results.specs.Views.{answer_view};

use crate::answer::{Answer, refused};
use crate::status::ExitStatus;
use shim_base::{List, Name, NoMemory, Shared};
use shim_command::Job;
use shim_front_end::read_source;
use shim_local::{Ended, Outcome};
use shim_reasons::push_reasons;
use shim_reference::{meaning_of, named};
use shim_report::text;
use shim_sharing::Accepted;
use shim_tree::Tree;
use shim_waits::explain;
use shim_walk::Walk;
use std::alloc::Global;

// Adds why a run is blocked, where it is.
#[tactic(auto, unfolding(crate::specs::Reasons::reasons_of))]
fn push_reasons_of(
    alloc: Global,
    text: &mut List<u8>,
    outcome: Outcome,
    tree: &Tree<Walk>,
) -> Result<(), NoMemory>
    requires rests { outcome ≡ outcomes.Blocked → IsQuiescent process_ops tree.now }
    requires goes { outcome ≡ outcomes.Blocked → goes tree.now.root ≡ true }
    ensures { OnOk result (text.new ≡ text.old ++ reasons_of outcome tree.now) }
{
    match outcome {
        Outcome::Blocked => push_reasons(text, &explain(alloc, tree)?),
        Outcome::Done | Outcome::Uncaught(_) | Outcome::Trapped | Outcome::Spent => Ok(()),
    }
}

// The report of what was read off a tree and, where the run is blocked, the reasons after it.
fn text_with_reasons(
    alloc: Global,
    end: &Ended,
    names: &[Name],
    tree: &Tree<Walk>,
) -> Result<List<u8>, NoMemory>
    requires rests { end.now.outcome ≡ outcomes.Blocked → IsQuiescent process_ops tree.now }
    requires goes { end.now.outcome ≡ outcomes.Blocked → goes tree.now.root ≡ true }
    ensures { IfOk result (λ text. text ≡ report names.now end.now ++ reasons_of end.now.outcome tree.now) }
{
    let mut lines = text(alloc, end, names)?;
    push_reasons_of(alloc, &mut lines, end.outcome, tree)?;
    Ok(lines)
}

// Answers what a source means, and why that is blocked.
fn explain_source(
    alloc: Global,
    job: &Job,
    source: Accepted,
    input: List<u8>,
) -> Result<Answer, NoMemory>
    requires within { IsWithin job.now }
    ensures { IfOk result (λ a. AnswersRun courses.ByFirstEvents report_with_reasons (executed job.now input source) (answer_view a)) }
{
    let source = Shared::new(alloc, source)?;
    let input = Shared::new(alloc, input)?;
    let tree = meaning_of(alloc, source.share()?, input, job.budget)?;
    let end = named(tree.ended(job.budget)?, source.main_throws());
    Ok(Answer {
        status: ExitStatus::of(end.outcome),
        text: text_with_reasons(alloc, &end, source.names(), &tree)?,
    })
}

/// Answers what the source in a text means and, where that is blocked, who waits for whom and a cycle of
/// waits.
pub fn answer_reasons(
    alloc: Global,
    job: &Job,
    bytes: &[u8],
    input: List<u8>,
) -> Result<Answer, NoMemory>
    requires short { length bytes.now ≤ 1048576 }
    requires within { IsWithin job.now }
    ensures { IfOk result (λ a. AnswersMeaning report_with_reasons job.now input bytes.now (answer_view a)) }
{
    match read_source(alloc, bytes) {
        Ok(source) => explain_source(alloc, job, source, input),
        Err(fault) => refused(alloc, fault),
    }
}
