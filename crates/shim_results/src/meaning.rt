// What is printed of a meaning.
ghost use Rattle.std.specs.Prelude.{◌≡◌, ◌≤◌, IfOk, length};
ghost use Rattle.shim_command.specs.Jobs.{IsWithin};
ghost use Rattle.shim_command.specs.declared.mode.Course.TheVariants as courses;
ghost use Rattle.shim_results.specs.Answer.{AnswersMeaning, AnswersRun};
ghost use Rattle.shim_results.specs.SourceActions.{executed, showing_of, shown_of};
ghost use Rattle.shim_results.specs.RunEnds.{IsEnd};
ghost use Rattle.shim_results.specs.Views.{answer_view};

use crate::answer::{Answer, refused};
use crate::status::ExitStatus;
use shim_base::{List, NoMemory, Shared};
use shim_command::{Job, Showing};
use shim_front_end::read_source;
use shim_reference::reference;
use shim_report::{Ended, summary, text};
use shim_sharing::Accepted;
use std::alloc::Global;

// What the syntax of a source comes to, run by first events.
fn end_of_syntax(
    alloc: Global,
    job: &Job,
    source: &Shared<Accepted>,
    input: List<u8>,
) -> Result<Ended, NoMemory>
    requires within { IsWithin job.now }
    ensures { IfOk result (IsEnd courses.ByFirstEvents (executed job.now input source.now)) }
{
    let input = Shared::new(alloc, input)?;
    reference(alloc, source.share()?, input, job.budget)
}

/// What is printed of a run of this source for a job.
pub fn shown(
    alloc: Global,
    job: &Job,
    showing: Showing,
    source: &Accepted,
    end: &Ended,
) -> Result<List<u8>, NoMemory>
    ensures { IfOk result (λ text. text ≡ showing_of showing job.now source.now end.now) }
{
    match showing {
        Showing::Report => text(alloc, end, source.names()),
        Showing::Summary => summary(alloc, job.file.as_slice(), job.size, end, source.names()),
    }
}

// Answers what a source means.
fn answer_reference(
    alloc: Global,
    job: &Job,
    showing: Showing,
    source: Accepted,
    input: List<u8>,
) -> Result<Answer, NoMemory>
    requires within { IsWithin job.now }
    ensures { IfOk result (λ a. AnswersRun courses.ByFirstEvents (shown_of showing job.now) (executed job.now input source) (answer_view a)) }
{
    let source = Shared::new(alloc, source)?;
    let end = end_of_syntax(alloc, job, &source, input)?;
    Ok(Answer {
        status: ExitStatus::of(end.outcome),
        text: shown(alloc, job, showing, &source, &end)?,
    })
}

/// Answers what the source in a text means.
pub fn answer_meaning(
    alloc: Global,
    job: &Job,
    showing: Showing,
    bytes: &[u8],
    input: List<u8>,
) -> Result<Answer, NoMemory>
    requires short { length bytes.now ≤ 1048576 }
    requires within { IsWithin job.now }
    ensures { IfOk result (λ a. AnswersMeaning (shown_of showing job.now) job.now input bytes.now (answer_view a)) }
{
    match read_source(alloc, bytes) {
        Ok(source) => answer_reference(alloc, job, showing, source, input),
        Err(fault) => refused(alloc, fault),
    }
}
