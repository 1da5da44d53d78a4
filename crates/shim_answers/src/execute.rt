// What is printed of a source, run or not.
ghost use Rattle.std.specs.Prelude.{◌≡◌, ◌≤◌, ◌⊎◌, IfOk, length};
ghost use Rattle.shim_net.specs.Nets.{IsNet};
ghost use Rattle.shim_net.specs.Standings.{IsQuiescentNet, IsSpentNet};
ghost use Rattle.shim_command.specs.Jobs.{IsWithin};
ghost use Rattle.shim_command.specs.declared.mode.Course.TheVariants as courses;
ghost use Rattle.shim_command.specs.declared.mode.Description.TheVariants as descriptions;
ghost use Rattle.shim_results.specs.Answer.{AnswersRecord, AnswersRun};
ghost use Rattle.shim_answers.specs.Tasks.{AnswersDescribedSource};
ghost use Rattle.shim_results.specs.SourceActions.{accepted_line, executed, functions_from, shown_of, IsTextInVersion2};
ghost use Rattle.shim_results.specs.RunEnds.{IsEnd};
ghost use Rattle.shim_answers.specs.EndedNets.{IsEndedNet};
ghost use Rattle.shim_results.specs.Views.{answer_view};

use crate::runs::{PreparedRun, RunToRecord};
use shim_base::{List, NoMemory, Shared, push_decimal};
use shim_code::{compile, listing};
use shim_command::{Description, Job};
use shim_front_end::{read_program, read_source};
use shim_local::Local;
use shim_net::Net;
use shim_reference::named;
use shim_replay::journal_text;
use shim_report::Ended;
use shim_results::{Answer, ExitStatus, refused, shown};
use shim_sharing::Accepted;
use shim_syntax::{Program, print};
use shim_units::Unit;
use shim_up::up;
use shim_vm::Body;
use shim_workers::{Gate, drive, drive_steal};
use std::alloc::Global;
use std::sync::Wait;
use std::thread::Threads;

// The net to which a run of this one by workers comes, whose work lies in lanes where the job says so, and else on
// a board.
fn run_net<L: Local, G: Gate, R: Threads + Wait + Sync>(
    rt: &R,
    alloc: Global,
    job: &Job,
    net: Net<L>,
    gate: &G,
) -> Result<Net<L>, NoMemory>
    requires within { IsWithin job.now }
    ensures root { IfOk result (λ n. n.root ≡ net.root) }
    ensures budget { IfOk result (λ n. n.budget ≡ net.budget) }
    ensures quiescent_or_spent { IfOk result (λ n. IsQuiescentNet L.ops n ⊎ IsSpentNet L.ops n) }
    ensures keeps { IfOk result (λ n. IsNet L.ops n) }
{
    let workers = job.workers as u32;
    if job.steal {
        drive_steal(rt, alloc, net, workers, job.quantum, gate)
    } else {
        drive(rt, alloc, net, workers, job.quantum, gate)
    }
}

// The net to which a run of a source's compiled code comes, whose processes do their work on at most as
// many threads as the job has workers.
fn run_code<G: Gate, R: Threads + Wait + Sync>(
    rt: &R,
    alloc: Global,
    job: &Job,
    source: &Accepted,
    input: List<u8>,
    gate: &G,
) -> Result<Net<Body>, NoMemory>
    requires within { IsWithin job.now }
    ensures { IfOk result (IsEndedNet (executed job.now input source.now)) }
{
    let input = Shared::new(alloc, input)?;
    let code = Shared::new(alloc, compile(alloc, source)?)?;
    let main = Body::main(alloc, code, input)?;
    let begun = Net::start(alloc, main, job.budget)?;
    run_net(rt, alloc, job, begun, gate)
}

// How a run of a source's compiled code by workers ends.
fn end_of_code<G: Gate, R: Threads + Wait + Sync>(
    rt: &R,
    alloc: Global,
    job: &Job,
    source: &Accepted,
    input: List<u8>,
    gate: &G,
) -> Result<Ended, NoMemory>
    requires within { IsWithin job.now }
    ensures { IfOk result (IsEnd courses.InSomeOrder (executed job.now input source.now)) }
{
    let net = run_code(rt, alloc, job, source, input, gate)?;
    Ok(named(net.ended()?, source.main_throws()))
}

/// Does a run that was left to be done, its processes on at most as many threads as the job has workers,
/// and answers how it ended.
pub fn answer_run<G: Gate, R: Threads + Wait + Sync>(
    rt: &R,
    alloc: Global,
    run: PreparedRun,
    gate: &G,
) -> Result<Answer, NoMemory>
    requires within { IsWithin run.job }
    ensures { IfOk result (λ a. AnswersRun courses.InSomeOrder (shown_of run.showing run.job) (executed run.job run.input run.source) (answer_view a)) }
{
    let PreparedRun {
        job,
        showing,
        source,
        input,
    } = run;
    let end = end_of_code(rt, alloc, &job, &source, input, gate)?;
    Ok(Answer {
        status: ExitStatus::of(end.outcome),
        text: shown(alloc, &job, showing, &source, &end)?,
    })
}

/// Does a run whose journal is to be printed, and prints that: the budget, and what was done in the net to
/// which the run comes. The status says how the run ended, as that of any run.
pub fn answer_record<G: Gate, R: Threads + Wait + Sync>(
    rt: &R,
    alloc: Global,
    run: RunToRecord,
    gate: &G,
) -> Result<Answer, NoMemory>
    requires within { IsWithin run.job }
    ensures { IfOk result (λ a. AnswersRecord (executed run.job run.input run.source) (answer_view a)) }
{
    let RunToRecord { job, source, input } = run;
    let net = run_code(rt, alloc, &job, &source, input, gate)?;
    let text = journal_text(alloc, job.budget, net.journal())?;
    let end = named(net.ended()?, source.main_throws());
    Ok(Answer {
        status: ExitStatus::of(end.outcome),
        text,
    })
}

// How many units are those of functions. Those that were lifted out of functions stand after them.
fn function_count(units: &[Unit]) -> usize
    ensures { result ≡ functions_from 0 units.now }
{
    for (number, unit) in units.iter().enumerate() {
        if unit.function as usize != number {
            return number;
        }
    }
    units.len()
}

// The line that says how many functions a source has.
#[tactic(auto, unfolding(shim_results::specs::SourceActions::accepted_line))]
fn count_line(alloc: Global, source: &Accepted) -> Result<List<u8>, NoMemory>
    ensures { IfOk result (λ text. text ≡ accepted_line source.now) }
{
    let mut text = List::new(alloc);
    text.extend_from_slice(b"accepted ")?;
    push_decimal(&mut text, function_count(source.units()) as u64)?;
    text.extend_from_slice(b"\n")?;
    Ok(text)
}

// The canonical text of what a program is in version 2.
fn text_in_version_2(alloc: Global, program: &Program) -> Result<List<u8>, NoMemory>
    ensures { IfOk result (λ text. IsTextInVersion2 program.now text) }
{
    let newer = up(alloc, program)?;
    print(alloc, &newer)
}

// The answer with what is printed of a source.
fn described(text: List<u8>) -> Answer
    ensures { answer_view result ≡ record { status = 0; text = text } }
{
    Answer {
        status: ExitStatus::Done,
        text,
    }
}

// Answers that the source in a text is accepted.
fn answer_check(alloc: Global, bytes: &[u8]) -> Result<Answer, NoMemory>
    requires short { length bytes.now ≤ 1048576 }
    ensures { IfOk result (λ a. AnswersDescribedSource descriptions.Functions bytes.now (answer_view a)) }
{
    match read_source(alloc, bytes) {
        Ok(source) => Ok(described(count_line(alloc, &source)?)),
        Err(fault) => refused(alloc, fault),
    }
}

// Answers with the code of the source in a text.
fn answer_code(alloc: Global, bytes: &[u8]) -> Result<Answer, NoMemory>
    requires short { length bytes.now ≤ 1048576 }
    ensures { IfOk result (λ a. AnswersDescribedSource descriptions.Instructions bytes.now (answer_view a)) }
{
    match read_source(alloc, bytes) {
        Ok(source) => Ok(described(listing(alloc, &source)?)),
        Err(fault) => refused(alloc, fault),
    }
}

// Answers with what the program of a text is in version 2.
fn answer_up(alloc: Global, bytes: &[u8]) -> Result<Answer, NoMemory>
    requires short { length bytes.now ≤ 1048576 }
    ensures { IfOk result (λ a. AnswersDescribedSource descriptions.Version2 bytes.now (answer_view a)) }
{
    match read_program(alloc, bytes) {
        Ok(program) => Ok(described(text_in_version_2(alloc, &program)?)),
        Err(fault) => refused(alloc, fault),
    }
}

/// Answers with a description of the source in a text, which isn't run.
pub fn answer_description(
    alloc: Global,
    description: Description,
    bytes: &[u8],
) -> Result<Answer, NoMemory>
    requires short { length bytes.now ≤ 1048576 }
    ensures { IfOk result (λ a. AnswersDescribedSource description bytes.now (answer_view a)) }
{
    match description {
        Description::Functions => answer_check(alloc, bytes),
        Description::Instructions => answer_code(alloc, bytes),
        Description::Version2 => answer_up(alloc, bytes),
    }
}
