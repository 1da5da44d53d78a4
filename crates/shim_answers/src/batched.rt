// What a source comes to that is run once on each of several inputs.
ghost use Rattle.std.specs.Prelude.{◌≡◌, ◌≤◌, ◌⊎◌, ◌++◌, [], map, length, IfOk, OnOk};
ghost use Rattle.std.specs.List.{All, AllZip};
ghost use Rattle.shim_command.specs.Jobs.{IsWithin};
ghost use Rattle.shim_process.specs.Forks.{root};
ghost use Rattle.shim_process.specs.Ops.{process_ops};
ghost use Rattle.shim_net.specs.Nets.{started};
ghost use Rattle.shim_net.specs.Standings.{IsQuiescentNet, IsSpentNet};
ghost use Rattle.shim_results.specs.Answer.{AnswersEach};
ghost use Rattle.shim_results.specs.AnswerView.{exit_code};
ghost use Rattle.shim_results.specs.Batches.{greatest, input_line, reports_of, statuses_of};
ghost use Rattle.shim_results.specs.SourceActions.{executed};
ghost use Rattle.shim_answers.specs.EndedNets.{end_of_net};
ghost use Rattle.shim_results.specs.RunEnds.{report_of};
ghost use Rattle.shim_results.specs.Views.{answer_view};

use crate::runs::RunOfEach;
use shim_base::{List, NoMemory, Shared};
use shim_batch::batch;
use shim_code::{Code, compile};
use shim_command::Job;
use shim_local::Local;
use shim_net::Net;
use shim_reference::named;
use shim_report::{Ended, text};
use shim_results::{Answer, ExitStatus};
use shim_sharing::Accepted;
use shim_vm::Body;
use shim_workers::Gate;
use std::alloc::Global;
use std::thread::Threads;

// The net of a run of this code, which takes in this input, in which nothing has happened.
fn net_of(
    alloc: Global,
    code: Shared<Code>,
    input: List<u8>,
    budget: u64,
) -> Result<Net<Body>, NoMemory>
    requires { (1 ≤ budget) × (budget ≤ 4000000) }
    ensures { IfOk result (λ net. net ≡ started (root code input) budget) }
{
    let input = Shared::new(alloc, input)?;
    let main = Body::main(alloc, code, input)?;
    Net::start(alloc, main, budget)
}

// The nets of a source's runs, one for each input, in which nothing has happened. The source is compiled
// once.
fn nets_of(
    alloc: Global,
    job: &Job,
    source: &Accepted,
    inputs: List<List<u8>>,
) -> Result<List<Net<Body>>, NoMemory>
    requires within { IsWithin job.now }
    ensures { IfOk result (λ nets. AllZip (λ input net. net ≡ started (root source.now input) job.now.budget) inputs nets) }
{
    let code = Shared::new(alloc, compile(alloc, source)?)?;
    let mut nets = List::with_capacity(alloc, inputs.len())?;
    for input in inputs.into_vec() {
        nets.push(net_of(alloc, code.share()?, input, job.budget)?)?;
    }
    Ok(nets)
}

// What is read off nets that came to their ends. Each net is let go once it is read.
fn ends_of(alloc: Global, source: &Accepted, done: List<Net<Body>>) -> Result<List<Ended>, NoMemory>
    requires { All (λ net. IsQuiescentNet process_ops net ⊎ IsSpentNet process_ops net) done }
    ensures { IfOk result (λ ends. ends ≡ map (λ net. end_of_net source.now net) done) }
{
    let mut ends = List::with_capacity(alloc, done.len())?;
    for net in done.into_vec() {
        ends.push(named(net.ended()?, source.main_throws()))?;
    }
    Ok(ends)
}

// The greatest of the statuses that say how runs ended.
fn greatest_status(ends: &[Ended]) -> ExitStatus
    ensures { exit_code result ≡ greatest (statuses_of ends.now) }
{
    let mut status = ExitStatus::Done;
    for end in ends {
        status = status.or_greater(ExitStatus::of(end.outcome));
    }
    status
}

// Adds the line of an input, and after it the report of the run on that input.
#[tactic(auto, unfolding(shim_results::specs::Batches::input_line))]
fn push_report(
    alloc: Global,
    lines: &mut List<u8>,
    name: &[u8],
    source: &Accepted,
    end: &Ended,
) -> Result<(), NoMemory>
    ensures { OnOk result (lines.new ≡ lines.old ++ (input_line name.now ++ report_of source.now end.now)) }
{
    let report = text(alloc, end, source.names())?;
    lines.extend_from_slice(b"input ")?;
    lines.extend_from_slice(name)?;
    lines.extend_from_slice(b"\n")?;
    lines.append(report)?;
    Ok(())
}

// The reports of a source's runs in order, each after the line of its input.
fn reports(
    alloc: Global,
    source: &Accepted,
    names: &[List<u8>],
    ends: &[Ended],
) -> Result<List<u8>, NoMemory>
    ensures { IfOk result (λ text. text ≡ reports_of source.now names.now ends.now) }
{
    let mut lines = List::new(alloc);
    for (name, end) in names.iter().zip(ends) {
        push_report(alloc, &mut lines, name.as_slice(), source, end)?;
    }
    Ok(lines)
}

/// Does the runs that were left to be done, at most as many at a time as the job has workers, and reports them in
/// the order of the inputs. The source is compiled once, and each run is done by one worker. It returns
/// where each `enter` of its gate does.
pub fn answer_each<G: Gate, R: Threads + Sync>(
    rt: &R,
    alloc: Global,
    run: RunOfEach,
    gate: &G,
) -> Result<Answer, NoMemory>
    requires within { IsWithin run.job }
    requires few { (1 ≤ length run.inputs) × (length run.inputs ≤ 64) }
    requires named { length run.inputs ≡ length run.job.inputs }
    ensures { IfOk result (λ a. AnswersEach run.job.inputs (executed run.job [] run.source) run.inputs (answer_view a)) }
{
    let RunOfEach {
        job,
        source,
        inputs,
    } = run;
    let nets = nets_of(alloc, &job, &source, inputs)?;
    let done = batch(rt, alloc, nets, job.workers as u32, job.quantum, gate)?;
    let ends = ends_of(alloc, &source, done)?;
    Ok(Answer {
        status: greatest_status(ends.as_slice()),
        text: reports(alloc, &source, job.inputs.as_slice(), ends.as_slice())?,
    })
}
