// The report of a run.
ghost use Rattle.std.specs.Prelude.{◌≡◌, ◌++◌, IfOk, OnOk, flat_map};
ghost use Rattle.shim_report.specs.Report.{end_line, history_line, log_line, own_line, report, spent_part, wait_line};

mod lines;
mod sums;
mod words;

use lines::{push_end, push_events, push_history, push_log, push_output, push_own, push_wait};
use shim_base::{List, Name, NoMemory};
use shim_local::{Ended, History, Log, Outcome, OwnSteps, WaitAt};
use std::alloc::Global;
pub use sums::summary;

/// The report of a run: what was put, what each channel's rendezvous gave, what was caught and what trapped, who
/// waits, and last how it ended. Before the end a run that was stopped has how many steps of its own each process
/// did, and how many events were no process's own. The number of a name is its place in `names`.
#[tactic(auto, unfolding(crate::specs::Report::report))]
pub fn text(alloc: Global, ended: &Ended, names: &[Name]) -> Result<List<u8>, NoMemory>
    ensures { IfOk result (λ text. text ≡ report names.now ended.now) }
{
    let mut text = List::new(alloc);
    push_output(&mut text, ended.output.as_slice())?;
    push_histories(&mut text, names, ended.histories.as_slice())?;
    push_logs(&mut text, names, ended.logs.as_slice())?;
    push_waits(&mut text, ended.waits.as_slice())?;
    push_spent_part(&mut text, ended.outcome, ended.own.as_slice(), ended.events)?;
    push_end(&mut text, names, ended.outcome, ended.steps)?;
    Ok(text)
}

fn push_histories(
    text: &mut List<u8>,
    names: &[Name],
    histories: &[History],
) -> Result<(), NoMemory>
    ensures { OnOk result (text.new ≡ text.old ++ flat_map (history_line names.now) histories.now) }
{
    for history in histories {
        push_history(text, names, history)?;
    }
    Ok(())
}

fn push_logs(text: &mut List<u8>, names: &[Name], logs: &[Log]) -> Result<(), NoMemory>
    ensures { OnOk result (text.new ≡ text.old ++ flat_map (log_line names.now) logs.now) }
{
    for log in logs {
        push_log(text, names, log)?;
    }
    Ok(())
}

fn push_waits(text: &mut List<u8>, waits: &[WaitAt]) -> Result<(), NoMemory>
    ensures { OnOk result (text.new ≡ text.old ++ flat_map wait_line waits.now) }
{
    for wait in waits {
        push_wait(text, wait)?;
    }
    Ok(())
}

fn push_owns(text: &mut List<u8>, owns: &[OwnSteps]) -> Result<(), NoMemory>
    ensures { OnOk result (text.new ≡ text.old ++ flat_map own_line owns.now) }
{
    for own in owns {
        push_own(text, own)?;
    }
    Ok(())
}

// Adds the counts of a run that was stopped: how many steps of its own each process did, and how many events
// were no process's own. For any other run it adds nothing.
#[tactic(auto, unfolding(crate::specs::Report::spent_part))]
fn push_spent_part(
    text: &mut List<u8>,
    outcome: Outcome,
    owns: &[OwnSteps],
    events: u64,
) -> Result<(), NoMemory>
    ensures { OnOk result (text.new ≡ text.old ++ spent_part outcome owns.now events) }
{
    match outcome {
        Outcome::Spent => {
            push_owns(text, owns)?;
            push_events(text, events)
        }
        Outcome::Done | Outcome::Uncaught(_) | Outcome::Trapped | Outcome::Blocked => Ok(()),
    }
}
