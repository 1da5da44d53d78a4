// The lines of a report.
ghost use Rattle.std.specs.Prelude.{◌≡◌, ◌++◌, OnOk, flat_map};
ghost use Rattle.shim_local.specs.declared.LogWhat.TheVariants.{Caught, Trap as LoggedTrap};
ghost use Rattle.shim_report.specs.Report.{end_line, events_line, history_line, log_line, outcome_text, output_line, own_line, log_what_line, value_part, wait_line};

use super::words::{push_hex_part, push_name, push_signed, trap_word};
use shim_base::{List, Name, NoMemory, Path, Trap, push_channel, push_decimal, push_path};
use shim_local::{History, Log, LogWhat, Outcome, OwnSteps, WaitAt};

#[tactic(auto, unfolding(crate::specs::Report::output_line))]
pub(super) fn push_output(text: &mut List<u8>, bytes: &[u8]) -> Result<(), NoMemory>
    ensures { OnOk result (text.new ≡ text.old ++ output_line bytes.now) }
{
    text.extend_from_slice(b"output ")?;
    push_decimal(text, bytes.len() as u64)?;
    push_hex_part(text, bytes)?;
    text.extend_from_slice(b"\n")
}

#[tactic(auto, unfolding(crate::specs::Report::history_line))]
pub(super) fn push_history(
    text: &mut List<u8>,
    names: &[Name],
    history: &History,
) -> Result<(), NoMemory>
    ensures { OnOk result (text.new ≡ text.old ++ history_line names.now history.now) }
{
    text.extend_from_slice(b"chan ")?;
    push_channel(text, &history.chan)?;
    text.extend_from_slice(b" ")?;
    push_name(text, names, history.chan.name())?;
    text.extend_from_slice(b" :")?;
    push_values(text, history.values.as_slice())?;
    text.extend_from_slice(b"\n")
}

fn push_values(text: &mut List<u8>, values: &[i64]) -> Result<(), NoMemory>
    ensures { OnOk result (text.new ≡ text.old ++ flat_map value_part values.now) }
{
    for value in values {
        push_value(text, *value)?;
    }
    Ok(())
}

#[tactic(auto, unfolding(crate::specs::Report::value_part))]
fn push_value(text: &mut List<u8>, value: i64) -> Result<(), NoMemory>
    ensures { OnOk result (text.new ≡ text.old ++ value_part value) }
{
    text.extend_from_slice(b" ")?;
    push_signed(text, value)
}

pub(super) fn push_log(text: &mut List<u8>, names: &[Name], log: &Log) -> Result<(), NoMemory>
    ensures { OnOk result (text.new ≡ text.old ++ log_line names.now log.now) }
{
    match log.what {
        LogWhat::Caught(name, line) => push_caught(text, names, &log.path, name, line),
        LogWhat::Trap(trap, line) => push_trapped(text, names, &log.path, trap, line),
    }
}

#[tactic(auto, unfolding(crate::specs::Report::log_what_line))]
fn push_caught(
    text: &mut List<u8>,
    names: &[Name],
    path: &Path,
    name: u32,
    line: u32,
) -> Result<(), NoMemory>
    ensures { OnOk result (text.new ≡ text.old ++ log_what_line names.now path.now (Caught name line)) }
{
    text.extend_from_slice(b"catch ")?;
    push_path(text, path)?;
    text.extend_from_slice(b" ")?;
    push_name(text, names, name)?;
    text.extend_from_slice(b" ")?;
    push_decimal(text, line as u64)?;
    text.extend_from_slice(b"\n")
}

#[tactic(auto, unfolding(crate::specs::Report::log_what_line))]
fn push_trapped(
    text: &mut List<u8>,
    names: &[Name],
    path: &Path,
    trap: Trap,
    line: u32,
) -> Result<(), NoMemory>
    ensures { OnOk result (text.new ≡ text.old ++ log_what_line names.now path.now (LoggedTrap trap line)) }
{
    text.extend_from_slice(b"trap ")?;
    push_path(text, path)?;
    text.extend_from_slice(b" ")?;
    text.extend_from_slice(trap_word(trap).as_bytes())?;
    text.extend_from_slice(b" ")?;
    push_decimal(text, line as u64)?;
    text.extend_from_slice(b"\n")
}

#[tactic(auto, unfolding(crate::specs::Report::wait_line))]
pub(super) fn push_wait(text: &mut List<u8>, wait: &WaitAt) -> Result<(), NoMemory>
    ensures { OnOk result (text.new ≡ text.old ++ wait_line wait.now) }
{
    text.extend_from_slice(b"wait ")?;
    push_path(text, &wait.path)?;
    text.extend_from_slice(b" ")?;
    push_channel(text, &wait.chan)?;
    text.extend_from_slice(b"\n")
}

#[tactic(auto, unfolding(crate::specs::Report::own_line))]
pub(super) fn push_own(text: &mut List<u8>, own: &OwnSteps) -> Result<(), NoMemory>
    ensures { OnOk result (text.new ≡ text.old ++ own_line own.now) }
{
    text.extend_from_slice(b"steps ")?;
    push_path(text, &own.path)?;
    text.extend_from_slice(b" ")?;
    push_decimal(text, own.count)?;
    text.extend_from_slice(b"\n")
}

#[tactic(auto, unfolding(crate::specs::Report::events_line))]
pub(super) fn push_events(text: &mut List<u8>, events: u64) -> Result<(), NoMemory>
    ensures { OnOk result (text.new ≡ text.old ++ events_line events) }
{
    text.extend_from_slice(b"events ")?;
    push_decimal(text, events)?;
    text.extend_from_slice(b"\n")
}

#[tactic(auto, unfolding(crate::specs::Report::end_line))]
pub(super) fn push_end(
    text: &mut List<u8>,
    names: &[Name],
    outcome: Outcome,
    steps: u64,
) -> Result<(), NoMemory>
    ensures { OnOk result (text.new ≡ text.old ++ end_line names.now outcome steps) }
{
    text.extend_from_slice(b"end ")?;
    push_outcome(text, names, outcome)?;
    push_decimal(text, steps)?;
    text.extend_from_slice(b"\n")
}

// Adds the word of an outcome, and the name of an uncaught exception, with a space after each.
fn push_outcome(text: &mut List<u8>, names: &[Name], outcome: Outcome) -> Result<(), NoMemory>
    ensures { OnOk result (text.new ≡ text.old ++ outcome_text names.now outcome) }
{
    match outcome {
        Outcome::Done => text.extend_from_slice(b"done "),
        Outcome::Uncaught(name) => {
            text.extend_from_slice(b"uncaught ")?;
            push_name(text, names, name)?;
            text.extend_from_slice(b" ")
        }
        Outcome::Trapped => text.extend_from_slice(b"trap "),
        Outcome::Blocked => text.extend_from_slice(b"blocked "),
        Outcome::Spent => text.extend_from_slice(b"spent "),
    }
}
