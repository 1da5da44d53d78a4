// The summary of a run.
ghost use Rattle.std.specs.Prelude.{◌≡◌, ◌<◌, ◌++◌, ◌+ℤ◌, pos, IfOk, OnOk, filter, length};
ghost use Rattle.shim_report.specs.Summary.{all_values, catch_count, count_line, counts_part, counts_text, is_caught, made_line, residue, summary, sum_of_values, values_line};

use super::lines::push_end;
use shim_base::{List, Name, NoMemory, push_decimal};
use shim_local::{Ended, History, Log, LogWhat, Outcome};
use std::alloc::Global;

// A sum is printed as its residue modulo this.
const MODULUS: u64 = 1000000;

// How many values the rendezvous on all channels gave. A count past 64 bits is `NoMemory`.
fn value_count(histories: &[History]) -> Result<u64, NoMemory>
    ensures { IfOk result (λ count. count ≡ length (all_values histories.now)) }
{
    let mut count = 0u64;
    for history in histories {
        let more = history.values.len() as u64;
        count = count.checked_add(more).ok_or(NoMemory)?;
    }
    Ok(count)
}

// The number from 0 to 999,999 that differs from the value by a multiple of a million.
fn residue(value: i64) -> u64
    ensures value { result ≡ residue value }
    ensures small { result < 1000000 }
{
    value.rem_euclid(1000000) as u64
}

// The residue of a sum to which values are added.
fn add_values(start: u64, values: &[i64]) -> u64
    requires { start < 1000000 }
    ensures value { result ≡ residue (pos start +ℤ sum_of_values values.now) }
    ensures small { result < 1000000 }
{
    let mut sum = start;
    for value in values {
        sum = (sum + residue(*value)) % MODULUS;
    }
    sum
}

fn value_sum(histories: &[History]) -> u64
    ensures { result ≡ residue (sum_of_values (all_values histories.now)) }
{
    let mut sum = 0u64;
    for history in histories {
        sum = add_values(sum, history.values.as_slice());
    }
    sum
}

fn is_caught(log: &Log) -> bool
    ensures { result ≡ is_caught log.now.what }
{
    match log.what {
        LogWhat::Caught(_, _) => true,
        LogWhat::Trap(_, _) => false,
    }
}

fn catch_count(logs: &[Log]) -> usize
    ensures { result ≡ catch_count logs.now }
{
    let mut count = 0usize;
    for log in logs {
        if is_caught(log) {
            count += 1;
        }
    }
    count
}

#[tactic(auto, unfolding(crate::specs::Summary::made_line))]
fn push_made(text: &mut List<u8>, kind: &[u8], size: u64) -> Result<(), NoMemory>
    ensures { OnOk result (text.new ≡ text.old ++ made_line kind.now size) }
{
    text.extend_from_slice(b"gen ")?;
    text.extend_from_slice(kind)?;
    text.extend_from_slice(b" ")?;
    push_decimal(text, size)?;
    text.extend_from_slice(b"\n")
}

// Adds a word, and how many there are of what it names.
#[tactic(auto, unfolding(crate::specs::Summary::count_line))]
fn push_count(text: &mut List<u8>, word: &[u8], count: usize) -> Result<(), NoMemory>
    ensures { OnOk result (text.new ≡ text.old ++ count_line word.now count) }
{
    text.extend_from_slice(word)?;
    text.extend_from_slice(b" ")?;
    push_decimal(text, count as u64)?;
    text.extend_from_slice(b"\n")
}

#[tactic(auto, unfolding(crate::specs::Summary::values_line))]
fn push_values(text: &mut List<u8>, count: u64, sum: u64) -> Result<(), NoMemory>
    ensures { OnOk result (text.new ≡ text.old ++ values_line count sum) }
{
    text.extend_from_slice(b"values ")?;
    push_decimal(text, count)?;
    text.extend_from_slice(b" ")?;
    push_decimal(text, sum)?;
    text.extend_from_slice(b"\n")
}

fn push_counts(text: &mut List<u8>, ended: &Ended) -> Result<(), NoMemory>
    ensures { OnOk result (text.new ≡ text.old ++ counts_text ended.now) }
{
    let histories = ended.histories.as_slice();
    push_count(text, b"output", ended.output.len())?;
    push_count(text, b"channels", histories.len())?;
    push_values(text, value_count(histories)?, value_sum(histories))?;
    push_count(text, b"catches", catch_count(ended.logs.as_slice()))
}

// Adds the counts of a run that wasn't stopped.
fn push_counts_part(text: &mut List<u8>, ended: &Ended) -> Result<(), NoMemory>
    ensures { OnOk result (text.new ≡ text.old ++ counts_part ended.now.outcome ended.now) }
{
    match ended.outcome {
        Outcome::Spent => Ok(()),
        Outcome::Done | Outcome::Uncaught(_) | Outcome::Trapped | Outcome::Blocked => {
            push_counts(text, ended)
        }
    }
}

/// The summary of the run of a source that was made, of this kind and size. It has the counts of a run
/// that came to its end, and of one that was stopped the first and the last line alone.
#[tactic(auto, unfolding(crate::specs::Summary::summary))]
pub fn summary(
    alloc: Global,
    kind: &[u8],
    size: u64,
    ended: &Ended,
    names: &[Name],
) -> Result<List<u8>, NoMemory>
    ensures { IfOk result (λ text. text ≡ summary kind.now size names.now ended.now) }
{
    let mut text = List::new(alloc);
    push_made(&mut text, kind, size)?;
    push_counts_part(&mut text, ended)?;
    push_end(&mut text, names, ended.outcome, ended.steps)?;
    Ok(text)
}
