// Replies to words that ask for what lies below the tool, or for what the tool itself doesn't print.
use crate::edges::{reads, whole_write, writes};
use crate::forms::{form_text, units_text};
use crate::jobs::job_text;
use crate::nets::{batch_of_nets, lanes_text, net_text, records_text, workers_text};
use crate::runs::{explained, holding, journal};
use crate::setup::{Setup, content};
use crate::tokens::{row_tokens, tokens};
use crate::values::{
    across, beside, code, job_of_lines, kind, made, memory, met, places, printed, throws, tree,
};
use crate::words::{after_at, line_of, over_of, word};
use shim_base::{List, NoMemory};
use shim_generator::{Kind, generate};
use shim_tests_runs::{Order, events_of, report_of};
use shim_tests_values::{Question, reply_of, same_of};
use shim_tests_workers::two_lanes_text;
use std::alloc::Global;
use std::sync::Wait;
use std::thread::Threads;

// The words after the first two.
fn behind(words: &[String]) -> &[String] {
    match words.split_at_checked(2) {
        Some((_, behind)) => behind,
        None => &[],
    }
}

// `process {syntax|code} FILE [INPUT]`: the trace of the process that runs the source's `main`.
fn process(alloc: Global, setup: &Setup, words: &[String]) -> Result<Option<List<u8>>, NoMemory> {
    let Some(over) = over_of(words) else {
        return Ok(None);
    };
    let Some(source) = content(setup, word(words, 3)) else {
        return Ok(None);
    };
    let input = content(setup, word(words, 4)).unwrap_or(b"".as_slice());
    line_of(reply_of(alloc, source, input, over, Question::Trace)?)
}

// `shares {syntax|code} FILE N [INPUT]`: which of the root's first four channels the process shares after at most N
// quiet steps, and at a fork also each child.
fn shares(alloc: Global, setup: &Setup, words: &[String]) -> Result<Option<List<u8>>, NoMemory> {
    let Some(over) = over_of(words) else {
        return Ok(None);
    };
    let Some(behind) = after_at(setup, words, 3) else {
        return Ok(None);
    };
    let question = Question::Shares(behind.taken);
    line_of(reply_of(alloc, behind.text, behind.input, over, question)?)
}

// `same {syntax|code} FILE N INPUT FILE N [INPUT]`: whether the two processes are told apart.
fn same(alloc: Global, setup: &Setup, words: &[String]) -> Result<Option<List<u8>>, NoMemory> {
    let Some(over) = over_of(words) else {
        return Ok(None);
    };
    let Some(one) = after_at(setup, words, 3) else {
        return Ok(None);
    };
    let Some(other) = after_at(setup, words, 6) else {
        return Ok(None);
    };
    line_of(same_of(alloc, &one, &other, over)?)
}

// `events FILE N`: the first event after N first events, and all events that are enabled then.
fn events(alloc: Global, setup: &Setup, words: &[String]) -> Result<Option<List<u8>>, NoMemory> {
    let Some(source) = content(setup, word(words, 2)) else {
        return Ok(None);
    };
    match word(words, 3).parse::<u8>() {
        Ok(done) => line_of(events_of(alloc, source, done)?),
        Err(_) => Ok(None),
    }
}

fn order_of(word: &str) -> Option<Order> {
    match word {
        "first" => Some(Order::First),
        "last" => Some(Order::Last),
        "middle" => Some(Order::Middle),
        "turns" => Some(Order::ByTurns),
        _ => None,
    }
}

// `order {first|last|middle|turns} FILE`: the report of a run that does its events in this order.
fn ordered(alloc: Global, setup: &Setup, words: &[String]) -> Result<Option<List<u8>>, NoMemory> {
    let Some(order) = order_of(word(words, 2)) else {
        return Ok(None);
    };
    match content(setup, word(words, 3)) {
        Some(source) => report_of(alloc, source, order),
        None => Ok(None),
    }
}

// `form FILE`: the resolved form of a source.
fn form(alloc: Global, setup: &Setup, words: &[String]) -> Result<Option<List<u8>>, NoMemory> {
    match content(setup, word(words, 2)) {
        Some(source) => form_text(alloc, source),
        None => Ok(None),
    }
}

// `units FILE`: the units of a source.
fn units(alloc: Global, setup: &Setup, words: &[String]) -> Result<Option<List<u8>>, NoMemory> {
    match content(setup, word(words, 2)) {
        Some(source) => units_text(alloc, source),
        None => Ok(None),
    }
}

// `source KIND N`: the source that is made.
fn source(alloc: Global, words: &[String]) -> Result<Option<List<u8>>, NoMemory> {
    let Some(kind) = Kind::named(word(words, 2).as_bytes()) else {
        return Ok(None);
    };
    match word(words, 3).parse::<u64>() {
        Ok(size) => Ok(Some(generate(alloc, kind, size)?)),
        Err(_) => Ok(None),
    }
}

// What is asked of one process, of code, and of values.
fn of_values(alloc: Global, setup: &Setup, words: &[String]) -> Result<Option<List<u8>>, NoMemory> {
    match word(words, 1) {
        "beside" => beside(alloc, setup, words),
        "across" => across(alloc, setup, words),
        "met" => met(alloc, setup, words),
        "kind" => kind(alloc, setup, words),
        "code" => code(alloc, setup, words),
        "throws" => throws(alloc, setup, words),
        "places" => places(alloc, setup, words),
        "made" => made(alloc, words),
        "memory" => memory(alloc, words),
        "tree" => tree(alloc, words),
        "printed" => printed(alloc, setup, words),
        "lines" => job_of_lines(alloc, setup, words),
        "tokens" => tokens(alloc, setup, words),
        "rows" => row_tokens(alloc, setup, words),
        _ => Ok(None),
    }
}

// What is asked of trees and journals of sources, and of files and sinks.
fn of_runs(alloc: Global, setup: &Setup, words: &[String]) -> Result<Option<List<u8>>, NoMemory> {
    match word(words, 1) {
        "explained" => line_of(explained(alloc, content(setup, word(words, 2)))?),
        "holds" => {
            let source = content(setup, word(words, 3));
            line_of(holding(alloc, word(words, 2), source)?)
        }
        "journal" => journal(alloc, content(setup, word(words, 2))),
        "reads" => reads(alloc, setup, behind(words)),
        "writes" => writes(alloc, setup, behind(words)),
        "writes-all" => whole_write(alloc, setup, word(words, 2), word(words, 3)),
        _ => Ok(None),
    }
}

// What workers do over nets of small processes, and the calls of lanes.
fn of_work<R: Threads + Wait + Sync>(
    rt: &R,
    alloc: Global,
    words: &[String],
) -> Result<Option<List<u8>>, NoMemory> {
    match word(words, 1) {
        "net" => net_text(alloc, words),
        "records" => records_text(alloc, words),
        "workers" => workers_text(rt, alloc, words),
        "batch" => batch_of_nets(rt, alloc, words),
        "lanes" => lanes_text(alloc, words),
        // the calls of two lanes, one by one
        "two-lanes" => two_lanes_text(rt, alloc),
        _ => Ok(None),
    }
}

// What is asked of one process, of whole trees, and of stages.
fn of_stages(alloc: Global, setup: &Setup, words: &[String]) -> Result<Option<List<u8>>, NoMemory> {
    match word(words, 1) {
        "process" => process(alloc, setup, words),
        "shares" => shares(alloc, setup, words),
        "same" => same(alloc, setup, words),
        "events" => events(alloc, setup, words),
        "order" => ordered(alloc, setup, words),
        "form" => form(alloc, setup, words),
        "units" => units(alloc, setup, words),
        "job" => match words.split_first() {
            Some((_, asked)) => job_text(alloc, asked),
            None => Ok(None),
        },
        "source" => source(alloc, words),
        _ => Ok(None),
    }
}

/// The reply to words that ask for what lies below the tool, over these files; none where there are no such words, or
/// where what they name is missing or refused.
pub fn reply_to<R: Threads + Wait + Sync>(
    rt: &R,
    alloc: Global,
    setup: &Setup,
    words: &[String],
) -> Result<Option<List<u8>>, NoMemory> {
    if let Some(text) = of_stages(alloc, setup, words)? {
        return Ok(Some(text));
    }
    if let Some(text) = of_values(alloc, setup, words)? {
        return Ok(Some(text));
    }
    match of_runs(alloc, setup, words)? {
        Some(text) => Ok(Some(text)),
        None => of_work(rt, alloc, words),
    }
}
