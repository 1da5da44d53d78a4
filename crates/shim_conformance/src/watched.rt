// Calls of the tool that a gate watches, what the tool prepares without a runtime, and runs on several inputs.
use crate::call::{Answer, call_over};
use shim_base::{List, Name, NoMemory, push_decimal};
use shim_tests_layers::{HeldFile, Setup, files_of, gate_of, word};
use shim_tests_workers::{Hold, WatchingGate};
use shim_tool::{NoOpGate, Prepared, answer_each, prepare};
use std::alloc::Global;
use std::sync::Wait;
use std::thread::Threads;

fn add_number(reply: &mut List<u8>, before: &[u8], number: u64) -> Result<(), NoMemory> {
    reply.extend_from_slice(before)?;
    push_decimal(reply, number)
}

// Tells what a gate saw. As the number of entries it tells `most` at most.
fn add_gate(reply: &mut List<u8>, gate: &WatchingGate, most: u64) -> Result<(), NoMemory> {
    add_number(reply, b"gate: entries ", gate.entries().min(most))?;
    add_number(reply, b", held ", gate.holds())?;
    add_number(reply, b", in vain ", gate.failures())?;
    add_number(reply, b", not compiled ", gate.not_compiled())?;
    reply.push(b'\n')
}

// The text of an answer, and what a gate saw; nothing where the tool's status isn't 0.
fn after_gate(
    answer: Answer,
    gate: &WatchingGate,
    most: u64,
) -> Result<Option<List<u8>>, NoMemory> {
    if answer.status != 0 {
        return Ok(None);
    }
    let mut reply = answer.text;
    add_gate(&mut reply, gate, most)?;
    Ok(Some(reply))
}

// The tool's own name, followed by the words from this place on.
fn asked_from(alloc: Global, words: &[String], at: usize) -> Result<Vec<String>, NoMemory> {
    let mut asked = Vec::new(alloc);
    asked.push(String::from_str(alloc, "shim")?)?;
    for word in words.iter().skip(at) {
        asked.push(word.clone()?)?;
    }
    Ok(asked)
}

/// `gate HOLD MOST WORDS`: what the tool answers, and what a gate saw; MOST entries are told at most.
pub fn gate_text<R: Threads + Wait + Sync>(
    rt: &R,
    alloc: Global,
    setup: &Setup,
    words: &[String],
) -> Result<Option<List<u8>>, NoMemory> {
    let Ok(most) = word(words, 3).parse::<u64>() else {
        return Ok(None);
    };
    let Some(gate) = gate_of(word(words, 2)) else {
        return Ok(None);
    };
    let asked = asked_from(alloc, words, 4)?;
    let answer = call_over(rt, alloc, setup, &[], asked.as_slice(), &gate)?;
    after_gate(answer, &gate, most)
}

// The words of a line.
fn words_of(alloc: Global, line: &str) -> Result<Vec<String>, NoMemory> {
    let mut words = Vec::new(alloc);
    for word in line.split(' ') {
        words.push(String::from_str(alloc, word)?)?;
    }
    Ok(words)
}

// The file `j`, a journal.
fn journal_file(alloc: Global, content: List<u8>) -> Result<Vec<HeldFile>, NoMemory> {
    let mut files = Vec::new(alloc);
    files.push(HeldFile {
        name: Name::new(alloc, b"j")?,
        content: content.into_vec(),
    })?;
    Ok(files)
}

/// `replayed WORDS`: the journal that the tool answers is replayed over `p.shim` with the input `i`. Gives the text
/// of the replay, and what one gate saw of both calls; as the number of entries it tells 1 at most.
pub fn replayed_text<R: Threads + Wait + Sync>(
    rt: &R,
    alloc: Global,
    setup: &Setup,
    words: &[String],
) -> Result<Option<List<u8>>, NoMemory> {
    let gate = WatchingGate::new(Hold::Nobody, false);
    let asked = asked_from(alloc, words, 2)?;
    let traced = call_over(rt, alloc, setup, &[], asked.as_slice(), &gate)?;
    if traced.status != 0 {
        return Ok(None);
    }
    let journal = journal_file(alloc, traced.text)?;
    let asked = words_of(alloc, "shim replay p.shim --input i --journal j")?;
    let answer = call_over(
        rt,
        alloc,
        setup,
        journal.as_slice(),
        asked.as_slice(),
        &gate,
    )?;
    after_gate(answer, &gate, 1)
}

// What a call comes to before a runtime is wanted.
fn prepared(alloc: Global, setup: &Setup, words: &[String]) -> Result<Prepared, NoMemory> {
    let mut files = files_of(alloc, setup, &[])?;
    prepare(alloc, asked_from(alloc, words, 2)?.as_slice(), &mut files)
}

// The line for what `prepare` returned.
fn preparation(prepared: &Prepared) -> &'static [u8] {
    match prepared {
        Prepared::Answered(_) => b"answered\n",
        Prepared::ToRun(_) => b"left to be run\n",
        Prepared::ToRecord(_) => b"left to be recorded\n",
        Prepared::ToRunEach(_) => b"left to be run on each\n",
    }
}

/// `prepared WORDS`: whether the tool has an answer without a runtime, or what it leaves to be done.
pub fn prepared_text(
    alloc: Global,
    setup: &Setup,
    words: &[String],
) -> Result<Option<List<u8>>, NoMemory> {
    let prepared = prepared(alloc, setup, words)?;
    Ok(Some(List::from_slice(alloc, preparation(&prepared))?))
}

/// `each WORDS`: the text of runs on several inputs, which need threads but no `Wait`. Gives nothing where the words
/// ask for anything else, or the status isn't 0. Clauses of `prepare` give the conditions of `answer_each`.
pub fn each_text<R: Threads + Sync>(
    rt: &R,
    alloc: Global,
    setup: &Setup,
    words: &[String],
) -> Result<Option<List<u8>>, NoMemory> {
    let asked = asked_from(alloc, words, 2)?;
    let mut files = files_of(alloc, setup, &[])?;
    match prepare(alloc, asked.as_slice(), &mut files)? {
        Prepared::ToRunEach(run) => {
            let answer = answer_each(rt, alloc, run, &NoOpGate::new())?;
            if answer.status.code() == 0 {
                Ok(Some(answer.text))
            } else {
                Ok(None)
            }
        }
        _ => Ok(None),
    }
}
