// What a case asks of processes, of their code and of texts of values that were made by hand. Each function has the
// words that it answers.
use crate::jobs::job_text;
use crate::setup::{Setup, content};
use crate::words::{after_at, line_of, over_of, word};
use shim_base::{List, NoMemory};
use shim_parser::parse;
use shim_syntax::print;
use shim_tests_values::made_runs::{MadeRun, has_memory_line, report_of_made};
use shim_tests_values::made_trees::{MadeTree, text_of_made};
use shim_tests_values::{
    Question, beside_of, code_of, places_of, reply_of, same_across, throws_of,
};
use std::alloc::Global;
use std::str;

// A source has at most so many bytes.
const MOST_BYTES: usize = 1_048_576;

/// `beside FILE [INPUT]`: to what both kinds of process come, or what differs first.
pub fn beside(
    alloc: Global,
    setup: &Setup,
    words: &[String],
) -> Result<Option<List<u8>>, NoMemory> {
    let Some(source) = content(setup, word(words, 2)) else {
        return Ok(None);
    };
    let input = content(setup, word(words, 3)).unwrap_or(b"".as_slice());
    line_of(beside_of(alloc, source, input)?)
}

/// `across FILE N INPUT FILE N [INPUT]`: whether a process over syntax and one over code are told apart.
pub fn across(
    alloc: Global,
    setup: &Setup,
    words: &[String],
) -> Result<Option<List<u8>>, NoMemory> {
    let Some(one) = after_at(setup, words, 2) else {
        return Ok(None);
    };
    let Some(other) = after_at(setup, words, 5) else {
        return Ok(None);
    };
    line_of(same_across(alloc, &one, &other)?)
}

/// `met {syntax|code} FILE A B`: whether a process and its copy are told apart, once the rendezvous after a quiet step
/// gave A to the process and B to the copy.
pub fn met(alloc: Global, setup: &Setup, words: &[String]) -> Result<Option<List<u8>>, NoMemory> {
    let Some(over) = over_of(words) else {
        return Ok(None);
    };
    let Some(source) = content(setup, word(words, 3)) else {
        return Ok(None);
    };
    let Ok(one) = word(words, 4).parse::<i64>() else {
        return Ok(None);
    };
    let Ok(other) = word(words, 5).parse::<i64>() else {
        return Ok(None);
    };
    line_of(reply_of(alloc, source, b"", over, Question::Met(one, other))?)
}

/// `kind {syntax|code} FILE`: whether the process runs compiled code.
pub fn kind(alloc: Global, setup: &Setup, words: &[String]) -> Result<Option<List<u8>>, NoMemory> {
    let Some(over) = over_of(words) else {
        return Ok(None);
    };
    match content(setup, word(words, 3)) {
        Some(source) => line_of(reply_of(alloc, source, b"", over, Question::Compiled)?),
        None => Ok(None),
    }
}

/// `code FILE`: what the code of a source keeps beside its listing.
pub fn code(alloc: Global, setup: &Setup, words: &[String]) -> Result<Option<List<u8>>, NoMemory> {
    match content(setup, word(words, 2)) {
        Some(source) => line_of(code_of(alloc, source)?),
        None => Ok(None),
    }
}

/// `throws FILE`: the exceptions that each call and branch of a source hands on.
pub fn throws(
    alloc: Global,
    setup: &Setup,
    words: &[String],
) -> Result<Option<List<u8>>, NoMemory> {
    match content(setup, word(words, 2)) {
        Some(source) => line_of(throws_of(alloc, source)?),
        None => Ok(None),
    }
}

/// `places FILE`: where the process over code stands before its first step and after each, up to a stop that is
/// neither a quiet step nor a `put`.
pub fn places(
    alloc: Global,
    setup: &Setup,
    words: &[String],
) -> Result<Option<List<u8>>, NoMemory> {
    match content(setup, word(words, 2)) {
        Some(source) => line_of(places_of(alloc, source)?),
        None => Ok(None),
    }
}

/// `made RUN`: the report of a run that was made by hand.
pub fn made(alloc: Global, words: &[String]) -> Result<Option<List<u8>>, NoMemory> {
    match MadeRun::named(word(words, 2)) {
        Some(run) => Ok(Some(report_of_made(alloc, run)?)),
        None => Ok(None),
    }
}

/// `memory {parse|scope|share}`: whether out of memory has a line.
pub fn memory(alloc: Global, words: &[String]) -> Result<Option<List<u8>>, NoMemory> {
    let reply = match has_memory_line(alloc, word(words, 2)) {
        Some(true) => b"a line\n".as_slice(),
        Some(false) => b"no line\n".as_slice(),
        None => return Ok(None),
    };
    Ok(Some(List::from_slice(alloc, reply)?))
}

/// `tree TREE`: the canonical text of a tree that was made by hand.
pub fn tree(alloc: Global, words: &[String]) -> Result<Option<List<u8>>, NoMemory> {
    match MadeTree::named(word(words, 2)) {
        Some(tree) => Ok(Some(text_of_made(alloc, tree)?)),
        None => Ok(None),
    }
}

/// `printed FILE`: the canonical text of a source in its own version.
pub fn printed(
    alloc: Global,
    setup: &Setup,
    words: &[String],
) -> Result<Option<List<u8>>, NoMemory> {
    let Some(source) = content(setup, word(words, 2)) else {
        return Ok(None);
    };
    if source.len() > MOST_BYTES {
        return Ok(None);
    }
    match parse(alloc, source) {
        Ok(program) => Ok(Some(print(alloc, &program)?)),
        Err(_) => Ok(None),
    }
}

// The lines of a text, without their ends.
fn lines_of(alloc: Global, text: &str) -> Result<Vec<String>, NoMemory> {
    let mut lines = Vec::new(alloc);
    for line in text.split_inclusive('\n') {
        let line = line.strip_suffix('\n').unwrap_or(line);
        lines.push(String::from_str(alloc, line)?)?;
    }
    Ok(lines)
}

/// `lines FILE`: the job that the lines of the file ask for as words, the first of which is the program's own name.
pub fn job_of_lines(
    alloc: Global,
    setup: &Setup,
    words: &[String],
) -> Result<Option<List<u8>>, NoMemory> {
    let Some(bytes) = content(setup, word(words, 2)) else {
        return Ok(None);
    };
    let Ok(text) = str::from_utf8(bytes) else {
        return Ok(None);
    };
    let lines = lines_of(alloc, text)?;
    job_text(alloc, lines.as_slice())
}
