// The words of a call, one by one, and what they name.
use crate::setup::{Setup, content};
use shim_base::{List, NoMemory};
use shim_tests_values::{AfterSteps, Over};

/// The word at this place, counted from 0; the first one is a program's own name.
pub fn word(words: &[String], at: usize) -> &str {
    match words.get(at) {
        Some(word) => word.as_str(),
        None => "",
    }
}

/// Over what a process is run, by the word at place 2.
pub fn over_of(words: &[String]) -> Option<Over> {
    match word(words, 2) {
        "syntax" => Some(Over::Syntax),
        "code" => Some(Over::Code),
        _ => None,
    }
}

/// A line of this reply, if there is one.
pub fn line_of(reply: Option<List<u8>>) -> Result<Option<List<u8>>, NoMemory> {
    match reply {
        None => Ok(None),
        Some(reply) => {
            let mut text = reply;
            text.push(b'\n')?;
            Ok(Some(text))
        }
    }
}

/// What the words from this place on name: `FILE N INPUT`. An INPUT that isn't there is empty; nothing where FILE
/// isn't there, or N is no number.
pub fn after_at<'a>(setup: &'a Setup, words: &[String], at: usize) -> Option<AfterSteps<'a>> {
    let Some(text) = content(setup, word(words, at)) else {
        return None;
    };
    let Ok(taken) = word(words, at.saturating_add(1)).parse::<u64>() else {
        return None;
    };
    let input = content(setup, word(words, at.saturating_add(2))).unwrap_or(b"".as_slice());
    Some(AfterSteps { text, input, taken })
}
