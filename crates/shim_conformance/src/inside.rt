// Words that a case has and the tool doesn't: they ask for the tool with a gate, for a part of it, or for a layer
// below it.
use crate::call::Answer;
use crate::watched::{each_text, gate_text, prepared_text, replayed_text};
use shim_base::{List, NoMemory};
use shim_tests_layers::{Setup, reply_to, word};
use std::alloc::Global;
use std::sync::Wait;
use std::thread::Threads;

/// Answers words of a case's own, over the files of a setup. The status is 2 where there are no such words, where
/// what they name is missing or refused, or where the tool that they ask for ends with a status other than 0.
pub fn call_inside<R: Threads + Wait + Sync>(
    rt: &R,
    alloc: Global,
    setup: &Setup,
    words: &[String],
) -> Result<Answer, NoMemory> {
    let reply = match word(words, 1) {
        "gate" => gate_text(rt, alloc, setup, words)?,
        "replayed" => replayed_text(rt, alloc, setup, words)?,
        "prepared" => prepared_text(alloc, setup, words)?,
        "each" => each_text(rt, alloc, setup, words)?,
        _ => reply_to(rt, alloc, setup, words)?,
    };
    match reply {
        Some(text) => Ok(Answer { status: 0, text }),
        None => Ok(Answer {
            status: 2,
            text: List::from_slice(alloc, b"nothing of that\n")?,
        }),
    }
}
