// What calls answer. A call of the tool reads files in memory and writes to a sink in memory.
use crate::case::Case;
use shim_base::{List, NoMemory};
use shim_tests_layers::{HeldFile, Setup, files_of, sink_with_room};
use shim_tool::{Gate, NoOpGate, shim};
use std::alloc::Global;
use std::sync::Wait;
use std::thread::Threads;

// The room of the sink: the most bytes that the tool can write in one call.
const ROOM: usize = 1 << 20;

/// What a call answered.
#[derive(Drop)]
pub struct Answer {
    pub status: u8,
    pub text: List<u8>,
}

impl Answer {
    pub fn is_as_wanted(&self, case: &Case) -> bool {
        self.status == case.status && self.text.as_slice() == case.text.as_slice()
    }
}

/// Calls the tool with these words, over the files of a setup and these further ones. Its workers pass this gate.
pub fn call_over<G: Gate, R: Threads + Wait + Sync>(
    rt: &R,
    alloc: Global,
    setup: &Setup,
    more: &[HeldFile],
    words: &[String],
    gate: &G,
) -> Result<Answer, NoMemory> {
    let mut files = files_of(alloc, setup, more)?;
    let mut sink = sink_with_room(alloc, setup, ROOM)?;
    let status = shim(rt, alloc, words, &mut files, &mut sink, gate);
    let text = List::from_slice(alloc, sink.taken())?;
    Ok(Answer { status, text })
}

/// Calls the tool with these words, over the files of a setup.
pub fn call_tool<R: Threads + Wait + Sync>(
    rt: &R,
    alloc: Global,
    setup: &Setup,
    words: &[String],
) -> Result<Answer, NoMemory> {
    call_over(rt, alloc, setup, &[], words, &NoOpGate::new())
}
