//! The program: the tool over real files and standard output.
#![tactic(auto)]

ghost use Rattle.std.specs.Prelude.{MatchResult};
ghost use Rattle.std.specs.IoError.{error_kind};
ghost use Rattle.shim_main.specs.Ended.{EndsWithoutWords, EndsWithWords};
ghost use Rattle.shim_tool.specs.Moments.{files_at, sink_at};

use shim_edge::{Files, HostFiles, HostSink, Sink};
use shim_tool::{Gate, NoOpGate, shim, write_no_memory};
use std::alloc::Global;
use std::env;
use std::io::{self, ErrorKind};
use std::process::ExitCode;
use std::sync::Wait;
use std::thread::Threads;

#[cfg(test)]
mod tests;

// Ends where the system handed over no words, and gave this kind of error. Words that are no text ask for
// nothing.
fn status_without_words<F: Files, K: Sink, G: Gate, R: Threads + Wait + Sync>(
    rt: &R,
    alloc: Global,
    kind: ErrorKind,
    files: &mut F,
    out: &mut K,
    gate: &G,
) -> u8
    ensures { EndsWithoutWords kind (files_at F.held F.sound F.failed files.old) (files_at F.held F.sound F.failed files.new)
        (sink_at K.taken K.faults out.old) (sink_at K.taken K.faults out.new) result }
{
    match kind == ErrorKind::OutOfMemory {
        true => write_no_memory(out),
        false => shim(rt, alloc, &[], files, out, gate),
    }
}

// Ends with the status of the words, where they could be had.
fn status<F: Files, K: Sink, G: Gate, R: Threads + Wait + Sync>(
    rt: &R,
    alloc: Global,
    words: io::Result<Vec<String>>,
    files: &mut F,
    out: &mut K,
    gate: &G,
) -> u8
    ensures { MatchResult words
        (λ found. EndsWithWords found.items (files_at F.held F.sound F.failed files.old) (files_at F.held F.sound F.failed files.new)
        (sink_at K.taken K.faults out.old) (sink_at K.taken K.faults out.new) result)
        (λ e. EndsWithoutWords (error_kind e) (files_at F.held F.sound F.failed files.old) (files_at F.held F.sound F.failed files.new)
        (sink_at K.taken K.faults out.old) (sink_at K.taken K.faults out.new) result) }
{
    match words {
        Ok(words) => shim(rt, alloc, &words, files, out, gate),
        Err(error) => status_without_words(rt, alloc, error.kind(), files, out, gate),
    }
}

fn words(rt: &HostRuntime) -> io::Result<Vec<String>> {
    Ok(env::args(rt)?.collect(rt.alloc())?)
}

fn main(rt: HostRuntime) -> ExitCode {
    let mut files = HostFiles::new(rt.alloc(), &rt);
    let mut out = HostSink::new(&rt);
    let gate = NoOpGate::new();
    ExitCode::from(status(&rt, rt.alloc(), words(&rt), &mut files, &mut out, &gate))
}
