//! The examples, each run and checked by the tool over real files; the gate compares what this prints.
#![tactic(auto)]

use shim_base::{List, NoMemory};
use shim_edge::{HostFiles, HostSink, MemSink, Sink};
use shim_tool::{NoOpGate, shim};
use std::alloc::Global;
use std::sync::Wait;
use std::thread::Threads;
use std::{env, io, rt};

const WORKERS: [&str; 5] = ["1", "2", "3", "4", "16"];

const QUANTA: [&str; 4] = ["1", "7", "64", "10000"];

// The most bytes that an example writes.
const ROOM: usize = 1 << 16;

// What the tool wrote, and its status.
#[derive(Drop)]
struct Answer {
    status: u8,
    sink: MemSink,
}

impl Answer {
    fn is_like(&self, other: &Answer) -> bool {
        self.status == other.status && self.sink.taken() == other.sink.taken()
    }
}

fn push_word(words: &mut Vec<String>, word: &str) -> Result<(), NoMemory> {
    let alloc = *words.allocator();
    words.push(String::from_str(alloc, word)?)?;
    Ok(())
}

// The program's own name, this mode, and the words of `rest`: an example, and perhaps `--input` with a name.
fn words(alloc: Global, mode: &str, rest: &str) -> Result<Vec<String>, NoMemory> {
    let mut words = Vec::new(alloc);
    push_word(&mut words, "shim")?;
    push_word(&mut words, mode)?;
    for word in rest.split(' ') {
        push_word(&mut words, word)?;
    }
    Ok(words)
}

fn call<R: rt::Files + Threads + Wait + Sync>(
    rt: &R,
    alloc: Global,
    words: &[String],
) -> Result<Answer, NoMemory> {
    let mut files = HostFiles::new(alloc, rt);
    let mut sink = MemSink::new(alloc, ROOM, List::new(alloc));
    sink.room(ROOM)?;
    let status = shim(rt, alloc, words, &mut files, &mut sink, &NoOpGate::new());
    Ok(Answer { status, sink })
}

fn run_with<R: rt::Files + Threads + Wait + Sync>(
    rt: &R,
    alloc: Global,
    rest: &str,
    workers: &str,
    quantum: &str,
) -> Result<Answer, NoMemory> {
    let mut words = words(alloc, "run", rest)?;
    for word in ["--workers", workers, "--quantum", quantum] {
        push_word(&mut words, word)?;
    }
    call(rt, alloc, &words)
}

// How many runs, one for each number of workers and each quantum, answer as `ref` does.
fn count_alike<R: rt::Files + Threads + Wait + Sync>(
    rt: &R,
    alloc: Global,
    rest: &str,
) -> Result<u64, NoMemory> {
    let meant = call(rt, alloc, &words(alloc, "ref", rest)?)?;
    let mut alike = 0u64;
    for workers in WORKERS {
        for quantum in QUANTA {
            let run = run_with(rt, alloc, rest, workers, quantum)?;
            if run.is_like(&meant) {
                alike = alike.saturating_add(1);
            }
        }
    }
    Ok(alike)
}

// Prints what the tool writes for these words, and the status.
fn show<R: rt::Files + Print + Threads + Wait + Sync>(
    rt: &R,
    alloc: Global,
    words: &[String],
) -> io::Result<()> {
    let mut files = HostFiles::new(alloc, rt);
    let mut out = HostSink::new(rt);
    let status = shim(rt, alloc, words, &mut files, &mut out, &NoOpGate::new());
    println!(rt; "status {status}")
}

fn show_line<R: rt::Files + Print + Threads + Wait + Sync>(
    rt: &R,
    alloc: Global,
    line: &str,
) -> io::Result<()> {
    println!(rt; "{line}")?;
    let Some((mode, rest)) = line.split_once(' ') else {
        return Ok(());
    };
    match words(alloc, mode, rest) {
        Ok(words) => show(rt, alloc, &words)?,
        Err(NoMemory) => return println!(rt; "no memory"),
    }
    if mode != "run" {
        return Ok(());
    }
    match count_alike(rt, alloc, rest) {
        Ok(alike) => println!(rt; "{alike} of 20 other workers and quanta answer as ref does"),
        Err(NoMemory) => println!(rt; "no memory"),
    }
}

fn main(rt: HostRuntime) -> io::Result<()> {
    for line in env::args(&rt)?.skip(1) {
        show_line(&rt, rt.alloc(), line.as_str())?;
    }
    Ok(())
}
