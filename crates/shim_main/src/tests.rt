// The program over real files and over words that the system does not hand over.
ghost use Rattle.std.specs.Prelude.{◌<◌, ◌≤◌, length, ◌≡◌};

use crate::status;
use shim_base::{List, Name};
use shim_edge::{HostFiles, MemFiles, MemSink};
use shim_tool::{NoOpGate, shim};
use std::alloc::{AllocError, Global};
use std::io::{self, ErrorKind};
use std::test::Fail;
use std::{fs, str};

const PUTS_A: &str = "void main(ostream &o) { int x; x = 65; put o, x; }";

// A process that goes on for ever beside one that meets alone, three times.
const GOES_ON: &str =
    "void main() { int a; { while (1) { } } par { next a = 1; next a = 2; next a = 3; } }";

const USAGE: &str =
    "usage: shim MODE FILE [INPUT]... [--input FILE] [--workers N] [--budget B] [--quantum Q] [--size N] [--journal FILE] [--steal]\n";

fn strings(alloc: Global, texts: &[&str]) -> Result<Vec<String>, AllocError> {
    let mut all = Vec::new(alloc);
    for text in texts {
        all.push(String::from_str(alloc, text)?)?;
    }
    Ok(all)
}

// Files in memory that hold p.shim, and fail at the reads of these numbers.
fn files(alloc: Global, source: &[u8], failing: &[u64]) -> Result<MemFiles, Fail> {
    let mut held = List::new(alloc);
    let name = Name::new(alloc, b"p.shim")?;
    held.push((name, List::from_slice(alloc, source)?))?;
    Ok(MemFiles::new(alloc, held, List::from_slice(alloc, failing)?))
}

// A sink in memory with room, which takes so many bytes a write, and fails at those of these numbers.
fn sink(alloc: Global, most: usize, failing: &[u64]) -> Result<MemSink, Fail>
    requires { 1 ≤ most }
{
    let mut sink = MemSink::new(alloc, most, List::from_slice(alloc, failing)?);
    sink.room(1000)?;
    Ok(sink)
}

#[test]
fn a_folder_is_no_source(rt: HostRuntime) -> Result<(), Fail> {
    let alloc = rt.alloc();
    fs::create_dir(&rt, "folder.shim")?;
    let mut files = HostFiles::new(alloc, &rt);
    let mut out = sink(alloc, 1000, &[])?;
    let words = strings(alloc, &["shim", "run", "folder.shim"])?;
    assert_eq!(rt;
        shim(&rt, alloc, &words, &mut files, &mut out, &NoOpGate::new()),
        6
    );
    assert_eq!(rt; out.taken(), b"file failed folder.shim\n".as_slice());
    Ok(())
}

#[test]
fn words_that_could_not_be_had_ask_for_nothing(rt: HostRuntime) -> Result<(), Fail> {
    let alloc = rt.alloc();
    for (kind, wanted, text) in [
        (ErrorKind::InvalidData, 2, USAGE),
        (ErrorKind::OutOfMemory, 8, "no memory\n"),
    ] {
        let mut files = files(alloc, PUTS_A.as_bytes(), &[])?;
        let mut out = sink(alloc, 1000, &[])?;
        let words = Err(io::Error::from(kind));
        let got = status(&rt, alloc, words, &mut files, &mut out, &NoOpGate::new());
        assert_eq!(rt; got, wanted);
        assert_eq!(rt; out.taken(), text.as_bytes());
    }
    Ok(())
}

// The number after the last space of a line; 0 where there is none.
fn last_number(line: &str) -> u64 {
    match line.rsplit_once(' ') {
        Some((_, number)) => number.parse().unwrap_or(0),
        None => 0,
    }
}

// What the counts of steps and of other events in a report add up to.
fn counted(report: &str) -> u64 {
    let mut sum = 0u64;
    for line in report.lines() {
        if line.starts_with("steps ") || line.starts_with("events ") {
            sum = sum.saturating_add(last_number(line));
        }
    }
    sum
}

#[test]
fn a_stopped_run_did_the_steps_of_its_budget(rt: HostRuntime) -> Result<(), Fail> {
    let alloc = rt.alloc();
    for (workers, quantum) in [("1", "1"), ("1", "10000"), ("3", "7"), ("16", "64")] {
        let mut files = files(alloc, GOES_ON.as_bytes(), &[])?;
        let mut out = sink(alloc, 1000, &[])?;
        let words = strings(
            alloc,
            &[
                "shim",
                "run",
                "p.shim",
                "--budget",
                "1000",
                "--workers",
                workers,
                "--quantum",
                quantum,
            ],
        )?;
        let got = shim(&rt, alloc, &words, &mut files, &mut out, &NoOpGate::new());
        assert_eq!(rt; got, 4);
        let report = str::from_utf8(out.taken())?;
        assert_eq!(rt; counted(report), 1000);
        assert!(rt; report.ends_with("end spent 1000\n"));
    }
    Ok(())
}
