//! Runs the cases of the files in the working directory, or of those that its arguments name. A call is one of the
//! tool, over files and a sink in memory, or of a layer below it. Prints a line for each case, what differs in full,
//! and the counts.
#![tactic(auto)]

mod call;
mod case;
mod draft;
mod fault;
mod heading;
mod inside;
mod reader;
mod report;
mod watched;
mod words;

use report::Report;
use std::process::ExitCode;
use std::sync::Wait;
use std::thread::Threads;
use std::{env, fs, io};

// The names of all entries of the working directory, sorted; the system gives them in any order.
fn names_here(rt: &HostRuntime) -> io::Result<Vec<String>> {
    let mut names = Vec::new(rt.alloc());
    for entry in fs::read_dir(rt, ".")? {
        names.push(String::from_str(rt.alloc(), entry?.file_name())?)?;
    }
    names.sort()?;
    Ok(names)
}

fn names(rt: &HostRuntime) -> io::Result<Vec<String>> {
    let words: Vec<String> = env::args(rt)?.skip(1).collect(rt.alloc())?;
    if words.is_empty() {
        names_here(rt)
    } else {
        Ok(words)
    }
}

// Runs the cases of the files, which `host` reads. `rt` prints, and the calls have its threads.
fn report_all<R: Print + Threads + Wait + Sync>(host: &HostRuntime, rt: &R) -> io::Result<bool> {
    let names = names(host)?;
    let mut report = Report::new(host.alloc());
    for name in names.iter() {
        let text = fs::read_to_string(host, name.as_str());
        report.add_file(rt, name.as_str(), text)?;
    }
    report.end(rt)
}

fn main(rt: HostRuntime) -> ExitCode {
    match report_all(&rt, &rt) {
        Ok(true) => ExitCode::SUCCESS,
        _ => ExitCode::FAILURE,
    }
}
