// What is printed of the cases, and their counts.
use crate::call::{Answer, call_tool};
use crate::case::Case;
use crate::fault::CaseFault;
use crate::inside::call_inside;
use crate::reader::Reader;
use crate::words::Asked;
use shim_base::NoMemory;
use std::alloc::Global;
use std::collections::BTreeSet;
use std::io::{self, ErrorKind};
use std::sync::Wait;
use std::thread::Threads;

/// The counts, and the titles of the cases that were read. The counts saturate.
#[derive(Drop)]
pub struct Report {
    alloc: Global,
    titles: BTreeSet<String>,
    passed: u64,
    failed: u64,
    reply: u64,
}

// A file of cases, by its name. One that ends in `.faults` shows what fails, and that is wanted there.
#[derive(Clone, Copy)]
struct CaseFile<'a> {
    name: &'a str,
    wants_faults: bool,
}

// How many calls of a case were made, and how many of them answered as told.
#[derive(Clone, Copy)]
struct Tally {
    made: u64,
    right: u64,
}

impl Tally {
    fn is_right(self) -> bool {
        self.made == self.right
    }

    fn with(self, is_right: bool) -> Tally {
        Tally {
            made: self.made.saturating_add(1),
            right: self.right.saturating_add(u64::from(is_right)),
        }
    }
}

// Ends the line that was begun with a status and a text's length, and prints the text as it is. If the text has
// bytes, but no line break at its end, that is told.
fn show_text(rt: &impl Print, status: u8, text: &[u8]) -> io::Result<()> {
    println!(rt; ": status {status}, {} bytes", text.len())?;
    rt.write_all(text)?;
    if text.is_empty() || text.ends_with(b"\n") {
        Ok(())
    } else {
        println!(rt; "\n--- (no line break at the end)")
    }
}

fn show_words(rt: &impl Print, words: &[String]) -> io::Result<()> {
    print!(rt; "---")?;
    for word in words {
        print!(rt; " {word}")?;
    }
    Ok(())
}

fn no_memory(_error: NoMemory) -> io::Error {
    io::Error::from(ErrorKind::OutOfMemory)
}

fn answer_to<R: Threads + Wait + Sync>(
    rt: &R,
    alloc: Global,
    case: &Case,
    asked: Asked,
    words: &[String],
) -> Result<Answer, NoMemory> {
    match asked {
        Asked::Tool => call_tool(rt, alloc, &case.setup, words),
        Asked::Inside => call_inside(rt, alloc, &case.setup, words),
    }
}

// Makes one call. An answer that differs is shown; before the first such answer of a case, what is wanted is shown.
fn run_call<R: Print + Threads + Wait + Sync>(
    rt: &R,
    alloc: Global,
    case: &Case,
    asked: Asked,
    words: &[String],
    tally: Tally,
) -> io::Result<Tally> {
    let answer = answer_to(rt, alloc, case, asked, words).map_err(no_memory)?;
    let is_right = answer.is_as_wanted(case);
    if !is_right {
        if tally.is_right() {
            print!(rt; "--- wanted of {}", case.title)?;
            show_text(rt, case.status, case.text.as_slice())?;
        }
        show_words(rt, words)?;
        show_text(rt, answer.status, answer.text.as_slice())?;
    }
    Ok(tally.with(is_right))
}

// Makes the calls of a case.
fn run_case<R: Print + Threads + Wait + Sync>(
    rt: &R,
    alloc: Global,
    case: &Case,
) -> io::Result<Tally> {
    let mut tally = Tally { made: 0, right: 0 };
    for line in case.lines.iter() {
        for number in 0..line.count() {
            let words = line.words(alloc, number).map_err(no_memory)?;
            tally = run_call(rt, alloc, case, line.asked, words.as_slice(), tally)?;
        }
    }
    Ok(tally)
}

impl Report {
    pub fn new(alloc: Global) -> Report {
        Report {
            alloc,
            titles: BTreeSet::new(alloc),
            passed: 0,
            failed: 0,
            reply: 0,
        }
    }

    fn count_failure(&mut self, file: CaseFile) {
        if file.wants_faults {
            self.reply = self.reply.saturating_add(1);
        } else {
            self.failed = self.failed.saturating_add(1);
        }
    }

    fn add_fault(
        &mut self,
        rt: &impl Print,
        file: CaseFile,
        number: usize,
        fault: CaseFault,
    ) -> io::Result<()> {
        self.count_failure(file);
        println!(rt; "FAULT {}:{number}: {fault}", file.name)
    }

    fn add_case<R: Print + Threads + Wait + Sync>(
        &mut self,
        rt: &R,
        file: CaseFile,
        case: &Case,
    ) -> io::Result<()> {
        let tally = run_case(rt, self.alloc, case)?;
        if tally.is_right() {
            self.passed = self.passed.saturating_add(1);
            println!(rt; "ok {} ({})", case.title, tally.made)
        } else {
            self.count_failure(file);
            println!(rt;
                "FAILED {} ({} of {} calls as told)",
                case.title, tally.right, tally.made
            )
        }
    }

    // Notes the title of a case, which no other one may have.
    fn add_title(&mut self, case: &Case) -> Result<(), CaseFault> {
        let title = String::from_str(self.alloc, case.title.as_str())?;
        if self.titles.insert(title)? {
            Ok(())
        } else {
            Err(CaseFault::SameTitle)
        }
    }

    // Reads a line, and gives the case that it ends.
    fn read_line(&mut self, reader: &mut Reader, line: &str) -> Result<Option<Case>, CaseFault> {
        let case = reader.read(line)?;
        if let Some(case) = &case {
            self.add_title(case)?;
        }
        Ok(case)
    }

    fn add_lines<R: Print + Threads + Wait + Sync>(
        &mut self,
        rt: &R,
        file: CaseFile,
        text: &str,
    ) -> io::Result<()> {
        let mut reader = Reader::new(self.alloc);
        let mut number = 0usize;
        let mut is_empty = true;
        for line in text.split_inclusive('\n') {
            number = number.saturating_add(1);
            match self.read_line(&mut reader, line) {
                Ok(None) => continue,
                Ok(Some(case)) => self.add_case(rt, file, &case)?,
                Err(fault) => self.add_fault(rt, file, number, fault)?,
            }
            is_empty = false;
        }
        if let Err(fault) = reader.end() {
            return self.add_fault(rt, file, number, fault);
        }
        if is_empty {
            return self.add_fault(rt, file, number, CaseFault::NoCase);
        }
        Ok(())
    }

    /// Runs the cases of a file, or says why it has none.
    pub fn add_file<R: Print + Threads + Wait + Sync>(
        &mut self,
        rt: &R,
        name: &str,
        text: io::Result<String>,
    ) -> io::Result<()> {
        let file = CaseFile {
            name,
            wants_faults: name.ends_with(".faults"),
        };
        if !file.wants_faults && !name.ends_with(".cases") {
            return self.add_fault(rt, file, 0, CaseFault::NotCases);
        }
        match text {
            Ok(text) => self.add_lines(rt, file, text.as_str()),
            Err(_) => self.add_fault(rt, file, 0, CaseFault::NotRead),
        }
    }

    /// Prints the counts, and says whether a case passed and nothing failed outside `.faults` files.
    pub fn end(self, rt: &impl Print) -> io::Result<bool> {
        println!(rt; "{} told in .faults files", self.reply)?;
        println!(rt; "{} passed, {} failed", self.passed, self.failed)?;
        Ok(self.failed == 0 && self.passed > 0)
    }
}
