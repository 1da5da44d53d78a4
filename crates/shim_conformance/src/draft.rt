// The case that is being read.
ghost use Rattle.std.specs.Prelude.{◌≤◌, ◌<◌, length};

use crate::case::Case;
use crate::fault::CaseFault;
use crate::heading::{Heading, TextForm};
use crate::words::{Asked, CallLine};
use shim_base::{List, Name};
use shim_tests_layers::{Edges, HeldFile, Setup};
use std::alloc::Global;
use std::mem;

// The most bytes that one `repeat` heading writes: more than an input may have, so a case can have longer ones.
const MOST_BYTES: usize = 1 << 25;

// What the lines belong to.
#[derive(Drop)]
enum Part {
    Nothing,
    File(Name, TextForm),
    Text(TextForm),
}

/// What was read of a case.
#[derive(Drop)]
pub struct CaseDraft {
    alloc: Global,
    title: String,
    lines: Vec<CallLine>,
    setup: Setup,
    status: Option<u8>,
    text: Option<Vec<u8>>,
    part: Part,
    content: String,
}

fn name_of(alloc: Global, text: &str) -> Result<Name, CaseFault> {
    let bytes = text.as_bytes();
    if bytes.is_empty() || bytes.len() > 64 || text.contains(' ') {
        return Err(CaseFault::BadName);
    }
    Ok(Name::new(alloc, bytes)?)
}

// The bytes of pairs of hex digits with white space between them; anything else is a fault.
fn from_hex(alloc: Global, text: &str) -> Result<Vec<u8>, CaseFault> {
    let mut bytes = Vec::new(alloc);
    for pair in text.split_ascii_whitespace() {
        match u8::from_str_radix(pair, 16) {
            Ok(byte) if pair.len() == 2 && !pair.starts_with('+') => bytes.push(byte)?,
            _ => return Err(CaseFault::BadHex),
        }
    }
    Ok(bytes)
}

fn bytes_of(alloc: Global, form: TextForm, text: &str) -> Result<Vec<u8>, CaseFault> {
    let text = match form {
        TextForm::Whole => text,
        TextForm::Bare => text.strip_suffix('\n').unwrap_or(text),
        TextForm::Hex => return from_hex(alloc, text),
    };
    Ok(Vec::from_slice(alloc, text.as_bytes())?)
}

fn numbers_of(alloc: Global, text: &str) -> Result<List<u64>, CaseFault> {
    let mut numbers = List::new(alloc);
    for word in text.split(' ') {
        let number = word.parse::<u64>().map_err(|_| CaseFault::BadNumber)?;
        numbers.push(number)?;
    }
    Ok(numbers)
}

// The count and the text of a `repeat` heading; a fault where they make more than `MOST_BYTES` together.
fn repeat_of(text: &str) -> Result<(usize, &str), CaseFault> {
    let Some((count, part)) = text.split_once(' ') else {
        return Err(CaseFault::BadRepeat);
    };
    let Ok(count) = count.parse::<usize>() else {
        return Err(CaseFault::BadRepeat);
    };
    if count.saturating_mul(part.len()) > MOST_BYTES {
        return Err(CaseFault::BadRepeat);
    }
    Ok((count, part))
}

impl CaseDraft {
    pub fn new(alloc: Global, title: &str) -> Result<CaseDraft, CaseFault> {
        if title.is_empty() {
            return Err(CaseFault::Unnamed);
        }
        Ok(CaseDraft {
            alloc,
            title: String::from_str(alloc, title)?,
            lines: Vec::new(alloc),
            setup: Setup {
                files: Vec::new(alloc),
                edges: Edges {
                    failing_reads: List::new(alloc),
                    failing_writes: List::new(alloc),
                    most: usize::MAX,
                },
            },
            status: None,
            text: None,
            part: Part::Nothing,
            content: String::new(alloc),
        })
    }

    /// Adds a line that is no heading.
    pub fn add_line(&mut self, line: &str) -> Result<(), CaseFault> {
        if !matches!(self.part, Part::Nothing) {
            self.content.push_str(line)?;
        } else if !line.trim_start().is_empty() {
            return Err(CaseFault::BelongsToNothing);
        }
        Ok(())
    }

    // Adds a line in which a text stands again and again.
    fn add_repeated(&mut self, text: &str) -> Result<(), CaseFault> {
        if matches!(self.part, Part::Nothing) {
            return Err(CaseFault::BadRepeat);
        }
        let (count, part) = repeat_of(text)?;
        for _ in 0..count {
            self.content.push_str(part)?;
        }
        self.content.push('\n')?;
        Ok(())
    }

    // Ends the part whose lines were read.
    fn close_part(&mut self) -> Result<(), CaseFault> {
        let content = mem::replace(&mut self.content, String::new(self.alloc));
        match mem::replace(&mut self.part, Part::Nothing) {
            Part::Nothing => {}
            Part::File(name, form) => {
                let content = bytes_of(self.alloc, form, content.as_str())?;
                self.setup.files.push(HeldFile { name, content })?;
            }
            Part::Text(form) => {
                self.text = Some(bytes_of(self.alloc, form, content.as_str())?);
            }
        }
        Ok(())
    }

    fn open_file(&mut self, name: &str, form: TextForm) -> Result<(), CaseFault> {
        let name = name_of(self.alloc, name)?;
        if self
            .setup
            .files
            .iter()
            .any(|file| file.name.as_bytes() == name.as_bytes())
        {
            return Err(CaseFault::Repeated);
        }
        self.part = Part::File(name, form);
        Ok(())
    }

    fn open_text(&mut self, form: TextForm) -> Result<(), CaseFault> {
        if self.text.is_some() {
            return Err(CaseFault::Repeated);
        }
        self.part = Part::Text(form);
        Ok(())
    }

    fn add_words(&mut self, asked: Asked, words: &str) -> Result<(), CaseFault> {
        self.lines.push(CallLine::new(self.alloc, asked, words)?)?;
        Ok(())
    }

    fn add_status(&mut self, number: &str) -> Result<(), CaseFault> {
        if self.status.is_some() {
            return Err(CaseFault::Repeated);
        }
        let status = number.parse::<u8>().map_err(|_| CaseFault::BadNumber)?;
        self.status = Some(status);
        Ok(())
    }

    fn set_most(&mut self, number: &str) -> Result<(), CaseFault> {
        match number.parse::<usize>() {
            Ok(most) if most > 0 => {
                self.setup.edges.most = most;
                Ok(())
            }
            _ => Err(CaseFault::BadNumber),
        }
    }

    /// Adds what a heading says, other than the first and the last one of a case.
    pub fn add_heading(&mut self, heading: Heading) -> Result<(), CaseFault> {
        if let Heading::Repeat(text) = heading {
            return self.add_repeated(text);
        }
        self.close_part()?;
        match heading {
            Heading::Words(words) => self.add_words(Asked::Tool, words),
            Heading::Inside(words) => self.add_words(Asked::Inside, words),
            Heading::File(name, form) => self.open_file(name, form),
            Heading::FailingReads(numbers) => {
                self.setup.edges.failing_reads = numbers_of(self.alloc, numbers)?;
                Ok(())
            }
            Heading::FailingWrites(numbers) => {
                self.setup.edges.failing_writes = numbers_of(self.alloc, numbers)?;
                Ok(())
            }
            Heading::Most(number) => self.set_most(number),
            Heading::Status(number) => self.add_status(number),
            Heading::Text(form) => self.open_text(form),
            Heading::Case(_) | Heading::Repeat(_) | Heading::End => Err(CaseFault::Unknown),
        }
    }

    /// The case that was read, if nothing is missing.
    pub fn finish(mut self) -> Result<Case, CaseFault> {
        self.close_part()?;
        let CaseDraft {
            title,
            lines,
            setup,
            status,
            text,
            ..
        } = self;
        if lines.is_empty() {
            return Err(CaseFault::NoWords);
        }
        Ok(Case {
            title,
            lines,
            setup,
            status: status.ok_or(CaseFault::NoStatus)?,
            text: text.ok_or(CaseFault::NoText)?,
        })
    }
}
