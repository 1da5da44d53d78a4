// Reads cases from lines.
use crate::case::Case;
use crate::draft::CaseDraft;
use crate::fault::CaseFault;
use crate::heading::{Heading, heading_of};
use std::alloc::Global;
use std::mem;

#[derive(Drop)]
enum State {
    Outside,
    // After a fault, up to the end of the case or the beginning of the next one.
    Skipping,
    Inside(CaseDraft),
}

/// Reads lines one after another. After a fault it goes on at the next case.
#[derive(Drop)]
pub struct Reader {
    alloc: Global,
    state: State,
}

impl Reader {
    pub fn new(alloc: Global) -> Reader {
        Reader {
            alloc,
            state: State::Outside,
        }
    }

    fn begin(&mut self, title: &str) -> Result<(), CaseFault> {
        self.state = State::Inside(CaseDraft::new(self.alloc, title)?);
        Ok(())
    }

    fn read_outside(&mut self, line: &str) -> Result<(), CaseFault> {
        match heading_of(line)? {
            Some(Heading::Case(title)) => self.begin(title),
            None if line.starts_with('#') || line.trim_start().is_empty() => {
                self.state = State::Outside;
                Ok(())
            }
            _ => Err(CaseFault::OutsideCase),
        }
    }

    fn read_skipped(&mut self, line: &str) -> Result<(), CaseFault> {
        match heading_of(line) {
            Ok(Some(Heading::Case(title))) => self.begin(title),
            Ok(Some(Heading::End)) => {
                self.state = State::Outside;
                Ok(())
            }
            _ => Ok(()),
        }
    }

    fn read_inside(&mut self, mut draft: CaseDraft, line: &str) -> Result<Option<Case>, CaseFault> {
        match heading_of(line)? {
            None => draft.add_line(line)?,
            Some(Heading::Case(title)) => {
                self.begin(title)?;
                return Err(CaseFault::Unended);
            }
            Some(Heading::End) => {
                self.state = State::Outside;
                return Ok(Some(draft.finish()?));
            }
            Some(heading) => draft.add_heading(heading)?,
        }
        self.state = State::Inside(draft);
        Ok(None)
    }

    /// Reads a line, with its line break. Gives the case that it ends.
    pub fn read(&mut self, line: &str) -> Result<Option<Case>, CaseFault> {
        match mem::replace(&mut self.state, State::Skipping) {
            State::Outside => self.read_outside(line)?,
            State::Skipping => self.read_skipped(line)?,
            State::Inside(draft) => return self.read_inside(draft, line),
        }
        Ok(None)
    }

    /// Reads the end of the lines.
    pub fn end(&self) -> Result<(), CaseFault> {
        match self.state {
            State::Inside(_) => Err(CaseFault::Unended),
            _ => Ok(()),
        }
    }
}
