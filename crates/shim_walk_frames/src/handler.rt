// An exception place in force.
ghost use Rattle.std.specs.Prelude.{◌≡◌, IfOk};
ghost use Rattle.std.specs.Option.{option_copied};
ghost use Rattle.shim_walk_frames.specs.Unwinding.{name_and_line_of};

use shim_base::{List, NoMemory};
use shim_process::HandlerVariable;
use std::alloc::Global;

/// The exception, the name and the line of a `try`, the variable of its handler where it has one, and the
/// number of the `try` in its unit.
#[derive(Drop)]
pub struct Handler {
    pub exception: u32,
    pub name: u32,
    pub line: u32,
    pub at: u32,
    pub variable: Option<HandlerVariable>,
}

impl Handler {
    /// Another one of the same meaning.
    pub fn copy(&self) -> Result<Handler, NoMemory>
        ensures { IfOk result (λ copy. copy ≡ self.now) }
    {
        Ok(Handler {
            exception: self.exception,
            name: self.name,
            line: self.line,
            at: self.at,
            variable: copied_variable(&self.variable)?,
        })
    }
}

fn copied_variable(variable: &Option<HandlerVariable>) -> Result<Option<HandlerVariable>, NoMemory>
    ensures { IfOk result (λ copy. copy ≡ variable.now) }
{
    match variable {
        None => Ok(None),
        Some(variable) => Ok(Some(HandlerVariable {
            slot: variable.slot,
            channel: variable.channel.copy()?,
        })),
    }
}

/// Other handlers of the same meaning.
pub fn copied(alloc: Global, handlers: &[Handler]) -> Result<List<Handler>, NoMemory>
    ensures { IfOk result (λ copies. copies ≡ handlers.now) }
{
    let mut copies = List::with_capacity(alloc, handlers.len())?;
    for handler in handlers {
        copies.push(handler.copy()?)?;
    }
    Ok(copies)
}

/// The name and the line of the `try` of an exception place; 0 and 0 where there is none.
pub fn name_and_line(place: Option<&Handler>) -> (u32, u32)
    ensures { result ≡ name_and_line_of (option_copied place.entry) }
{
    match place {
        None => (0, 0),
        Some(handler) => (handler.name, handler.line),
    }
}
