// From the bytes of a source to its accepted program, in its units or as its syntax tree.
ghost use Rattle.std.specs.Prelude.{◌≤◌, length};
ghost use Rattle.shim_front_end.specs.FrontEnd.{IsAnswerTo, IsProgramAnswerTo};

use crate::fault::SourceFault;
use shim_base::NoMemory;
use shim_parser::parse;
use shim_scopes::resolve;
use shim_sharing::{Accepted, ShareFault, accept};
use shim_syntax::Program;
use std::alloc::Global;

/// The units of a source's accepted program, or the source's first fault: of its text, then of its names, then
/// of how its variables are shared. The program keeps its text. `NoMemory` may come in place of any answer.
/// The syntax tree is gone before sharing is checked.
pub fn read_source(alloc: Global, bytes: &[u8]) -> Result<Accepted, SourceFault>
    requires { length bytes.now ≤ 1048576 }
    ensures { IsAnswerTo bytes.now result }
{
    let program = parse(alloc, bytes)?;
    let resolved = resolve(alloc, &program)?;
    drop(program);
    let accepted = accept(alloc, resolved)?;
    match accepted.with_text(alloc, bytes) {
        Ok(kept) => Ok(kept),
        Err(NoMemory) => Err(SourceFault::Share(ShareFault::NoMemory)),
    }
}

/// The syntax tree of a source's accepted program, or the source's first fault, which is that of
/// `read_source`. `NoMemory` may come in place of any answer.
pub fn read_program(alloc: Global, bytes: &[u8]) -> Result<Program, SourceFault>
    requires { length bytes.now ≤ 1048576 }
    ensures { IsProgramAnswerTo bytes.now result }
{
    let program = parse(alloc, bytes)?;
    let resolved = resolve(alloc, &program)?;
    let accepted = accept(alloc, resolved)?;
    drop(accepted);
    Ok(program)
}
