// A whole text.
ghost use Rattle.std.specs.Prelude.{◌≤◌, length};
ghost use Rattle.shim_parser.specs.Parsing.{ParsesAs, IsOnly};

use crate::fault::ParseFault;
use crate::reader::Reader;
use crate::source::source;
use crate::text::tokens_of;
use shim_syntax::Program;
use std::alloc::Global;

/// The program that a text of at most 1,048,576 bytes is of. Of a text of no program `parse` answers the cause
/// with the place of the first token that shows it. `TooDeep` and `TooMany` have the line of the token alone.
/// Of several causes at one token the first in the order of `ParseFault` counts. `NoMemory` may come in place
/// of any answer.
pub fn parse(alloc: Global, text: &[u8]) -> Result<Program, ParseFault>
    requires { length text.now ≤ 1048576 }
    ensures answers { ParsesAs text.now result }
    ensures only { IsOnly text.now result }
{
    let all = tokens_of(alloc, text)?;
    let mut tokens = Reader::new(&all);
    match source(alloc, &mut tokens) {
        Ok(program) => Ok(program),
        Err(fault) => {
            tokens.some_left(); // for the proof: its clause says that a token is left
            Err(fault)
        }
    }
}
