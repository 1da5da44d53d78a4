// A whole source: its version, and then its functions.
ghost use Rattle.std.specs.Prelude.{[], ◌∷◌};
ghost use Rattle.shim_grammar.specs.Machine.{Fixed, Source, Version};
ghost use Rattle.shim_grammar.specs.declared.punctuation.Punctuation.TheVariants.{Semicolon};
ghost use Rattle.shim_parser.specs.Sources.{IsTwo, IsWholeSource};
ghost use Rattle.shim_parser.specs.ReaderViews.{Reads};

use crate::fault::ParseFault;
use crate::function::functions;
use crate::parts::punctuation;
use crate::reader::Reader;
use crate::version_two::{is_shim, is_two};
use shim_grammar::Punctuation;
use shim_syntax::Program;
use std::alloc::Global;

/// The number 2 and the semicolon, which follow the first word of a text of version 2.
fn version(tokens: &mut Reader) -> Result<(), ParseFault>
    ensures { Reads IsTwo (Version ∷ Fixed Semicolon ∷ []) result tokens.old tokens.new }
{
    if !is_two(tokens.peek().what) {
        return Err(tokens.unexpected());
    }
    tokens.advance();
    punctuation(tokens, Punctuation::Semicolon)
}

/// The program, up to the end of the text.
pub(crate) fn source(alloc: Global, tokens: &mut Reader) -> Result<Program, ParseFault>
    ensures { Reads IsWholeSource (Source ∷ []) result tokens.old tokens.new }
{
    if !is_shim(tokens.peek().what) {
        let functions = functions(alloc, tokens)?;
        return Ok(Program {
            version: 1,
            functions,
        });
    }
    tokens.advance();
    tokens.begin_version_2();
    version(tokens)?;
    let functions = functions(alloc, tokens)?;
    Ok(Program {
        version: 2,
        functions,
    })
}
