// The smallest parts of a program.
ghost use Rattle.std.specs.Prelude.{◌≡◌, [], ◌∷◌, Some, ◌↔◌, IsTrue, IfOk};
ghost use Rattle.shim_grammar.specs.Machine.{Fixed, Word};
ghost use Rattle.shim_base.specs.Tokens.{Place};
ghost use Rattle.shim_parser.specs.TerminalView.{terminal_view};
ghost use Rattle.shim_parser.specs.Parts as parts;
ghost use Rattle.shim_parser.specs.Parts.{IsPunctuation, IsName, IsNameBefore};
ghost use Rattle.shim_parser.specs.ReaderViews.{Reads};

use crate::fault::ParseFault;
use crate::reader::Reader;
use crate::terminal::Terminal;
use shim_base::{Keyword, List, Name, NoMemory, Sign};
use shim_grammar::Punctuation;
use std::alloc::Global;

/// The punctuation that a terminal is.
fn punctuation_of(what: Terminal) -> Option<Punctuation>
    ensures { (p : Place) → result ≡ parts.punctuation_of (terminal_view what.entry p) }
{
    match what {
        Terminal::Sign(Sign::LeftParen) => Some(Punctuation::LeftParen),
        Terminal::Sign(Sign::RightParen) => Some(Punctuation::RightParen),
        Terminal::Sign(Sign::LeftBrace) => Some(Punctuation::LeftBrace),
        Terminal::Sign(Sign::Comma) => Some(Punctuation::Comma),
        Terminal::Sign(Sign::Semicolon) => Some(Punctuation::Semicolon),
        Terminal::Sign(Sign::Equal) => Some(Punctuation::Equal),
        Terminal::Key(Keyword::Catch) => Some(Punctuation::Catch),
        _ => None,
    }
}

/// Whether a terminal is this punctuation.
fn is_punctuation(what: Terminal, punctuation: Punctuation) -> bool
    ensures { (p : Place) → IsTrue result ↔ (parts.punctuation_of (terminal_view what.entry p) ≡ Some punctuation) }
{
    punctuation_of(what) == Some(punctuation)
}

/// Takes the next terminal, or gives a fault if it isn't this punctuation.
pub(crate) fn punctuation(tokens: &mut Reader, punctuation: Punctuation) -> Result<(), ParseFault>
    ensures { Reads (IsPunctuation punctuation) (Fixed punctuation ∷ []) result tokens.old tokens.new }
{
    if !is_punctuation(tokens.peek().what, punctuation) {
        return Err(tokens.unexpected());
    }
    tokens.advance();
    Ok(())
}

pub(crate) fn name(alloc: Global, tokens: &mut Reader) -> Result<Name, ParseFault>
    ensures { Reads IsName (Word ∷ []) result tokens.old tokens.new }
{
    match tokens.peek().what {
        Terminal::Name(text) => {
            tokens.advance();
            Ok(Name::new(alloc, text)?)
        }
        _ => Err(tokens.unexpected()),
    }
}

/// A name, and the punctuation that must come after it.
pub(crate) fn name_before(
    alloc: Global,
    tokens: &mut Reader,
    behind: Punctuation,
) -> Result<Name, ParseFault>
    ensures { Reads (IsNameBefore behind) (Word ∷ Fixed behind ∷ []) result tokens.old tokens.new }
{
    let name = name(alloc, tokens)?;
    punctuation(tokens, behind)?;
    Ok(name)
}

/// A list of one value.
pub(crate) fn alone<T: Drop>(alloc: Global, value: T) -> Result<List<T>, NoMemory>
    ensures { IfOk result (λ list. list ≡ value ∷ []) }
{
    let mut list = List::new(alloc);
    list.push(value)?;
    Ok(list)
}
