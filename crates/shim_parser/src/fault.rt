// Why a text is no program.
ghost use Rattle.std.specs.Prelude.{◌≡◌};
ghost use Rattle.shim_parser.specs.declared.fault.ParseFault.TheVariants as v;

use shim_lexer::LexFault;
use shim_syntax::Many;
use std::alloc::{AllocError, AllocFailed};

/// Why a text is no program. Of several faults it is the one that shows first, read from the left. `line`
/// is 1 for the first line, `at` is how many bytes stand before the place.
#[derive(Clone, Copy, Debug, PartialEq, Eq)]
pub enum ParseFault {
    /// The bytes there make no token.
    Lex(LexFault),
    /// No program begins with the tokens before this one and then this one. If the text ends too early, the
    /// place is the end of the text.
    Unexpected { at: usize, line: u32 },
    /// Statements, parentheses and operands stand in each other more than `MOST_NESTING` deep.
    TooDeep { line: u32 },
    /// The part of the text that this limit is for has more of these than `what.most()`.
    TooMany { what: Many, line: u32 },
    /// No memory was found, which says nothing of the text.
    NoMemory,
}

impl From<shim_base::NoMemory> for ParseFault {
    ghost from_gives = { λ _ e. e ≡ v.NoMemory };

    fn from(_error: shim_base::NoMemory) -> ParseFault {
        ParseFault::NoMemory
    }
}

impl From<AllocError> for ParseFault {
    ghost from_gives = { λ _ e. e ≡ v.NoMemory };

    fn from(_error: AllocError) -> ParseFault {
        ParseFault::NoMemory
    }
}

impl<T: Drop> From<AllocFailed<T>> for ParseFault {
    ghost from_gives = { λ _ e. e ≡ v.NoMemory };

    fn from(_error: AllocFailed<T>) -> ParseFault {
        ParseFault::NoMemory
    }
}
