// With what a statement begins.
ghost use Rattle.std.specs.Prelude.{◌≡◌, false, MatchOption};
ghost use Rattle.shim_base.specs.Tokens.{Place};
ghost use Rattle.shim_parser.specs.TerminalView.{terminal_view};
ghost use Rattle.shim_parser.specs.OpeningView.{opening_view, opens};

use crate::terminal::Terminal;
use shim_base::{Keyword, Sign, Ty};
use shim_syntax::Sort;

#[derive(Clone, Copy)]
pub(crate) enum Opening<'a> {
    /// `;`
    Empty,
    /// `{`
    Block,
    Declaration(Ty),
    Name(&'a [u8]),
    Next,
    Put,
    If,
    While,
    For,
    Try,
    Throw,
}

/// With what a statement begins whose first terminal this is; `None` if no statement begins with the terminal.
pub(crate) fn opening_of<'a>(what: Terminal<'a>) -> Option<Opening<'a>>
    ensures { (p : Place) → MatchOption result (opens (terminal_view what.entry p) ≡ false) (λ o. terminal_view what.entry p ≡ opening_view o p) }
{
    match what {
        Terminal::Sign(Sign::Semicolon) => Some(Opening::Empty),
        Terminal::Sign(Sign::LeftBrace) => Some(Opening::Block),
        Terminal::Sort(Sort::Value(ty)) => Some(Opening::Declaration(ty)),
        Terminal::Name(text) => Some(Opening::Name(text)),
        Terminal::Key(Keyword::Next) => Some(Opening::Next),
        Terminal::Key(Keyword::Put) => Some(Opening::Put),
        Terminal::Key(Keyword::If) => Some(Opening::If),
        Terminal::Key(Keyword::While) => Some(Opening::While),
        Terminal::Key(Keyword::For) => Some(Opening::For),
        Terminal::Key(Keyword::Try) => Some(Opening::Try),
        Terminal::Key(Keyword::Throw) => Some(Opening::Throw),
        _ => None,
    }
}
