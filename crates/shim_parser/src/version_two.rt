// What the terminals of a text of version 2 have of their own.
ghost use Rattle.std.specs.Prelude.{◌≡◌, true, map};
ghost use Rattle.shim_base.specs.Tokens.{Place};
ghost use Rattle.shim_syntax.specs.Terminals as terminals;
ghost use Rattle.shim_syntax.specs.Terminals.{of_version};
ghost use Rattle.shim_parser.specs.TerminalView.{terminal_view};
ghost use Rattle.shim_parser.specs.TokenView.{token_view, token_views};

use crate::terminal::Terminal;
use crate::token::Token;
use shim_base::{Sign, Ty};
use shim_syntax::Sort;

/// Whether a terminal is the word with which a text of version 2 begins.
pub(crate) fn is_shim(what: Terminal) -> bool
    ensures { (p : Place) → result ≡ terminals.is_shim (terminal_view what.entry p) }
{
    match what {
        Terminal::Name(b"shim") => true,
        _ => false,
    }
}

/// Whether a terminal is the number of version 2, however it is written.
pub(crate) fn is_two(what: Terminal) -> bool
    ensures { (p : Place) → result ≡ terminals.is_two (terminal_view what.entry p) }
{
    match what {
        Terminal::Number(n) => n == 2,
        _ => false,
    }
}

fn is_semicolon(what: Terminal) -> bool
    ensures { (p : Place) → result ≡ terminals.is_semicolon (terminal_view what.entry p) }
{
    match what {
        Terminal::Sign(Sign::Semicolon) => true,
        _ => false,
    }
}

/// Whether these are the terminals of a text of version 2.
pub(crate) fn begins_two(tokens: &[Token<'_>]) -> bool
    ensures { result ≡ terminals.begins_two (token_views tokens.now) }
{
    if tokens.len() < 3 {
        return false;
    }
    is_shim(tokens[0].what) && is_two(tokens[1].what) && is_semicolon(tokens[2].what)
}

// Sees a terminal as version 2 does.
fn see_type(token: &mut Token<'_>)
    ensures { token_view token.new ≡ of_version true (token_view token.old) }
{
    if let Terminal::Name(b"int64") = token.what {
        token.what = Terminal::Sort(Sort::Value(Ty::Int64));
    }
}

/// Changes each terminal to what version 2 sees: `int64` is a type in it, and no name.
pub(crate) fn see_types(tokens: &mut [Token<'_>])
    ensures { token_views tokens.new ≡ map (of_version true) (token_views tokens.old) }
{
    for at in 0..tokens.len() {
        see_type(&mut tokens[at]);
    }
}
