// What the grammar sees of a token.
ghost use Rattle.std.specs.Prelude.{◌≡◌};
ghost use Rattle.shim_base.specs.Tokens.{Place};
ghost use Rattle.shim_syntax.specs.Terminals.{of_kind, of_keyword};
ghost use Rattle.shim_parser.specs.TerminalView.{terminal_view};

use shim_base::{Keyword, LexKind, Sign, TokenKind, Ty};
use shim_syntax::Sort;

#[derive(Clone, Copy)]
pub(crate) enum Terminal<'a> {
    Name(&'a [u8]),
    /// A number, `true` or `false`.
    Number(i64),
    /// The word of a type or of a stream.
    Sort(Sort),
    Key(Keyword),
    Sign(Sign),
    /// The end of the text.
    End,
    /// Where the text can't be cut any further.
    Broken(LexKind),
}

fn terminal_of_keyword<'a>(key: Keyword) -> Terminal<'a>
    ensures { (p : Place) → terminal_view result p ≡ of_keyword key p }
{
    match key {
        Keyword::TrueKey => Terminal::Number(1),
        Keyword::FalseKey => Terminal::Number(0),
        Keyword::Bool => Terminal::Sort(Sort::Value(Ty::Bool)),
        Keyword::Int | Keyword::Int32 => Terminal::Sort(Sort::Value(Ty::Int32)),
        Keyword::Int8 => Terminal::Sort(Sort::Value(Ty::Int8)),
        Keyword::Int16 => Terminal::Sort(Sort::Value(Ty::Int16)),
        Keyword::Uint8 => Terminal::Sort(Sort::Value(Ty::Uint8)),
        Keyword::Uint16 => Terminal::Sort(Sort::Value(Ty::Uint16)),
        Keyword::Uint32 => Terminal::Sort(Sort::Value(Ty::Uint32)),
        Keyword::Istream => Terminal::Sort(Sort::Input),
        Keyword::Ostream => Terminal::Sort(Sort::Output),
        other => Terminal::Key(other),
    }
}

/// The terminal that a token of this kind is, with these bytes.
pub(crate) fn terminal_of<'a>(kind: TokenKind, text: &'a [u8]) -> Terminal<'a>
    ensures { (p : Place) → terminal_view result p ≡ of_kind kind text.now p }
{
    match kind {
        TokenKind::Word => Terminal::Name(text),
        TokenKind::Key(key) => terminal_of_keyword(key),
        TokenKind::Number(n) => Terminal::Number(n),
        TokenKind::Sign(sign) => Terminal::Sign(sign),
    }
}
