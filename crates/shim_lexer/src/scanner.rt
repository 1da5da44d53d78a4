// What stands at the front of a text.
ghost use Rattle.shim_lexer.specs.Scanned.{IsScanned};

use crate::bytes::{is_digit, is_letter, is_spacing};
use crate::comment::{begins, block_comment, line_comment};
use crate::number::number;
use crate::word::{name, sign};
use shim_base::{LexKind, TokenKind};

/// What is at the front of a text, with the number of its bytes.
#[derive(Clone, Copy)]
pub(crate) enum Scanned {
    /// No byte is left.
    End,
    /// Spacing or a comment.
    Passed(usize),
    Token(TokenKind, usize),
    Fault(LexKind),
}

pub(crate) fn scan(text: &[u8]) -> Scanned
    ensures { IsScanned text.now result }
{
    let [first, ..] = text else {
        return Scanned::End;
    };
    if is_spacing(*first) {
        return Scanned::Passed(1);
    }
    if begins(text, b"//") {
        return line_comment(text);
    }
    if begins(text, b"/*") {
        return block_comment(text);
    }
    if is_letter(*first) {
        return name(text);
    }
    if is_digit(*first) {
        return number(text);
    }
    sign(text)
}
