// Comments.
ghost use Rattle.std.specs.Prelude.{◌≡◌, ◌↔◌, IsTrue};
ghost use Rattle.shim_base.specs.Tokens.{Begins, block_opener, line_opener};
ghost use Rattle.shim_lexer.specs.Scanned.{FindsCloser, IsScanned};

use crate::bytes::line_len;
use crate::scanner::Scanned;
use shim_base::LexKind;

/// Whether the text begins with these bytes.
pub(crate) fn begins(text: &[u8], front: &[u8]) -> bool
    ensures { IsTrue result ↔ Begins text.now front.now }
{
    text.starts_with(front)
}

/// What stands at the front of a text that `//` begins: a comment, up to the next line feed or the end of the text.
pub(crate) fn line_comment(text: &[u8]) -> Scanned
    requires { Begins text.now line_opener }
    ensures { IsScanned text.now result }
{
    Scanned::Passed(line_len(text))
}

/// Where the first `*/` begins.
fn closer_at(text: &[u8]) -> Option<usize>
    ensures { FindsCloser text.now result }
{
    let mut at = 0;
    'bytes: while at + 1 < text.len() {
        if text[at] == b'*' && text[at + 1] == b'/' {
            return Some(at);
        }
        at += 1;
    }
    None
}

/// What stands at the front of a text that `/*` begins: a comment with the next `*/` as its end, or a fault if there
/// is none.
pub(crate) fn block_comment(text: &[u8]) -> Scanned
    requires { Begins text.now block_opener }
    ensures { IsScanned text.now result }
{
    let (_, inside) = text.split_at(2);
    match closer_at(inside) {
        Some(at) => Scanned::Passed(at + 4),
        None => Scanned::Fault(LexKind::OpenComment),
    }
}
