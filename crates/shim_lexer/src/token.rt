// A token and a fault, where they stand in a text.
use shim_base::{LexKind, TokenKind};

/// A token: its bytes are those of the text from `at` up to `past`.
#[derive(Clone, Copy, Debug, PartialEq, Eq)]
pub struct Token {
    pub kind: TokenKind,
    /// The place of its first byte, counted from 0.
    pub at: usize,
    /// The place after its last byte.
    pub past: usize,
    /// The line on which it stands, counted from 1.
    pub line: u32,
}

/// Why no token can be taken, and where.
#[derive(Clone, Copy, Debug, PartialEq, Eq)]
pub struct LexFault {
    /// The place of the byte at which the fault begins, counted from 0.
    pub at: usize,
    /// The line of this byte, counted from 1.
    pub line: u32,
    pub kind: LexKind,
}
