// The kinds of tokens, and of faults in a text.

/// What a token is. The definition of tokens says which bytes make which token.
#[derive(Clone, Copy, Debug, PartialEq, Eq)]
pub enum TokenKind {
    /// A name that is no keyword.
    Word,
    Key(Keyword),
    Number(i64),
    Sign(Sign),
}

/// The names that the language keeps for itself in both versions.
#[derive(Clone, Copy, Debug, PartialEq, Eq)]
pub enum Keyword {
    Void,
    Throws,
    Bool,
    Int,
    Int8,
    Int16,
    Int32,
    Uint8,
    Uint16,
    Uint32,
    Istream,
    Ostream,
    Next,
    Get,
    Put,
    If,
    Else,
    While,
    For,
    Try,
    Catch,
    Throw,
    Par,
    TrueKey,
    FalseKey,
}

/// Punctuation and operators, those of two bytes first.
#[derive(Clone, Copy, Debug, PartialEq, Eq)]
pub enum Sign {
    Shl,
    Shr,
    Le,
    Ge,
    EqEq,
    NotEq,
    AndAnd,
    OrOr,
    LeftParen,
    RightParen,
    LeftBrace,
    RightBrace,
    Comma,
    Semicolon,
    Equal,
    Amp,
    Caret,
    Bar,
    Plus,
    Minus,
    Star,
    Slash,
    Percent,
    Tilde,
    Bang,
    Less,
    Greater,
}

/// Why a text can't be cut into tokens from some byte on.
#[derive(Clone, Copy, Debug, PartialEq, Eq)]
pub enum LexKind {
    /// Nothing that may stand in a text begins with the byte.
    BadByte,
    /// A name has more than 64 bytes.
    LongName,
    /// A number is 2^63 or more.
    BigNumber,
    /// A `/*` is never closed.
    OpenComment,
}
