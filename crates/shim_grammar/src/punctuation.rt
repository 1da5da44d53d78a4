// Terminals that stand at one fixed place of a production.

/// A sign or keyword whose place in a production no other terminal can take.
#[derive(Clone, Copy, Debug, PartialEq, Eq)]
pub enum Punctuation {
    LeftParen,
    RightParen,
    LeftBrace,
    Comma,
    Semicolon,
    Equal,
    /// The word `catch`.
    Catch,
}
