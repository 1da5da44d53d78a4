//! The lexer: a text, cut into its tokens one by one.
#![tactic(auto)]

mod bytes;
mod comment;
pub mod laws;
mod lexer;
mod number;
mod scanner;
mod token;
mod word;

pub use bytes::line_feeds;
pub use lexer::Lexer;
pub use shim_base::{Keyword, LexKind, Sign, TokenKind};
pub use token::{LexFault, Token};
