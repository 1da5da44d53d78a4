//! The parser: a text, read as the program that the grammar gives it, or refused with its first fault.
#![tactic(auto)]

mod call;
mod declare;
mod exceptions;
mod expr;
mod fault;
mod for_parts;
mod function;
mod header;
pub mod laws;
mod name_value;
mod opening;
mod operator;
mod parser;
mod parts;
mod plain;
mod reader;
mod source;
mod stmt;
mod terminal;
mod text;
mod token;
mod version_two;

pub use fault::ParseFault;
pub use parser::parse;
pub use shim_lexer::{LexFault, LexKind};
pub use shim_syntax::Many;
