//! The values that the other crates share: lists, boxes, paths, channels, names, types, operators, kinds of tokens,
//! out of memory, and numbers as text.
#![tactic(auto)]

mod boxed;
mod chan;
mod decimal;
pub mod laws;
mod list;
mod memory;
mod name;
mod named;
mod operators;
mod path;
mod path_texts;
mod shared;
mod token;
mod types;

pub use boxed::Boxed;
pub use chan::Chan;
pub use decimal::push_decimal;
pub use list::List;
pub use memory::NoMemory;
pub use name::Name;
pub use named::Named;
pub use operators::{BinOp, Trap, UnOp, apply, apply1};
pub use path::Path;
pub use path_texts::{push_channel, push_path};
pub use shared::Shared;
pub use token::{Keyword, LexKind, Sign, TokenKind};
pub use types::{Ty, store};
