//! The syntax tree of a program, its limits, the grammar that says which tokens derive which tree, and the names and
//! the size of a program.
#![tactic(auto)]

/// What is proved of the list of names, and of the size.
pub mod laws;
mod limits;
mod names;
mod printing;
mod table;
mod tree;
pub mod word;

pub use limits::{MOST_NESTING, Many};
pub use names::names_of;
pub use printing::print;
pub use table::NameTable;
pub use tree::{Branch, BranchWhat, Call, Expr, Function, Param, Program, Sort, Stmt, What};
