//! Names, functions and exceptions: what each use in a program is bound to, or the first place that is refused.
#![tactic(auto)]

mod call;
mod check;
mod fault;
mod form;
mod function;
mod header;
pub mod laws;
mod lookup;
mod program;
mod resolved;
mod scope;
mod simple;
mod stmt;
mod tree;
mod word;

pub use fault::{ScopeFault, ScopeKind};
pub use program::resolve;
pub use resolved::Resolved;
pub use tree::{RBranch, RBranchWhat, RCall, RFunction, RStmt, RWhat, UExpr, UParam};
