// What stands in the parentheses of a `for`.
use shim_base::List;
use shim_syntax::{Expr, Stmt};

#[derive(Drop)]
pub(crate) struct ForParts {
    pub(crate) first: List<Stmt>,
    pub(crate) test: Option<Expr>,
    pub(crate) step: List<Stmt>,
}
