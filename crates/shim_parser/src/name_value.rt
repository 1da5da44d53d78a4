// A declared name and its first value.
use shim_base::Name;
use shim_syntax::Expr;

#[derive(Drop)]
pub(crate) struct Declared {
    pub(crate) name: Name,
    pub(crate) value: Option<Expr>,
}
