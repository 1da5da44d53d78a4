// When two expressions are the same.
ghost use Rattle.std.specs.Prelude.{◌≡◌, ◌↔◌, IsTrue};

use shim_scopes::UExpr;

/// Whether they are the same tree.
pub fn same_expr(one: &UExpr, other: &UExpr) -> bool
    ensures { IsTrue result ↔ (one.now ≡ other.now) }
{
    match (one, other) {
        (UExpr::Number(one), UExpr::Number(other)) => *one == *other,
        (UExpr::Var(one), UExpr::Var(other)) => *one == *other,
        (UExpr::Unary(one, operand), UExpr::Unary(other, second)) => {
            *one == *other && same_expr(operand, second)
        }
        (UExpr::Binary(one, left, right), UExpr::Binary(other, first, second)) => {
            *one == *other && same_expr(left, first) && same_expr(right, second)
        }
        _ => false,
    }
}

/// Whether both are absent, or they are the same.
pub fn same_option(one: &Option<UExpr>, other: &Option<UExpr>) -> bool
    ensures { IsTrue result ↔ (one.now ≡ other.now) }
{
    match (one, other) {
        (None, None) => true,
        (Some(one), Some(other)) => same_expr(one, other),
        _ => false,
    }
}
