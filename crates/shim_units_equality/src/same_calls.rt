// When two calls are the same.
ghost use Rattle.std.specs.Prelude.{◌≡◌, ◌↔◌, IsTrue};

use crate::same::{Same, same_all};
use crate::same_exprs::same_expr;
use shim_units::{Arg, UBranch, UCall};

impl Same for Arg {
    fn same(&self, other: &Arg) -> bool {
        match (self, other) {
            (Arg::Ref(one), Arg::Ref(other)) => *one == *other,
            (Arg::Pass(one), Arg::Pass(other)) => *one == *other,
            (Arg::Fresh(one), Arg::Fresh(other)) => same_expr(one, other),
            _ => false,
        }
    }
}

impl Same for UCall {
    fn same(&self, other: &UCall) -> bool {
        self.unit == other.unit
            && same_all(self.args.as_slice(), other.args.as_slice())
            && same_all(self.throws.as_slice(), other.throws.as_slice())
    }
}

impl Same for UBranch {
    fn same(&self, other: &UBranch) -> bool {
        self.line == other.line && self.call.same(&other.call)
    }
}
