// A whole program.
ghost use Rattle.std.specs.Prelude.{◌≡◌, IfOk};
ghost use Rattle.shim_sharing.specs.Accepting.{Gives, IfRefused, accepted};
ghost use Rattle.shim_sharing.specs.Laws.{IsFirstRefusal};
ghost use Rattle.shim_units.specs.Rule.{Obeys};
ghost use Rattle.shim_units.specs.Units.{lifted};

use crate::fault::ShareFault;
use crate::refusal::check;
use crate::units::lift_program;
use shim_scopes::Resolved;
use shim_units::{Accepted, from_form};
use std::alloc::Global;

/// The program with its block branches as units, or the first fork or call that the sharing rule
/// refuses. Functions come in textual order, each statement before what stands in it, and a fork
/// before its branches. `NoMemory` may come in place of any answer.
pub fn accept(alloc: Global, resolved: Resolved) -> Result<Accepted, ShareFault>
    ensures meant { Gives result (accepted resolved) }
    ensures obeys { IfOk result (λ form. Obeys resolved) }
    ensures units { IfOk result (λ form. form ≡ lifted resolved) }
    ensures refused { IfRefused result (λ fault. Obeys resolved → ⊥) }
    ensures first { IfRefused result (IsFirstRefusal resolved) }
{
    check(alloc, resolved.names(), resolved.functions())?;
    let form = lift_program(alloc, resolved)?;
    Ok(from_form(alloc, form)?)
}
