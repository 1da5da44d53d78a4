// One question about a place: it is refused, or the next is asked.
ghost use Rattle.std.specs.Option.{option_copied};
ghost use Rattle.shim_scopes.specs.State.{Passes, RefusesWith};

use crate::fault::{ScopeFault, ScopeKind};
use shim_base::Name;
use shim_syntax::word::copy;
use std::alloc::Global;

// The refusal of a place for a name.
pub fn refuse(alloc: Global, line: u32, kind: ScopeKind, name: &Name) -> ScopeFault
    ensures { RefusesWith result line kind name.now }
{
    match copy(alloc, name) {
        Ok(name) => ScopeFault::Refused { line, kind, name },
        Err(_) => ScopeFault::NoMemory,
    }
}

// Passes where there is no name to refuse the place for.
pub fn check(
    alloc: Global,
    line: u32,
    kind: ScopeKind,
    name: Option<&Name>,
) -> Result<(), ScopeFault>
    ensures { Passes result line kind (option_copied name.entry) }
{
    match name {
        None => Ok(()),
        Some(name) => Err(refuse(alloc, line, kind, name)),
    }
}
