// Nets of a small root.
ghost use Rattle.std.specs.Prelude.{◌≡◌, [], IfOk};
ghost use Rattle.shim_tests_small.specs.Small.{small_ops};
ghost use Rattle.shim_semantics.specs.Sound.{SharesItsOwn};

use shim_base::{Chan, NoMemory, Path};
use shim_net::Net;
use shim_tests_small::{Small, Step};
use std::alloc::Global;
use std::sync::Arc;

// A root with these steps to do, on a channel of its own.
fn root(alloc: Global, left: &[Step]) -> Result<Small, NoMemory>
    ensures own { IfOk result (λ root. SharesItsOwn small_ops root) }
    ensures path { IfOk result (λ root. root.path ≡ []) }
{
    let chan = Chan::new(Arc::new(alloc, Path::root(alloc))?, 2, 7);
    Ok(Small::new(Path::root(alloc), Vec::from_slice(alloc, left)?, chan))
}

// That a net may go to another thread is seen by the checker alone.
fn handed_on<T: Send>(value: T) -> T {
    value
}

/// A net of a root with these steps to do, with a budget of at least one step.
pub fn start(alloc: Global, left: &[Step], budget: u16) -> Result<Net<Small>, NoMemory> {
    let net = Net::start(alloc, root(alloc, left)?, budget.max(1) as u64)?;
    let net = handed_on(net);
    Ok(net)
}
