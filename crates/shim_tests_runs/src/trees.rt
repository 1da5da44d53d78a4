// Trees of whole programs, each with an input, and the first events that happen to them.
ghost use Rattle.std.specs.Prelude.{◌≡◌, ◌≤◌, ◌⊎◌, length, OnOk, IfOk};
ghost use Rattle.shim_process.specs.Forks.{root};
ghost use Rattle.shim_semantics.specs.Trees.{steps, IsQuiescent};

use shim_base::{List, NoMemory, Shared};
use shim_front_end::read_source;
use shim_local::Local;
use shim_sharing::Accepted;
use shim_tree::Tree;
use shim_walk::Walk;
use std::alloc::Global;

/// A source has at most so many bytes.
pub const MOST_BYTES: usize = 1_048_576;

/// The units of a text, or nothing where it is refused or memory ran out for it.
pub fn units_of(alloc: Global, text: &[u8]) -> Option<Accepted>
    requires { length text.now ≤ 1048576 }
{
    match read_source(alloc, text) {
        Ok(accepted) => Some(accepted),
        Err(_) => None,
    }
}

/// The process that runs the `main` of a program on this input.
pub fn walk_of(alloc: Global, program: Shared<Accepted>, input: &str) -> Result<Walk, NoMemory>
    ensures { IfOk result (λ walk. walk ≡ root program input.now) }
{
    let input = Shared::new(alloc, List::from_slice(alloc, input.as_bytes())?)?;
    Walk::main(alloc, program, input)
}

/// Does the first enabled event again and again, until none is enabled or so many were done.
pub fn do_first_events<L: Local>(tree: &mut Tree<L>, most: u64) -> Result<(), NoMemory>
    requires fresh { steps tree.old ≡ 0 }
    requires small { most ≤ 4000000 }
    ensures end { OnOk result (((steps tree.new ≤ most) × IsQuiescent L.ops tree.new) ⊎ (steps tree.new ≡ most)) }
{
    for _ in 0..most {
        match tree.first()? {
            None => return Ok(()),
            Some(event) => tree.do_event(&event)?,
        }
    }
    Ok(())
}
