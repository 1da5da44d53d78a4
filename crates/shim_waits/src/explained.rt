// Why the processes of a blocked tree wait.
ghost use Rattle.std.specs.Prelude.{◌≡◌, true, IfOk};
ghost use Rattle.shim_semantics.specs.Nodes as nodes;
ghost use Rattle.shim_semantics.specs.Trees.{IsQuiescent};
ghost use Rattle.shim_waits.specs.Waits as specs;

use crate::gathering::gather_waiting;
use crate::ring::cycle_of;
use crate::waiting::numbered_waits;
use shim_base::{Chan, List, NoMemory, Path};
use shim_local::Local;
use shim_tree::Tree;
use std::alloc::Global;
use std::collections::BTreeMap;

/// A process that waits at a channel, a process that holds it up there, and a live process at or below that one, for
/// which it waits, with the channel at which that live process stands.
#[derive(Drop)]
pub struct Wait {
    pub path: Path,
    pub chan: Chan,
    pub holder: Path,
    pub by: Path,
    pub at: Chan,
}

/// The waits of the live processes, and a cycle of these waits: each process on it waits for the next, and the last
/// one for the first.
#[derive(Drop)]
pub struct Explained {
    pub waits: List<Wait>,
    pub cycle: List<Path>,
}

/// Why each live process waits, in a tree in which nothing can happen and whose root has neither ended nor died, and
/// the cycle of waits that is reached from the first of them. One walk over the tree finds the live processes and who
/// holds them up.
pub fn explain<L: Local>(alloc: Global, tree: &Tree<L>) -> Result<Explained, NoMemory>
    requires rests { IsQuiescent L.ops tree.now }
    requires goes { nodes.goes tree.now.root ≡ true }
    ensures { IfOk result (λ e. e ≡ specs.explained L.ops tree.now.root) }
{
    // its clause says that the tree is sound, on which the laws stand
    let _rests = tree.quiescent();
    let mut lives = Vec::new(alloc);
    let mut holders = BTreeMap::new(alloc);
    gather_waiting(&tree.root(), &mut lives, &mut holders)?;
    let (waits, next) = numbered_waits(alloc, lives.as_slice(), &holders)?;
    let cycle = cycle_of(alloc, waits.as_slice(), next.as_slice())?;
    Ok(Explained { waits, cycle })
}
