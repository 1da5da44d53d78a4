// The run that always does the first event.
ghost use Rattle.std.specs.Prelude.{◌≡◌, ◌≤◌, ◌⊎◌, OnOk, IfOk};
ghost use Rattle.shim_semantics.specs.Trees.{start, steps, IsQuiescent};
ghost use Rattle.shim_semantics.specs.Walks.{meaning};
ghost use Rattle.shim_semantics.specs.Sound.{SharesItsOwn};
ghost use Rattle.shim_reference.specs.Runs.{HasRun, IsEndOfRun};

use shim_base::NoMemory;
use shim_local::Local;
use shim_tree::Tree;
use std::alloc::Global;

// Does the first enabled event again and again, until none is enabled or so many were done.
fn do_first_events<L: Local>(tree: &mut Tree<L>, budget: u64) -> Result<(), NoMemory>
    requires fresh { steps tree.old ≡ 0 }
    requires small { budget ≤ 4000000 }
    ensures tree { OnOk result (tree.new ≡ meaning L.ops budget tree.old) }
    ensures end { OnOk result (HasRun L.ops budget tree.new) }
{
    for _ in 0..budget {
        match tree.first()? {
            None => return Ok(()),
            Some(event) => tree.do_event(&event)?,
        }
    }
    Ok(())
}

/// The tree of this one process, which shares channels of its own alone, after at most so many first
/// events.
pub(crate) fn run<L: Local>(alloc: Global, root: L, budget: u64) -> Result<Tree<L>, NoMemory>
    requires few { budget ≤ 4000000 }
    requires own { SharesItsOwn L.ops root }
    ensures tree { IfOk result (λ tree. tree ≡ meaning L.ops budget (start root)) }
    ensures end { IfOk result (HasRun L.ops budget) }
    ensures ran { OnOk result (IsEndOfRun L.ops budget (meaning L.ops budget (start root))) }
{
    let mut tree = Tree::start(alloc, root)?;
    do_first_events(&mut tree, budget)?;
    let _next = tree.first()?; // brings into the proof that the walk finds an event wherever one can happen
    Ok(tree)
}
