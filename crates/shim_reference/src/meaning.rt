// The meaning of a program on an input.
ghost use Rattle.std.specs.Prelude.{◌≡◌, ◌≤◌, IfOk, OnOk};
ghost use Rattle.shim_process.specs.Ops.{process_ops};
ghost use Rattle.shim_reference.specs.Reference.{meaning_of, reference_of};
ghost use Rattle.shim_reference.specs.Runs.{HasRun, IsEndOfRun};

use crate::naming::named;
use crate::run::run;
use shim_base::{List, NoMemory, Shared};
use shim_local::Ended;
use shim_tree::Tree;
use shim_units::Accepted;
use shim_walk::Walk;
use std::alloc::Global;

/// The tree to which a program comes on an input after at most `budget` events, each the first that is
/// enabled. By `end` and `ran` either no event is enabled in that tree, or the tree has `budget` steps and
/// an event is enabled.
pub fn meaning_of(
    alloc: Global,
    program: Shared<Accepted>,
    input: Shared<List<u8>>,
    budget: u64,
) -> Result<Tree<Walk>, NoMemory>
    requires few { budget ≤ 4000000 }
    ensures tree { IfOk result (λ tree. tree ≡ meaning_of program input budget) }
    ensures end { IfOk result (HasRun process_ops budget) }
    ensures ran { OnOk result (IsEndOfRun process_ops budget (meaning_of program input budget)) }
{
    let main = Walk::main(alloc, program, input)?;
    run(alloc, main, budget)
}

/// What a program means on an input: what is read off the tree of `meaning_of`. An exception that nobody caught has
/// the number of its name, which is one of those after the `throws` of `main`, in place of its label. By `ran` either
/// no event is enabled in that tree, or the tree has `budget` steps and an event is enabled.
pub fn reference(
    alloc: Global,
    program: Shared<Accepted>,
    input: Shared<List<u8>>,
    budget: u64,
) -> Result<Ended, NoMemory>
    requires few { budget ≤ 4000000 }
    ensures end { IfOk result (λ end. end ≡ reference_of program input budget) }
    ensures ran { OnOk result (IsEndOfRun process_ops budget (meaning_of program input budget)) }
{
    let kept = program.share()?;
    let tree = meaning_of(alloc, program, input, budget)?;
    Ok(named(tree.ended(budget)?, kept.main_throws()))
}
