// Reports of runs of whole programs that do the enabled events in other orders.
ghost use Rattle.std.specs.Prelude.{◌≡◌, ◌≤◌, ◌<◌, ◌⊎◌, OnOk};
ghost use Rattle.shim_semantics.specs.Sound.{SharesItsOwn};
ghost use Rattle.shim_semantics.specs.Trees.{steps, IsQuiescent};

use crate::trees::{MOST_BYTES, units_of, walk_of};
use shim_base::{List, NoMemory, Shared};
use shim_local::{Ended, Local};
use shim_report::text;
use shim_sharing::Accepted;
use shim_tree::Tree;
use std::alloc::Global;

/// Which of the enabled events happens.
#[derive(Clone, Copy)]
pub enum Order {
    First,
    Last,
    Middle,
    /// The first and the last by turns.
    ByTurns,
}

// The place of that event among so many.
fn place(order: Order, turn: u64, count: usize) -> usize
    requires { 1 ≤ count }
    ensures { result < count }
{
    match order {
        Order::First => 0,
        Order::Last => count - 1,
        Order::Middle => count / 2,
        Order::ByTurns => if turn % 2 == 0 { 0 } else { count - 1 },
    }
}

// Does enabled events in this order, until none is enabled or so many were done.
fn do_events_by<L: Local>(tree: &mut Tree<L>, order: Order, most: u64) -> Result<(), NoMemory>
    requires fresh { steps tree.old ≡ 0 }
    requires small { most ≤ 4000000 }
    ensures end { OnOk result (((steps tree.new ≤ most) × IsQuiescent L.ops tree.new) ⊎ (steps tree.new ≡ most)) }
{
    for turn in 0..most {
        let events = tree.enabled()?;
        let count = events.len();
        if count == 0 {
            return Ok(());
        }
        let at = place(order, turn, count);
        tree.do_event(&events.as_slice()[at])?;
    }
    Ok(())
}

// What the tree of this one process comes to by events in this order, a thousand at most.
fn end_by<L: Local>(alloc: Global, root: L, order: Order) -> Result<Ended, NoMemory>
    requires own { SharesItsOwn L.ops root }
{
    let mut tree = Tree::start(alloc, root)?;
    do_events_by(&mut tree, order, 1000)?;
    tree.ended(1000)
}

// The report of a program's run in this order.
fn report_by(
    alloc: Global,
    program: &Shared<Accepted>,
    order: Order,
) -> Result<List<u8>, NoMemory> {
    let root = walk_of(alloc, program.share()?, "")?;
    let end = end_by(alloc, root, order)?;
    text(alloc, &end, program.names())
}

/// The report of a source's run in this order, a thousand events at most; nothing where the source is refused.
pub fn report_of(alloc: Global, source: &[u8], order: Order) -> Result<Option<List<u8>>, NoMemory> {
    if source.len() > MOST_BYTES {
        return Ok(None);
    }
    let Some(units) = units_of(alloc, source) else {
        return Ok(None);
    };
    let program = Shared::new(alloc, units)?;
    let report = report_by(alloc, &program, order)?;
    Ok(Some(report))
}
