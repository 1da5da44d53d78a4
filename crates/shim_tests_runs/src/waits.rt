// What is explained of whole programs that are blocked, and which changed explanations still hold.
ghost use Rattle.std.specs.Prelude.{◌≡◌, true};
ghost use Rattle.shim_semantics.specs.Sound.{SharesItsOwn};
ghost use Rattle.shim_semantics.specs.Trees.{IsQuiescent};
ghost use Rattle.shim_semantics.specs.Nodes as nodes;

use crate::changes::{Change, changed};
use crate::trees::{MOST_BYTES, do_first_events, units_of, walk_of};
use shim_base::{Chan, List, NoMemory, Path, Shared, push_decimal};
use shim_local::Local;
use shim_tree::Tree;
use shim_waits::{Explained, explain, holds};
use std::alloc::Global;

/// What is asked of a tree that is blocked.
#[derive(Clone, Copy)]
pub enum Why {
    /// Its explanation.
    Explained,
    /// Whether its explanation still holds with this changed.
    Holds(Change),
}

fn add_number(reply: &mut List<u8>, before: &[u8], number: u32) -> Result<(), NoMemory> {
    reply.extend_from_slice(before)?;
    push_decimal(reply, number as u64)
}

fn add_path(reply: &mut List<u8>, path: &Path) -> Result<(), NoMemory> {
    reply.extend_from_slice(b" main")?;
    for pair in path.pairs() {
        add_number(reply, b"/", pair.0)?;
        add_number(reply, b".", pair.1)?;
    }
    Ok(())
}

fn add_chan(reply: &mut List<u8>, chan: &Chan) -> Result<(), NoMemory> {
    add_path(reply, chan.home())?;
    add_number(reply, b"#", chan.serial())
}

// A line for each wait, and one for the cycle.
fn explained_text(alloc: Global, e: &Explained) -> Result<List<u8>, NoMemory> {
    let mut reply = List::new(alloc);
    for w in e.waits.as_slice() {
        reply.extend_from_slice(b"because")?;
        add_path(&mut reply, &w.path)?;
        add_path(&mut reply, &w.holder)?;
        add_path(&mut reply, &w.by)?;
        add_chan(&mut reply, &w.at)?;
        reply.push(b'\n')?;
    }
    reply.extend_from_slice(b"cycle")?;
    for path in e.cycle.as_slice() {
        add_path(&mut reply, path)?;
    }
    Ok(reply)
}

// A process that waits in no source of a case.
fn other(alloc: Global) -> Result<Path, NoMemory> {
    Path::root(alloc).child(0, 1)?.child(0, 1)
}

// Whether the explanation holds with this changed.
fn holds_changed<L: Local>(
    alloc: Global,
    tree: &Tree<L>,
    e: &Explained,
    change: Change,
) -> Result<bool, NoMemory>
    requires rests { IsQuiescent L.ops tree.now }
    requires goes { nodes.goes tree.now.root ≡ true }
{
    let other = other(alloc)?;
    let e = changed(alloc, e, &other, change)?;
    holds(alloc, tree, &e)
}

fn yes_or_no(alloc: Global, yes: bool) -> Result<List<u8>, NoMemory> {
    let word = if yes { "yes" } else { "no" };
    List::from_slice(alloc, word.as_bytes())
}

// The answer of this blocked tree to what is asked.
fn answer<L: Local>(alloc: Global, tree: &Tree<L>, why: Why) -> Result<List<u8>, NoMemory>
    requires rests { IsQuiescent L.ops tree.now }
    requires goes { nodes.goes tree.now.root ≡ true }
{
    let e = explain(alloc, tree)?;
    match why {
        Why::Explained => explained_text(alloc, &e),
        Why::Holds(change) => yes_or_no(alloc, holds_changed(alloc, tree, &e, change)?),
    }
}

// The answer of the tree of this one process after at most a thousand first events, or `not blocked`.
fn answer_after<L: Local>(alloc: Global, root: L, why: Why) -> Result<List<u8>, NoMemory>
    requires own { SharesItsOwn L.ops root }
{
    let mut tree = Tree::start(alloc, root)?;
    do_first_events(&mut tree, 1000)?;
    if tree.quiescent() && tree.root().goes() {
        answer(alloc, &tree, why)
    } else {
        List::from_slice(alloc, b"not blocked")
    }
}

/// What is asked of the tree of a source's `main`, without an input, after a thousand first events at most, or `not
/// blocked`; nothing where the source is refused.
pub fn why_of(alloc: Global, source: &[u8], why: Why) -> Result<Option<List<u8>>, NoMemory> {
    if source.len() > MOST_BYTES {
        return Ok(None);
    }
    let Some(units) = units_of(alloc, source) else {
        return Ok(None);
    };
    let root = walk_of(alloc, Shared::new(alloc, units)?, "")?;
    let reply = answer_after(alloc, root, why)?;
    Ok(Some(reply))
}
