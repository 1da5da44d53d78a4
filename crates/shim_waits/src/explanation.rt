// Whether an explanation is one of a tree.
ghost use Rattle.std.specs.Prelude.{◌≡◌, List, ◌↔◌, true, Some, IsTrue, IfOk, map};
ghost use Rattle.shim_local.specs.Laws.{AllOf};
ghost use Rattle.shim_semantics.specs.Nodes as nodes;
ghost use Rattle.shim_semantics.specs.Places.{SoundBelow};
ghost use Rattle.shim_semantics.specs.Trees.{IsQuiescent};
ghost use Rattle.shim_waits.specs.Cycles.{by_of};
ghost use Rattle.shim_waits.specs.Holds.{IsRing, IsExplanation};
ghost use Rattle.shim_waits.specs.Judging.{WaitsThere, IsHolder, IsAtOrBelow, IsEntryIndex, first_place, AreFirst, HaveWaits};
ghost use Rattle.shim_waits.specs.declared.explained.Wait.{Wait};
ghost use Rattle.shim_waits.specs.Waits.{StandsAtNext, IsWait};

use crate::by_path::found_by;
use crate::explained::{Explained, Wait};
use crate::gathering::gather_waiting;
use crate::holding::holds_up;
use crate::waiting::stands_at;
use shim_base::{Chan, NoMemory, Path};
use shim_local::Local;
use shim_tree::Tree;
use std::alloc::Global;
use std::collections::BTreeMap;

// Whether the process stands at the channel, by whatever name.
fn is_at<L: Local>(process: &L, c: &Chan) -> bool
    ensures { IsTrue result ↔ StandsAtNext L.ops process.now c.now }
{
    match stands_at(process) {
        Some(d) => d == c,
        None => false,
    }
}

// Whether the process of the path lives and stands at the channel.
fn waits_there<L: Local>(tree: &Tree<L>, path: &Path, c: &Chan) -> bool
    requires sound { SoundBelow L.ops tree.now.root }
    ensures { IsTrue result ↔ WaitsThere L.ops tree.now.root path.now c.now }
{
    match found_by(tree, path) {
        None => false,
        Some(node) => match node.live() {
            None => false,
            Some(process) => is_at(process, c),
        },
    }
}

// Whether the process of the path holds up those that wait at the channel.
fn is_holder<L: Local>(tree: &Tree<L>, path: &Path, c: &Chan) -> bool
    requires sound { SoundBelow L.ops tree.now.root }
    ensures { IsTrue result ↔ IsHolder L.ops tree.now.root path.now c.now }
{
    match found_by(tree, path) {
        None => false,
        Some(node) => holds_up(&node, c),
    }
}

// Whether the second path begins with the first, or is the first.
fn goes_on(front: &Path, path: &Path) -> bool
    ensures { IsTrue result ↔ IsAtOrBelow front.now path.now }
{
    path.pairs().starts_with(front.pairs())
}

// Whether an entry is a wait of the tree.
fn is_wait<L: Local>(tree: &Tree<L>, w: &Wait) -> bool
    requires sound { SoundBelow L.ops tree.now.root }
    ensures { IsTrue result ↔ IsWait L.ops tree.now.root w.now }
{
    waits_there(tree, &w.path, &w.chan)
        && is_holder(tree, &w.holder, &w.chan)
        && goes_on(w.chan.home(), &w.holder)
        && waits_there(tree, &w.by, &w.at)
        && goes_on(&w.holder, &w.by)
}

// Whether each entry is a wait of the tree.
fn are_waits<L: Local>(tree: &Tree<L>, waits: &[Wait]) -> bool
    requires sound { SoundBelow L.ops tree.now.root }
    ensures { IsTrue result ↔ AllOf (IsWait L.ops tree.now.root) waits.now }
{
    for i in 0..waits.len() {
        if !is_wait(tree, &waits[i]) {
            return false;
        }
    }
    true
}

// Where the first entry of each path stands.
fn index_of(alloc: Global, waits: &[Wait]) -> Result<BTreeMap<Path, usize, Global>, NoMemory>
    ensures { IfOk result (λ index. IsEntryIndex index waits.now) }
{
    let mut index = BTreeMap::new(alloc);
    for i in 0..waits.len() {
        let path = &waits[i].path;
        if !index.contains_key(path) {
            index.insert(path.copy()?, i)?;
        }
    }
    Ok(index)
}

// Whether the first entry of the path stands in this place.
fn is_first(index: &BTreeMap<Path, usize, Global>, path: &Path, place: usize) -> bool
    ensures { (waits : List Wait) → IsEntryIndex index.now waits → IsTrue result ↔ (first_place waits path.now ≡ Some place) }
{
    match index.get(path) {
        None => false,
        Some(found) => *found == place,
    }
}

// Whether no entry has the path of one before it.
fn are_first(index: &BTreeMap<Path, usize, Global>, waits: &[Wait]) -> bool
    requires index { IsEntryIndex index.now waits.now }
    ensures { IsTrue result ↔ AreFirst waits.now }
{
    for i in 0..waits.len() {
        if !is_first(index, &waits[i].path, i) {
            return false;
        }
    }
    true
}

// Whether each of these processes has an entry.
fn have_waits<L: Local>(index: &BTreeMap<Path, usize, Global>, lives: &[&L], waits: &[Wait]) -> bool
    requires index { IsEntryIndex index.now waits.now }
    ensures { IsTrue result ↔ HaveWaits waits.now (map (λ x. L.ops.path x.now) lives.now) }
{
    for i in 0..lives.len() {
        if !index.contains_key(lives[i].path()) {
            return false;
        }
    }
    true
}

// Whether the process of the first path waits, by its entry, for that of the second.
fn waits_for(
    index: &BTreeMap<Path, usize, Global>,
    waits: &[Wait],
    path: &Path,
    next: &Path,
) -> bool
    requires index { IsEntryIndex index.now waits.now }
    ensures { IsTrue result ↔ (by_of waits.now path.now ≡ Some next.now) }
{
    match index.get(path) {
        None => false,
        Some(place) => match waits.get(*place) {
            None => false,
            Some(w) => w.by == *next,
        },
    }
}

// Whether there is a process on the cycle, each waits for the next, and the last one for the first.
fn is_ring(index: &BTreeMap<Path, usize, Global>, waits: &[Wait], cycle: &[Path]) -> bool
    requires index { IsEntryIndex index.now waits.now }
    ensures { IsTrue result ↔ IsRing waits.now cycle.now }
{
    if cycle.is_empty() {
        return false;
    }
    let last = cycle.len() - 1;
    for i in 0..last {
        if !waits_for(index, waits, &cycle[i], &cycle[i + 1]) {
            return false;
        }
    }
    waits_for(index, waits, &cycle[last], &cycle[0])
}

/// Whether each live process has one entry, each entry is a wait of the tree, and the cycle is a ring of these
/// waits. Nothing can happen in the tree, and its root has neither ended nor died.
pub fn holds<L: Local>(alloc: Global, tree: &Tree<L>, e: &Explained) -> Result<bool, NoMemory>
    requires rests { IsQuiescent L.ops tree.now }
    requires goes { nodes.goes tree.now.root ≡ true }
    ensures { IfOk result (λ yes. IsTrue yes ↔ IsExplanation L.ops tree.now.root e.now) }
{
    // its clause says that the tree is sound, on which the look-ups by path stand
    let _rests = tree.quiescent();
    let waits = e.waits.as_slice();
    if !are_waits(tree, waits) {
        return Ok(false);
    }
    let index = index_of(alloc, waits)?;
    if !are_first(&index, waits) {
        return Ok(false);
    }
    let mut lives = Vec::new(alloc);
    let mut holders = BTreeMap::new(alloc);
    gather_waiting(&tree.root(), &mut lives, &mut holders)?;
    if !have_waits(&index, lives.as_slice(), waits) {
        return Ok(false);
    }
    Ok(is_ring(&index, waits, e.cycle.as_slice()))
}
