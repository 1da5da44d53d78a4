// The events that can happen in trees of whole programs, by name.
ghost use Rattle.std.specs.Prelude.{◌≤◌};
ghost use Rattle.shim_semantics.specs.Sound.{SharesItsOwn};

use crate::trees::{MOST_BYTES, do_first_events, units_of, walk_of};
use shim_base::{Chan, List, NoMemory, Path, Shared, push_decimal};
use shim_local::Local;
use shim_run_log::Event;
use shim_tree::Tree;
use std::alloc::Global;

fn add_path(reply: &mut List<u8>, before: &[u8], path: &Path) -> Result<(), NoMemory> {
    reply.extend_from_slice(before)?;
    reply.extend_from_slice(b" main")?;
    for pair in path.pairs() {
        reply.extend_from_slice(b"/")?;
        push_decimal(reply, pair.0 as u64)?;
        reply.extend_from_slice(b".")?;
        push_decimal(reply, pair.1 as u64)?;
    }
    Ok(())
}

fn add_chan(reply: &mut List<u8>, before: &[u8], chan: &Chan) -> Result<(), NoMemory> {
    add_path(reply, before, chan.home())?;
    reply.extend_from_slice(b"#")?;
    push_decimal(reply, chan.serial() as u64)
}

fn add_poison(reply: &mut List<u8>, path: &Path, chan: &Chan) -> Result<(), NoMemory> {
    add_path(reply, b" poison", path)?;
    add_chan(reply, b" on", chan)
}

fn add_event(reply: &mut List<u8>, event: &Event) -> Result<(), NoMemory> {
    match event {
        Event::Own(path) => add_path(reply, b" own", path)?,
        Event::Meet(chan) => add_chan(reply, b" meet", chan)?,
        Event::Poison(path, chan) => add_poison(reply, path, chan)?,
        Event::Close(path) => add_path(reply, b" close", path)?,
        Event::End(path) => add_path(reply, b" end", path)?,
    }
    reply.extend_from_slice(b";")
}

// The event that the tree says is the first, and all that it says are enabled.
fn told_events<L: Local>(alloc: Global, tree: &Tree<L>) -> Result<List<u8>, NoMemory> {
    let mut reply = List::new(alloc);
    match tree.first()? {
        Some(event) => add_event(&mut reply, &event)?,
        None => reply.extend_from_slice(b" none")?,
    }
    reply.extend_from_slice(b" of")?;
    let events = tree.enabled()?;
    for event in events.as_slice() {
        add_event(&mut reply, event)?;
    }
    if tree.quiescent() != events.is_empty() {
        reply.extend_from_slice(b" but quiescent otherwise")?;
    }
    Ok(reply)
}

// Those of the tree of this one process, after so many first events.
fn events_after<L: Local>(alloc: Global, root: L, done: u64) -> Result<List<u8>, NoMemory>
    requires own { SharesItsOwn L.ops root }
    requires small { done ≤ 4000000 }
{
    let mut tree = Tree::start(alloc, root)?;
    do_first_events(&mut tree, done)?;
    told_events(alloc, &tree)
}

/// The first event in the tree of a source's `main`, without an input, after so many first events, and all that are
/// enabled then; nothing where the source is refused.
pub fn events_of(alloc: Global, source: &[u8], done: u8) -> Result<Option<List<u8>>, NoMemory> {
    if source.len() > MOST_BYTES {
        return Ok(None);
    }
    let Some(units) = units_of(alloc, source) else {
        return Ok(None);
    };
    let root = walk_of(alloc, Shared::new(alloc, units)?, "")?;
    let reply = events_after(alloc, root, done as u64)?;
    Ok(Some(reply))
}
