// The words for what is read off a tree.
use shim_base::{Chan, List, NoMemory, Path, push_decimal};
use shim_local::{Death, Local, Outcome, OwnSteps};
use shim_run_log::Event;
use shim_tree::{NodeRef, ProcessView, Tree};
use std::sync::Arc;

pub fn add_number(reply: &mut List<u8>, before: &[u8], number: u64) -> Result<(), NoMemory> {
    reply.extend_from_slice(before)?;
    push_decimal(reply, number)
}

pub fn add_path(reply: &mut List<u8>, before: &[u8], path: &Path) -> Result<(), NoMemory> {
    reply.extend_from_slice(before)?;
    reply.extend_from_slice(b" root")?;
    for pair in path.pairs() {
        add_number(reply, b"/", pair.0 as u64)?;
        add_number(reply, b".", pair.1 as u64)?;
    }
    Ok(())
}

fn add_chan(reply: &mut List<u8>, before: &[u8], chan: &Chan) -> Result<(), NoMemory> {
    add_number(reply, before, chan.serial() as u64)?;
    add_path(reply, b" of", chan.home())
}

fn add_value(reply: &mut List<u8>, value: i64) -> Result<(), NoMemory> {
    reply.extend_from_slice(b" ")?;
    if value < 0 {
        reply.extend_from_slice(b"-")?;
    }
    push_decimal(reply, value.unsigned_abs())
}

fn add_values(reply: &mut List<u8>, values: &[i64]) -> Result<(), NoMemory> {
    for value in values {
        add_value(reply, *value)?;
    }
    Ok(())
}

fn add_poison(reply: &mut List<u8>, path: &Path, chan: &Chan) -> Result<(), NoMemory> {
    add_path(reply, b" poison", path)?;
    add_chan(reply, b" on ", chan)
}

fn add_event(reply: &mut List<u8>, event: &Event) -> Result<(), NoMemory> {
    match event {
        Event::Own(path) => add_path(reply, b" own", path)?,
        Event::Meet(chan) => add_chan(reply, b" meet ", chan)?,
        Event::Poison(path, chan) => add_poison(reply, path, chan)?,
        Event::Close(path) => add_path(reply, b" close", path)?,
        Event::End(path) => add_path(reply, b" end", path)?,
    }
    reply.extend_from_slice(b";")
}

// Tells whether something can happen, and all that can.
pub fn add_enabled<L: Local>(reply: &mut List<u8>, tree: &Tree<L>) -> Result<(), NoMemory> {
    let events = tree.enabled()?;
    reply.extend_from_slice(if tree.quiescent() {
        b" at rest:"
    } else {
        b" going:"
    })?;
    for event in events.as_slice() {
        add_event(reply, event)?;
    }
    Ok(())
}

// Tells which process has this number among those that stand before a quiet step.
fn add_quiet_at<L: Local>(reply: &mut List<u8>, tree: &Tree<L>, at: usize) -> Result<(), NoMemory> {
    match tree.at_quiet(at) {
        Some(process) => add_path(reply, b"", process.path()),
        None => reply.extend_from_slice(b" none"),
    }
}

// Tells the first two processes that stand before a quiet step.
pub fn add_quiet<L: Local>(reply: &mut List<u8>, tree: &Tree<L>) -> Result<(), NoMemory> {
    reply.extend_from_slice(b" quiet")?;
    add_quiet_at(reply, tree, 0)?;
    add_quiet_at(reply, tree, 1)?;
    reply.extend_from_slice(b";")
}

pub fn add_before_quiet<L: Local>(
    reply: &mut List<u8>,
    tree: &Tree<L>,
    path: &Path,
) -> Result<(), NoMemory> {
    if tree.is_before_quiet(path) {
        reply.extend_from_slice(b" true")
    } else {
        reply.extend_from_slice(b" false")
    }
}

// Tells what the rendezvous on the root's channel of this serial number gave.
pub fn add_met<L: Local>(
    reply: &mut List<u8>,
    tree: &Tree<L>,
    serial: u32,
) -> Result<(), NoMemory> {
    let alloc = reply.allocator();
    let chan = Chan::new(Arc::new(alloc, Path::root(alloc))?, serial, 0);
    match tree.history(&chan) {
        Some(values) => add_values(reply, values),
        None => reply.extend_from_slice(b" none"),
    }
}

// ---- what came of a process

fn add_death(reply: &mut List<u8>, death: Death) -> Result<(), NoMemory> {
    add_number(reply, b" of ", death.label as u64)?;
    match death.given {
        None => reply.extend_from_slice(b" with none"),
        Some(number) => {
            reply.extend_from_slice(b" with")?;
            add_value(reply, number)
        }
    }
}

fn add_came<L: Local>(reply: &mut List<u8>, view: &ProcessView<'_, L>) -> Result<(), NoMemory> {
    match view {
        ProcessView::Live(process) => add_path(reply, b" live", process.path()),
        ProcessView::Ended(process) => add_path(reply, b" ended", process.path()),
        ProcessView::Dead(process, death) => {
            add_path(reply, b" dead", process.path())?;
            add_death(reply, *death)
        }
        ProcessView::Forked(process, fork, count) => {
            add_path(reply, b" forked", process.path())?;
            add_number(reply, b" by ", *fork as u64)?;
            add_number(reply, b" into ", *count as u64)
        }
    }
}

// Tells what came of the process of this path.
pub fn add_view<L: Local>(
    reply: &mut List<u8>,
    tree: &Tree<L>,
    path: &Path,
) -> Result<(), NoMemory> {
    match tree.view(path) {
        None => reply.extend_from_slice(b" none"),
        Some(view) => add_came(reply, &view),
    }
}

// ---- processes that are lent

fn add_node<L: Local>(reply: &mut List<u8>, node: &NodeRef<'_, L>) -> Result<(), NoMemory> {
    add_path(reply, b"", node.process().path())?;
    if node.live().is_some() {
        reply.extend_from_slice(b" live")?;
    }
    if node.goes() {
        reply.extend_from_slice(b" goes")?;
    }
    add_number(reply, b" ", node.children() as u64)?;
    reply.extend_from_slice(b";")
}

// Tells of the child in this place.
fn add_child<L: Local>(
    reply: &mut List<u8>,
    node: &NodeRef<'_, L>,
    at: usize,
) -> Result<(), NoMemory> {
    match node.child(at) {
        None => reply.extend_from_slice(b" none;"),
        Some(child) => add_node(reply, &child),
    }
}

// Tells of the root and of its first four children.
pub fn add_children<L: Local>(reply: &mut List<u8>, tree: &Tree<L>) -> Result<(), NoMemory> {
    let node = tree.root();
    add_node(reply, &node)?;
    for at in 0..4usize {
        add_child(reply, &node, at)?;
    }
    Ok(())
}

// ---- what is read off it in the end

pub fn add_own(reply: &mut List<u8>, own: &[OwnSteps]) -> Result<(), NoMemory> {
    for process in own {
        add_path(reply, b" stepped", &process.path)?;
        add_number(reply, b" ", process.count)?;
        reply.extend_from_slice(b";")?;
    }
    Ok(())
}

pub fn outcome_word(outcome: Outcome) -> &'static [u8] {
    match outcome {
        Outcome::Done => b"done".as_slice(),
        Outcome::Uncaught(_) => b"uncaught".as_slice(),
        Outcome::Trapped => b"trapped".as_slice(),
        Outcome::Blocked => b"blocked".as_slice(),
        Outcome::Spent => b"spent".as_slice(),
    }
}
