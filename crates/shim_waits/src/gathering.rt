// The live processes of a tree, and who holds up those that wait.
ghost use Rattle.std.specs.Prelude.{◌≡◌, ◌++◌, OnOk, length, map};
ghost use Rattle.shim_waits.specs.Gathering.{KeepsOne, KeepsGiven, KeepsFirst};
ghost use Rattle.shim_waits.specs.Holding as holding;

use crate::holding::holds_up;
use shim_base::{Chan, NoMemory, Path};
use shim_local::Local;
use shim_tree::NodeRef;
use std::alloc::Global;
use std::collections::BTreeMap;

/// The first process that holds up those at a channel, and how many live processes stand before it from the left.
#[derive(Drop)]
pub(crate) struct Holder {
    pub(crate) path: Path,
    pub(crate) number: usize,
}

// Keeps the process for this channel, if it holds up whoever waits there and none is kept for the channel yet.
fn keep_one<L: Local>(
    node: &NodeRef<'_, L>,
    number: usize,
    c: &Chan,
    holders: &mut BTreeMap<Chan, Holder, Global>,
) -> Result<(), NoMemory>
    ensures { OnOk result (KeepsOne L.ops node.now number c.now.channel holders.old holders.new) }
{
    let kept = holders.contains_key(c);
    if kept {
        return Ok(());
    }
    if holds_up(node, c) {
        let path = node.process().path().copy()?;
        holders.insert(c.copy()?, Holder { path, number })?;
    }
    Ok(())
}

// Keeps the process so for each channel that it was given. In a sound tree it holds up no process at another channel
// (law `blocked`).
fn keep_given<L: Local>(
    node: &NodeRef<'_, L>,
    number: usize,
    holders: &mut BTreeMap<Chan, Holder, Global>,
) -> Result<(), NoMemory>
    ensures { OnOk result (KeepsGiven L.ops node.now number holders.old holders.new) }
{
    let process = node.process();
    for at in 0..usize::MAX {
        match process.given(at) {
            None => return Ok(()),
            Some(c) => keep_one(node, number, c, holders)?,
        }
    }
    Err(NoMemory)
}

/// Adds the live processes at and below the node, from the left, and keeps for each channel the first process that
/// was given it and holds it up.
pub(crate) fn gather_waiting<'a, L: Local>(
    node: &NodeRef<'a, L>,
    lives: &mut Vec<&'a L>,
    holders: &mut BTreeMap<Chan, Holder, Global>,
) -> Result<(), NoMemory>
    ensures lives { OnOk result (map (λ x. x.now) lives.new.items ≡ map (λ x. x.now) lives.old.items ++ holding.lives node.now) }
    ensures first { OnOk result (KeepsFirst L.ops node.now (length lives.old.items) holders.old holders.new) }
{
    keep_given(node, lives.len(), holders)?;
    if let Some(process) = node.live() {
        lives.push(process)?;
        return Ok(());
    }
    for i in 0..node.children() {
        if let Some(child) = node.child(i) {
            gather_waiting(&child, lives, holders)?;
        }
    }
    Ok(())
}
