// The process of a path, and whether an event of it is enabled.
ghost use Rattle.std.specs.Prelude.{◌≡◌, true};
ghost use Rattle.shim_semantics.specs.Nodes as nodes;
ghost use Rattle.shim_semantics.specs.Places.{SoundBelow, at, branches, route, led_to, has_path};
ghost use Rattle.shim_semantics.specs.Trees as trees;
ghost use Rattle.shim_tree.specs.ByPath as by_path;
ghost use Rattle.shim_tree.specs.ByPath.{its_node, passes_there, can_do, can_poison_below};
ghost use Rattle.shim_run_log.specs.Events.{event_of};

use crate::fill::behind;
use crate::node_ref::NodeRef;
use crate::standing::is_of;
use shim_base::{Chan, Path};
use shim_local::{Local, Stop};
use shim_run_log::Event;

// The process to which these pairs of a path lead from this one, if there is one.
fn node_at<'a, L: Local>(node: &NodeRef<'a, L>, pairs: &[(u32, u32)]) -> Option<NodeRef<'a, L>>
    ensures { result ≡ at (branches pairs.now) node.now }
{
    let Some((first, rest)) = pairs.split_first() else {
        return Some(node.again());
    };
    match node.child(first.1 as usize) {
        None => None,
        Some(child) => node_at(&child, rest),
    }
}

/// The process of this path in the tree of this root, if there is one. It takes no memory.
pub(crate) fn found_by<'a, L: Local>(root: &NodeRef<'a, L>, path: &Path) -> Option<NodeRef<'a, L>>
    requires sound { SoundBelow L.ops root.now }
    ensures { result ≡ its_node L.ops root.now path.now }
{
    let front = root.process().path().pairs().len();
    if path.pairs().len() < front {
        return None;
    }
    match node_at(root, behind(path.pairs(), front)) {
        None => None,
        Some(node) => {
            if is_of(node.process(), path) {
                Some(node)
            } else {
                None
            }
        }
    }
}

// Whether the process, which lives, can do a step of its own.
fn steps_next<L: Local>(l: &L) -> bool
    ensures { result ≡ trees.same_own_action trees.Steps (trees.own_action_at (L.ops.stop l.now)) }
{
    match l.stop() {
        Stop::Quiet | Stop::Put | Stop::Fork | Stop::Throw(_) | Stop::Trapped(_, _) => true,
        Stop::Next(_) | Stop::Finish => false,
    }
}

// Whether the process, which lives, can end.
fn ends_next<L: Local>(l: &L) -> bool
    ensures { result ≡ trees.same_own_action trees.Ends (trees.own_action_at (L.ops.stop l.now)) }
{
    match l.stop() {
        Stop::Finish => true,
        Stop::Quiet
        | Stop::Next(_)
        | Stop::Put
        | Stop::Fork
        | Stop::Throw(_)
        | Stop::Trapped(_, _) => false,
    }
}

// Whether the process of this path can do a step of its own.
fn can_step<L: Local>(root: &NodeRef<'_, L>, path: &Path) -> bool
    requires sound { SoundBelow L.ops root.now }
    ensures { result ≡ passes_there (can_do L.ops trees.Steps) (its_node L.ops root.now path.now) }
{
    match found_by(root, path) {
        None => false,
        Some(node) => match node.live() {
            None => false,
            Some(process) => steps_next(process),
        },
    }
}

// Whether the process of this path can end.
fn can_end<L: Local>(root: &NodeRef<'_, L>, path: &Path) -> bool
    requires sound { SoundBelow L.ops root.now }
    ensures { result ≡ passes_there (can_do L.ops trees.Ends) (its_node L.ops root.now path.now) }
{
    match found_by(root, path) {
        None => false,
        Some(node) => match node.live() {
            None => false,
            Some(process) => ends_next(process),
        },
    }
}

// Whether the fork of the process of this path can close.
fn can_close<L: Local>(root: &NodeRef<'_, L>, path: &Path) -> bool
    requires sound { SoundBelow L.ops root.now }
    ensures { result ≡ passes_there by_path.can_close (its_node L.ops root.now path.now) }
{
    match found_by(root, path) {
        None => false,
        Some(node) => node.can_close(),
    }
}

// Whether the process that declared the channel is ready on it.
fn can_meet<L: Local>(root: &NodeRef<'_, L>, c: &Chan) -> bool
    requires sound { SoundBelow L.ops root.now }
    ensures { result ≡ passes_there (nodes.ready L.ops c.now.channel) (its_node L.ops root.now c.now.channel.home) }
{
    match found_by(root, c.home()) {
        None => false,
        Some(node) => node.is_ready(c),
    }
}

// Whether a process below this one can be poisoned: the one that is found by the branch of this place, and
// from there by the branches of the pairs.
fn can_poison_below<L: Local>(
    node: &NodeRef<'_, L>,
    place: usize,
    pairs: &[(u32, u32)],
    c: &Chan,
) -> bool
    ensures { result ≡ can_poison_below L.ops c.now.channel place (branches pairs.now) node.now }
{
    let Some((first, rest)) = pairs.split_first() else {
        return node.can_poison(place, c);
    };
    match node.child(place) {
        None => false,
        Some(child) => can_poison_below(&child, first.1 as usize, rest, c),
    }
}

// Whether the child of this path can be poisoned on the channel; some process has the path. The root is no child.
fn can_poison_by<L: Local>(root: &NodeRef<'_, L>, path: &Path, c: &Chan) -> bool
    requires has { has_path L.ops path.now (led_to L.ops root.now path.now) ≡ true }
    ensures { result ≡ by_path.can_poison_by L.ops c.now.channel root.now (route (L.ops.path (nodes.state root.now)) path.now) }
{
    let front = root.process().path().pairs().len();
    match behind(path.pairs(), front).split_first() {
        // the root is no child
        None => false,
        Some((first, rest)) => can_poison_below(root, first.1 as usize, rest, c),
    }
}

// Whether the child of this path can be poisoned on the channel.
fn can_poison<L: Local>(root: &NodeRef<'_, L>, path: &Path, c: &Chan) -> bool
    requires sound { SoundBelow L.ops root.now }
    ensures { result ≡ by_path.can_happen L.ops (trees.Poison path.now c.now.channel) root.now }
{
    match found_by(root, path) {
        None => false,
        Some(_) => can_poison_by(root, path, c),
    }
}

/// Whether the event is enabled in the tree of this root. It takes no memory.
pub(crate) fn can_happen<L: Local>(root: &NodeRef<'_, L>, event: &Event) -> bool
    requires sound { SoundBelow L.ops root.now }
    ensures { result ≡ by_path.can_happen L.ops (event_of event.now) root.now }
{
    match event {
        Event::Own(path) => can_step(root, path),
        Event::Meet(chan) => can_meet(root, chan),
        Event::Poison(path, chan) => can_poison(root, path, chan),
        Event::Close(path) => can_close(root, path),
        Event::End(path) => can_end(root, path),
    }
}
