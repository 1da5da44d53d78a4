// Who holds up those that wait at a channel.
ghost use Rattle.std.specs.Prelude.{◌≡◌, ◌&&◌};
ghost use Rattle.shim_semantics.specs.Nodes.{goes, state};
ghost use Rattle.shim_waits.specs.Gathering.{any_child_shares};
ghost use Rattle.shim_waits.specs.Holding as holding;

use shim_base::Chan;
use shim_local::{Local, Stop};
use shim_tree::NodeRef;

// Whether the process stands at a channel, and that isn't `c`.
fn is_elsewhere<L: Local>(process: &L, c: &Chan) -> bool
    ensures { result ≡ holding.is_elsewhere (L.ops.stop process.now) c.now.channel }
{
    match process.stop() {
        Stop::Next(d) => d != c,
        Stop::Quiet
        | Stop::Put
        | Stop::Fork
        | Stop::Finish
        | Stop::Throw(_)
        | Stop::Trapped(_, _) => false,
    }
}

// Whether the process goes on and shares the channel.
fn goes_and_shares<L: Local>(node: &NodeRef<'_, L>, c: &Chan) -> bool
    ensures { result ≡ goes node.now && L.ops.shares (state node.now) c.now.channel }
{
    if !node.goes() {
        return false;
    }
    node.process().shares(c)
}

// Whether some child that goes on shares the channel.
fn any_child_shares<L: Local>(node: &NodeRef<'_, L>, c: &Chan) -> bool
    ensures { result ≡ any_child_shares L.ops c.now.channel node.now }
{
    for i in 0..node.children() {
        if let Some(child) = node.child(i) {
            if goes_and_shares(&child, c) {
                return true;
            }
        }
    }
    false
}

/// Whether the process holds up those that wait at the channel: it shares the channel, and lives and waits at another
/// one, or has forked and no child that goes on shares the channel.
pub(crate) fn holds_up<L: Local>(node: &NodeRef<'_, L>, c: &Chan) -> bool
    ensures { result ≡ holding.holds_up L.ops c.now.channel node.now }
{
    if !node.goes() {
        return false;
    }
    if !node.process().shares(c) {
        return false;
    }
    match node.live() {
        Some(process) => is_elsewhere(process, c),
        None => !any_child_shares(node, c),
    }
}
