// The process of a path.
ghost use Rattle.std.specs.Prelude.{◌≡◌, ◌≤◌, ◌↔◌, IsTrue, drop, length};
ghost use Rattle.shim_semantics.specs.Places.{SoundBelow, at, branches};
ghost use Rattle.shim_tree.specs.ByPath.{its_node};

use shim_base::Path;
use shim_local::Local;
use shim_tree::{NodeRef, Tree};

// The node to which the branches of these pairs lead from this one, if there is one. The pairs' fork numbers don't
// count.
fn node_at<'a, L: Local>(node: NodeRef<'a, L>, pairs: &[(u32, u32)]) -> Option<NodeRef<'a, L>>
    ensures { result ≡ at (branches pairs.now) node.entry }
{
    let Some((first, rest)) = pairs.split_first() else {
        return Some(node);
    };
    match node.child(first.1 as usize) {
        None => None,
        Some(child) => node_at(child, rest),
    }
}

// The pairs without the first `front` of them.
fn behind(pairs: &[(u32, u32)], front: usize) -> &[(u32, u32)]
    requires { front ≤ length pairs.now }
    ensures { result.now ≡ drop front pairs.now }
{
    &pairs[front..]
}

// Whether the process is that of the path.
fn is_of<L: Local>(process: &L, path: &Path) -> bool
    ensures { IsTrue result ↔ (L.ops.path process.now ≡ path.now) }
{
    process.path() == path
}

/// The process of this path in the tree, if there is one. The look-up takes no memory.
pub(crate) fn found_by<'a, L: Local>(tree: &'a Tree<L>, path: &Path) -> Option<NodeRef<'a, L>>
    requires sound { SoundBelow L.ops tree.now.root }
    ensures { result ≡ its_node L.ops tree.now.root path.now }
{
    let root = tree.root();
    let front = root.process().path().pairs().len();
    if path.pairs().len() < front {
        return None;
    }
    match node_at(root, behind(path.pairs(), front)) {
        None => None,
        Some(node) => {
            if is_of(node.process(), path) {
                Some(node)
            } else {
                None
            }
        }
    }
}
