// Laws of the tree that records represent.
ghost use Rattle.shim_laws_table.specs.RepresentedTree.{TreeIsComputed};

use shim_local::Local;

/// Where records represent a tree, it is the one that is computed from them, fork by fork from the root's record.
pub fn tree_is_computed<L: Local>()
    ensures { TreeIsComputed L.ops }
{}
