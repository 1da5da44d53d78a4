// A net over the state of a run.
ghost use Rattle.std.specs.Prelude.{◌≡◌, ◌≤◌, ◌-◌, ◌+◌, [], IfOk};
ghost use Rattle.shim_semantics.specs.Sound.{SharesItsOwn};
ghost use Rattle.shim_semantics.specs.Trees.{steps};
ghost use Rattle.shim_run_state.specs.RunStates.{tree_in, RunStateInvariant};
ghost use Rattle.shim_net.specs.Nets.{started, reserved_in};

use crate::open_grant::OpenGrant;
use shim_base::NoMemory;
use shim_local::Local;
use shim_run_log::Entry;
use shim_run_state::RunState;
use std::alloc::Global;
use std::marker::Model;
use std::snapshot::Snapshot;

/// A tree of processes that began with one process and a budget of steps, the journal of what was done
/// in it since, and the grants that are open. Contracts see these, and its type keeps that the tree is
/// the replay of the journal, that the budget isn't passed, that each process of which a grant is open
/// is as it was given out, and that no two of these have one number.
#[derive(Drop)]
pub struct Net<L: Local> {
    pub(crate) root: Snapshot<L>,
    pub(crate) budget: u64,
    // of which the processes of all open grants are checked out, and no others
    pub(crate) tree: RunState<L>,
    // with room for an entry of each open grant
    pub(crate) journal: Vec<Entry>,
    pub(crate) grants: Vec<OpenGrant<L>>,
    // the most steps of all open grants, added up
    pub(crate) reserved: u64,
}

impl<L: Local> Model for Net<L> {
    ghost use Rattle.std.specs.Prelude.{◌≡◌, ◌≤◌, ◌+◌, map, vec_len, vec_capacity};
    ghost use Rattle.shim_net.specs.Entries.{entry_of};
    ghost use Rattle.shim_net.specs.Nets.{NetView, IsNet, reserved_in};
    ghost use Rattle.shim_run_state.specs.RunStates.{tree_in};
    ghost use Rattle.shim_net.specs.CheckingOut.{AreCheckedOut};
    ghost use Rattle.shim_net.specs.Codes.{net_code};

    ghost Value = { NetView L };

    ghost coded = { net_code L.code };

    ghost view = { λ n. record { root = n.root.value; budget = n.budget; tree = tree_in L.ops n.tree; journal = map entry_of n.journal.items; grants = n.grants.items } };

    ghost invariant = { λ n. IsNet L.ops (record { root = n.root.value; budget = n.budget; tree = tree_in L.ops n.tree; journal = map entry_of n.journal.items; grants = n.grants.items })
        × (n.reserved ≡ reserved_in n.grants.items) × (vec_len n.journal + vec_len n.grants ≤ vec_capacity n.journal)
        × AreCheckedOut L.ops n.tree n.grants.items };
}

impl<L: Local> Net<L> {
    /// A net in which nothing has happened, with a budget in steps, 1 to 4,000,000. The root has the
    /// path of a root, and shares channels of its own alone.
    pub fn start(alloc: Global, root: L, budget: u64) -> Result<Net<L>, NoMemory>
        requires path { L.ops.path root ≡ [] }
        requires own { SharesItsOwn L.ops root }
        requires budget { (1 ≤ budget) × (budget ≤ 4000000) }
        ensures { IfOk result (λ net. net ≡ started root budget) }
    {
        let begun = Snapshot::of(&root);
        let _path = root.path(); // its clause says that the root is sound
        let tree = RunState::start(alloc, root)?;
        Ok(Net {
            root: begun,
            budget,
            tree,
            journal: Vec::new(alloc),
            grants: Vec::new(alloc),
            reserved: 0,
        })
    }

    /// How many steps of the budget are neither taken nor reserved by an open grant.
    pub(crate) fn unreserved(&self) -> u64
        ensures left { result ≡ self.now.budget - (steps self.now.tree + reserved_in self.now.grants) }
        ensures fits { steps self.now.tree + reserved_in self.now.grants ≤ self.now.budget }
    {
        left_in(&self.tree, self.budget, self.reserved)
    }
}

/// How many steps of the budget are neither taken in the tree nor reserved. Its clauses say, too, what the
/// tree's type keeps.
pub(crate) fn left_in<L: Local>(tree: &RunState<L>, budget: u64, reserved: u64) -> u64
    requires { steps (tree_in L.ops tree.now) + reserved ≤ budget }
    ensures left { result ≡ budget - (steps (tree_in L.ops tree.now) + reserved) }
    ensures keeps { RunStateInvariant L.ops tree.now }
{
    budget - tree.steps() - reserved
}
