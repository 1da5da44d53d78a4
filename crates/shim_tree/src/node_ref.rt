// The processes of a tree, lent one by one.
ghost use Rattle.std.specs.Prelude.{◌≡◌, Some};
ghost use Rattle.std.specs.Option.{option_copied};
ghost use Rattle.shim_semantics.specs.Nodes as nodes;
ghost use Rattle.shim_tree.specs.ByPath as by_path;
ghost use Rattle.shim_tree.specs.ChildCounts.{live_in};
ghost use Rattle.shim_tree.specs.NodeRefs.{child_in, child_count};
ghost use Rattle.shim_tree.specs.NodeStatus.{node};
ghost use Rattle.shim_tree.specs.Views.{node_view, viewed, fork_of, last_fork, as_word};

use crate::doom::is_doomed;
use crate::node_status::NodeStatus;
use crate::ready::{is_ready, waits_at};
use crate::seek::{are_done, is_ready_at};
use crate::view::ProcessView;
use shim_base::{Chan, Path};
use shim_local::Local;
use std::marker::Model;

/// A process of a tree, with what came of it and those below it. Contracts see the node.
#[derive(Drop)]
pub struct NodeRef<'a, L> {
    process: &'a L,
    // `None` is a live process, as is a child without a status in the list of a fork
    status: Option<&'a NodeStatus<L>>,
}

impl<'a, L> Model for NodeRef<'a, L> {
    ghost use Rattle.std.specs.Option.{option_copied};
    ghost use Rattle.shim_semantics.specs.Nodes.{Node};
    ghost use Rattle.shim_semantics.proofs.Codes.{node_code};
    ghost use Rattle.shim_tree.specs.NodeRefs.{lent_node};

    ghost Value = { Node L };

    ghost coded = { node_code L.code };

    ghost view = { λ n. lent_node n.process.now (option_copied n.status) };
}

impl<'a, L: Local> NodeRef<'a, L> {
    /// The process itself, whatever came of it.
    pub fn process(&self) -> &'a L
        ensures { result.now ≡ nodes.state self.now }
    {
        self.process
    }

    /// The process, if it lives.
    pub fn live(&self) -> Option<&'a L>
        ensures { option_copied result ≡ live_in (Some self.now) }
    {
        match self.status {
            None | Some(NodeStatus::Live) => Some(self.process),
            Some(NodeStatus::Ended) | Some(NodeStatus::Dead(_)) | Some(NodeStatus::Forked(_, _)) =>
                { None }
        }
    }

    /// Whether it has neither ended nor died.
    pub fn goes(&self) -> bool
        ensures { result ≡ nodes.goes self.now }
    {
        match self.status {
            None | Some(NodeStatus::Live) | Some(NodeStatus::Forked(_, _)) => true,
            Some(NodeStatus::Ended) | Some(NodeStatus::Dead(_)) => false,
        }
    }

    /// How many children it has.
    pub fn children(&self) -> usize
        ensures { result ≡ child_count self.now }
    {
        match self.status {
            None => 0,
            Some(status) => count_of(status),
        }
    }

    /// The child in this place, from 0; `None` of a process that hasn't forked, and after the last child.
    pub fn child(&self, at: usize) -> Option<NodeRef<'a, L>>
        ensures { result ≡ child_in at self.now }
    {
        match self.status {
            None => None,
            Some(status) => child_of(status, at),
        }
    }

    /// This reference once more.
    pub(crate) fn again(&self) -> NodeRef<'a, L>
        ensures { result ≡ self.now }
    {
        NodeRef {
            process: self.process,
            status: self.status,
        }
    }

    /// What came of it, without those below it.
    pub(crate) fn view(&self) -> ProcessView<'a, L>
        ensures { viewed result ≡ node_view L.ops self.now }
    {
        match self.status {
            None => ProcessView::Live(self.process),
            Some(status) => view_of(self.process, status),
        }
    }

    /// Whether it is ready on the channel.
    pub(crate) fn is_ready(&self, c: &Chan) -> bool
        ensures { result ≡ nodes.ready L.ops c.now.channel self.now }
    {
        match self.status {
            None => waits_at(self.process, c),
            Some(status) => is_ready(self.process, status, c),
        }
    }

    /// Whether it has forked, and each of its children has ended or died.
    pub(crate) fn can_close(&self) -> bool
        ensures { result ≡ by_path.can_close self.now }
    {
        match self.status {
            None => false,
            Some(status) => can_close(status),
        }
    }

    /// Whether it has forked, and its child in this place is ready and doomed on the channel.
    pub(crate) fn can_poison(&self, place: usize, c: &Chan) -> bool
        ensures { result ≡ by_path.can_poison_at L.ops c.now.channel place self.now }
    {
        match self.status {
            None => false,
            Some(status) => can_poison(self.process, status, place, c),
        }
    }
}

/// The process with this status, lent.
pub(crate) fn lend_process<'a, L: Local>(
    process: &'a L,
    status: &'a NodeStatus<L>,
) -> NodeRef<'a, L>
    ensures { result ≡ node process.now status.now }
{
    NodeRef {
        process,
        status: Some(status),
    }
}

// How many children a process with this status has.
fn count_of<L: Local>(status: &NodeStatus<L>) -> usize
    ensures { (l : L) → result ≡ child_count (node l status.now) }
{
    match status {
        NodeStatus::Live | NodeStatus::Ended | NodeStatus::Dead(_) => 0,
        NodeStatus::Forked(children, _) => children.len(),
    }
}

// The child in this place of the fork that came of a process, if it has forked.
fn child_of<'a, L: Local>(status: &'a NodeStatus<L>, at: usize) -> Option<NodeRef<'a, L>>
    ensures { (l : L) → result ≡ child_in at (node l status.now) }
{
    match status {
        NodeStatus::Live | NodeStatus::Ended | NodeStatus::Dead(_) => None,
        NodeStatus::Forked(children, statuses) => {
            if at >= children.len() {
                return None;
            }
            let status = if at < statuses.len() {
                Some(&statuses[at])
            } else {
                None
            };
            Some(NodeRef {
                process: &children[at],
                status,
            })
        }
    }
}

// The number of the fork of which the process of this path is a child.
fn last_fork(path: &Path) -> u32
    ensures { result ≡ last_fork path.now }
{
    match path.pairs().last() {
        None => 0,
        Some(pair) => pair.0,
    }
}

// The number of the fork of which these are the children.
fn fork_of<L: Local>(children: &[L]) -> u32
    ensures { result ≡ fork_of L.ops children.now }
{
    match children.first() {
        None => 0,
        Some(child) => last_fork(child.path()),
    }
}

// A count, or 4,294,967,295 where it is greater.
fn as_word(count: usize) -> u32
    ensures { result ≡ as_word count }
{
    count.min(4294967295) as u32
}

// What came of the process, without those below it.
fn view_of<'a, L: Local>(process: &'a L, status: &NodeStatus<L>) -> ProcessView<'a, L>
    ensures { viewed result ≡ node_view L.ops (node process.now status.now) }
{
    match status {
        NodeStatus::Live => ProcessView::Live(process),
        NodeStatus::Ended => ProcessView::Ended(process),
        NodeStatus::Dead(death) => ProcessView::Dead(process, *death),
        NodeStatus::Forked(children, _) => {
            let fork = fork_of(children.as_slice());
            ProcessView::Forked(process, fork, as_word(children.len()))
        }
    }
}

// Whether a process with this status has forked, and each of its children has ended or died.
fn can_close<L>(status: &NodeStatus<L>) -> bool
    ensures { (l : L) → result ≡ by_path.can_close (node l status.now) }
{
    match status {
        NodeStatus::Live | NodeStatus::Ended | NodeStatus::Dead(_) => false,
        NodeStatus::Forked(children, statuses) => are_done(
            children.as_slice(),
            statuses.as_slice(),
        ),
    }
}

// Whether the process has forked, and its child in this place is ready and doomed on the channel.
fn can_poison<L: Local>(process: &L, status: &NodeStatus<L>, place: usize, c: &Chan) -> bool
    ensures { result ≡ by_path.can_poison_at L.ops c.now.channel place (node process.now status.now) }
{
    match status {
        NodeStatus::Live | NodeStatus::Ended | NodeStatus::Dead(_) => false,
        NodeStatus::Forked(children, statuses) => {
            if place >= children.len() {
                return false;
            }
            let ready = is_ready_at(&children[place], statuses.as_slice(), place, c);
            let label = process.handlers();
            ready && is_doomed(children.as_slice(), statuses.as_slice(), place, c, label)
        }
    }
}
