// What came of a process.
use shim_local::Death;

/// What came of a process. The states of the children lie together, so that a join can be lent them,
/// with their statuses in a list beside; a child that has none in it lives. So a fork, which can't be
/// undone, makes no list that could be refused.
#[derive(Drop)]
pub(crate) enum NodeStatus<L> {
    Live,
    Ended,
    Dead(Death),
    Forked(Vec<L>, Vec<NodeStatus<L>>),
}
