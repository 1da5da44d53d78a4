// The first event of the walk from a process, lent out of the states.
ghost use Rattle.std.specs.Prelude.{◌≡◌, None, IfOk};
ghost use Rattle.std.specs.Option.{option_copied, option_map};
ghost use Rattle.shim_semantics.specs.Nodes.{Forked, goes, all_done, ready};
ghost use Rattle.shim_tree.specs.NodeStatus.{node, nodes, together};
ghost use Rattle.shim_run_log.specs.Events.{event_of};
ghost use Rattle.shim_tree.specs.Beside.{nth_child};
ghost use Rattle.shim_semantics.specs.Walks.{as_list, head, own_events, here, waited, poisons_of, walk};
ghost use Rattle.shim_semantics.specs.Endings.{is_empty};
ghost use Rattle.shim_tree.specs.Finding.{unnamed_channel, or_sooner, least, found_event};
ghost use Rattle.shim_tree.specs.Searching.{passes};

use crate::doom::is_doomed;
use crate::node_status::NodeStatus;
use crate::ready::{is_ready, stands_at, waits_at};
use shim_base::{Chan, NoMemory, Path};
use shim_local::{Local, Stop};
use shim_run_log::Event;

/// An event as the search finds it: its path or channel is one that some state has.
#[derive(Drop)]
pub(crate) enum Found<'a> {
    Own(&'a Path),
    Meet(&'a Chan),
    Poison(&'a Path, &'a Chan),
    Close(&'a Path),
    End(&'a Path),
}

impl Found<'_> {
    /// The event, with a path or channel of its own.
    pub(crate) fn to_event(&self) -> Result<Event, NoMemory>
        ensures { IfOk result (λ event. event_of event ≡ found_event self.now) }
    {
        match self {
            Found::Own(path) => Ok(Event::Own(path.copy()?)),
            Found::Meet(chan) => Ok(Event::Meet(chan.copy()?)),
            Found::Poison(path, chan) => Ok(Event::Poison(path.copy()?, chan.copy()?)),
            Found::Close(path) => Ok(Event::Close(path.copy()?)),
            Found::End(path) => Ok(Event::End(path.copy()?)),
        }
    }
}

/// What a channel is to pass at which some process stands.
#[derive(Drop)]
pub(crate) enum Test<'a, L> {
    /// This process, which has forked, declared the channel and is ready on it.
    Meets(&'a L, &'a NodeStatus<L>),
    /// Of these children of a process the one in this place, which is given, too, is ready on the
    /// channel and doomed on it.
    Poisons(&'a L, &'a [L], &'a [NodeStatus<L>], usize, &'a L),
}

/// What a live process can do: a step of its own, its end, or the rendezvous at which it waits, if it
/// declared that channel.
pub(crate) fn own_event<L: Local>(l: &L) -> Option<Found<'_>>
    ensures { option_map found_event result ≡ head (own_events (L.ops.path l.now) (L.ops.stop l.now)) }
{
    match l.stop() {
        Stop::Next(c) => {
            if c.home() == l.path() {
                Some(Found::Meet(c))
            } else {
                None
            }
        }
        Stop::Quiet | Stop::Put | Stop::Fork | Stop::Throw(_) | Stop::Trapped(_, _) => {
            Some(Found::Own(l.path()))
        }
        Stop::Finish => Some(Found::End(l.path())),
    }
}

// Whether a process with this status has neither ended nor died.
fn is_going<L>(status: &NodeStatus<L>) -> bool
    ensures { (l : L) → result ≡ goes (node l status.now) }
{
    match status {
        NodeStatus::Live | NodeStatus::Forked(_, _) => true,
        NodeStatus::Ended | NodeStatus::Dead(_) => false,
    }
}

// Whether the child in this place has neither ended nor died, given what came of the children.
fn is_going_at<L>(statuses: &[NodeStatus<L>], i: usize) -> bool
    ensures { (l : L) → result ≡ goes (nth_child l (nodes statuses.now) i) }
{
    if i < statuses.len() {
        is_going(&statuses[i])
    } else {
        true
    }
}

/// Whether each of these children has ended or died.
pub(crate) fn are_done<L>(children: &[L], statuses: &[NodeStatus<L>]) -> bool
    ensures { result ≡ all_done (together children.now (nodes statuses.now)) }
{
    for i in 0..children.len() {
        if is_going_at(statuses, i) {
            return false;
        }
    }
    true
}

/// Whether the child in this place is ready on the channel.
pub(crate) fn is_ready_at<L: Local>(
    child: &L,
    statuses: &[NodeStatus<L>],
    i: usize,
    c: &Chan,
) -> bool
    ensures { result ≡ ready L.ops c.now.channel (nth_child child.now (nodes statuses.now) i) }
{
    if i < statuses.len() {
        is_ready(child, &statuses[i], c)
    } else {
        waits_at(child, c)
    }
}

/// Whether the channel passes the test.
pub(crate) fn is_passing<L: Local>(test: &Test<'_, L>, c: &Chan) -> bool
    ensures { result ≡ passes L.ops test.now c.now.channel }
{
    match test {
        Test::Meets(home, fork) => c.home() == home.path() && is_ready(*home, *fork, c),
        Test::Poisons(l, children, statuses, i, child) => {
            is_ready_at(*child, *statuses, *i, c)
                && is_doomed(*children, *statuses, *i, c, l.handlers())
        }
    }
}

// The channel, or the best until now if that is sooner.
fn sooner<'a>(c: &'a Chan, best: Option<&'a Chan>) -> &'a Chan
    ensures { result.now.channel ≡ or_sooner c.now.channel (unnamed_channel (option_copied best.entry)) }
{
    match best {
        None => c,
        Some(d) if c < d => c,
        Some(d) => d,
    }
}

// The best until now, or the channel at which some process stands, if that passes and is sooner.
fn with_one<'a, L: Local>(
    test: &Test<'_, L>,
    c: Option<&'a Chan>,
    best: Option<&'a Chan>,
) -> Option<&'a Chan>
    ensures { unnamed_channel (option_copied result) ≡ least (passes L.ops test.now) (unnamed_channel (option_copied best.entry)) (as_list (option_copied c.entry)) }
{
    match c {
        None => best,
        Some(d) => {
            if is_passing(test, d) {
                Some(sooner(d, best))
            } else {
                best
            }
        }
    }
}

// The first in order of the channels that pass, of those at which live processes stand at and below
// `l`, and the best until now. One look at each of them suffices.
fn least_below<'a, L: Local>(
    l: &'a L,
    status: &'a NodeStatus<L>,
    test: &Test<'_, L>,
    best: Option<&'a Chan>,
) -> Option<&'a Chan>
    ensures { unnamed_channel (option_copied result) ≡ least (passes L.ops test.now) (unnamed_channel (option_copied best.entry)) (waited L.ops (node l.now status.now)) }
{
    match status {
        NodeStatus::Live => with_one(test, stands_at(l), best),
        NodeStatus::Ended | NodeStatus::Dead(_) => best,
        NodeStatus::Forked(children, statuses) => {
            let mut found = best;
            for i in 0..children.len() {
                if i < statuses.len() {
                    found = least_below(&children[i], &statuses[i], test, found);
                } else {
                    found = with_one(test, stands_at(&children[i]), found);
                }
            }
            found
        }
    }
}

// The first in order of the channels that pass, of those at which live processes stand at and below the
// child in this place.
fn least_at<'a, L: Local>(
    child: &'a L,
    statuses: &'a [NodeStatus<L>],
    i: usize,
    test: &Test<'_, L>,
) -> Option<&'a Chan>
    ensures { unnamed_channel (option_copied result) ≡ least (passes L.ops test.now) None (waited L.ops (nth_child child.now (nodes statuses.now) i)) }
{
    if i < statuses.len() {
        least_below(child, &statuses[i], test, None)
    } else {
        with_one(test, stands_at(child), None)
    }
}

// What a process that has forked can do first: its close, where all children are done, and else the
// rendezvous of the first of the channels that it declared and on which it is ready.
fn found_here<'a, L: Local>(
    l: &'a L,
    status: &'a NodeStatus<L>,
    children: &'a [L],
    statuses: &'a [NodeStatus<L>],
) -> Option<Found<'a>>
    requires { node l.now status.now ≡ Forked l.now (together children.now (nodes statuses.now)) }
    ensures { option_map found_event result ≡ head (here L.ops (node l.now status.now)) }
{
    if are_done(children, statuses) {
        return Some(Found::Close(l.path()));
    }
    let test = Test::Meets(l, status);
    match least_below(l, status, &test, None) {
        Some(c) => Some(Found::Meet(c)),
        None => None,
    }
}

// The poison of the child in this place, on the first of the channels on which it is ready and
// doomed.
fn poison_of<'a, L: Local>(
    l: &'a L,
    children: &'a [L],
    statuses: &'a [NodeStatus<L>],
    i: usize,
    child: &'a L,
) -> Option<Found<'a>>
    ensures { option_map found_event result ≡ head (poisons_of L.ops l.now (together children.now (nodes statuses.now)) i (nth_child child.now (nodes statuses.now) i)) }
{
    let test = Test::Poisons(l, children, statuses, i, child);
    match least_at(child, statuses, i, &test) {
        Some(c) => Some(Found::Poison(child.path(), c)),
        None => None,
    }
}

/// The first event of the walk from this process. It takes no memory.
///
/// At a fork that is what the process there can do first, and else the first event of a child: its
/// poison, or the first event of the walk from it.
pub(crate) fn found_first<'a, L: Local>(l: &'a L, status: &'a NodeStatus<L>) -> Option<Found<'a>>
    ensures { option_map found_event result ≡ head (walk L.ops (node l.now status.now)) }
{
    match status {
        NodeStatus::Live => own_event(l),
        NodeStatus::Ended | NodeStatus::Dead(_) => None,
        NodeStatus::Forked(children, statuses) => {
            let states = children.as_slice();
            let came = statuses.as_slice();
            let at_fork = found_here(l, status, states, came);
            let acts = at_fork.is_some();
            if acts {
                return at_fork;
            }
            for i in 0..children.len() {
                let child = &children[i];
                let poison = poison_of(l, states, came, i, child);
                let poisoned = poison.is_some();
                if poisoned {
                    return poison;
                }
                let found = if i < statuses.len() {
                    found_first(child, &statuses[i])
                } else {
                    own_event(child)
                };
                if found.is_some() {
                    return found;
                }
            }
            None
        }
    }
}

/// Whether the walk from this process has no event. It takes no memory.
pub(crate) fn is_quiescent<L: Local>(l: &L, status: &NodeStatus<L>) -> bool
    ensures { result ≡ is_empty (walk L.ops (node l.now status.now)) }
{
    found_first(l, status).is_none()
}
