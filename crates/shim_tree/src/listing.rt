// All events of the walk from a process, in its order.
ghost use Rattle.std.specs.Prelude.{◌≡◌, ◌++◌, ◌∷◌, [], IfOk, OnOk, cond, map, filter};
ghost use Rattle.std.specs.Option.{option_copied};
ghost use Rattle.shim_semantics.specs.Nodes.{Forked, all_done};
ghost use Rattle.shim_tree.specs.NodeStatus.{node, nodes, together};
ghost use Rattle.shim_run_log.specs.Events.{event_of};
ghost use Rattle.shim_tree.specs.Beside.{nth_child};
ghost use Rattle.shim_semantics.specs.Trees as trees;
ghost use Rattle.shim_semantics.specs.Walks.{as_list, own_events, here, waited, poisons_of, walk};
ghost use Rattle.shim_tree.specs.Inserted.{inserted, all_inserted};
ghost use Rattle.shim_tree.specs.Searching.{passes, channels, found_list};

use crate::node_status::NodeStatus;
use crate::ready::stands_at;
use crate::seek::{Found, Test, are_done, is_passing, own_event};
use shim_base::{Chan, List, NoMemory, Path};
use shim_local::Local;
use shim_run_log::Event;
use std::alloc::Global;
use std::cmp::Ordering;

// Puts the channel into its place among others, unless it is there.
fn put_in_order<'a>(chans: &mut Vec<&'a Chan>, c: &'a Chan) -> Result<(), NoMemory>
    ensures { OnOk result (channels chans.new.items ≡ inserted c.now.channel (channels chans.old.items)) }
{
    for i in 0..chans.len() {
        match c.cmp(chans[i]) {
            Ordering::Less => {
                chans.insert(i, c)?;
                return Ok(());
            }
            Ordering::Equal => {
                return Ok(());
            }
            Ordering::Greater => {}
        }
    }
    chans.push(c)?;
    Ok(())
}

// Puts the channel at which some process stands into its place among others, if there is one and it
// passes.
fn put_one<'a, L: Local>(
    test: &Test<'_, L>,
    c: Option<&'a Chan>,
    chans: &mut Vec<&'a Chan>,
) -> Result<(), NoMemory>
    ensures { OnOk result (channels chans.new.items ≡ all_inserted (channels chans.old.items) (filter (passes L.ops test.now) (as_list (option_copied c.entry)))) }
{
    if let Some(d) = c {
        if is_passing(test, d) {
            put_in_order(chans, d)?;
        }
    }
    Ok(())
}

// Puts each passing channel at which a live process stands at or below `l` into its place among others.
fn put_below<'a, L: Local>(
    l: &'a L,
    status: &'a NodeStatus<L>,
    test: &Test<'_, L>,
    chans: &mut Vec<&'a Chan>,
) -> Result<(), NoMemory>
    ensures { OnOk result (channels chans.new.items ≡ all_inserted (channels chans.old.items) (filter (passes L.ops test.now) (waited L.ops (node l.now status.now)))) }
{
    match status {
        NodeStatus::Live => put_one(test, stands_at(l), chans),
        NodeStatus::Ended => Ok(()),
        NodeStatus::Dead(_) => Ok(()),
        NodeStatus::Forked(children, statuses) => {
            for i in 0..children.len() {
                if i < statuses.len() {
                    put_below(&children[i], &statuses[i], test, chans)?;
                } else {
                    put_one(test, stands_at(&children[i]), chans)?;
                }
            }
            Ok(())
        }
    }
}

// Puts each passing channel at which a live process stands at the child in this place or below it into
// its place among others.
fn put_at<'a, L: Local>(
    child: &'a L,
    statuses: &'a [NodeStatus<L>],
    i: usize,
    test: &Test<'_, L>,
    chans: &mut Vec<&'a Chan>,
) -> Result<(), NoMemory>
    ensures { OnOk result (channels chans.new.items ≡ all_inserted (channels chans.old.items) (filter (passes L.ops test.now) (waited L.ops (nth_child child.now (nodes statuses.now) i)))) }
{
    if i < statuses.len() {
        put_below(child, &statuses[i], test, chans)
    } else {
        put_one(test, stands_at(child), chans)
    }
}

// Adds the event, if there is one.
fn push_found(found: Option<Found<'_>>, events: &mut List<Event>) -> Result<(), NoMemory>
    ensures { OnOk result (map event_of events.new ≡ map event_of events.old ++ found_list found.entry) }
{
    if let Some(found) = found {
        let event = found.to_event()?;
        events.push(event)?;
    }
    Ok(())
}

// Adds what a live process can do.
fn push_own<L: Local>(l: &L, events: &mut List<Event>) -> Result<(), NoMemory>
    ensures { OnOk result (map event_of events.new ≡ map event_of events.old ++ own_events (L.ops.path l.now) (L.ops.stop l.now)) }
{
    push_found(own_event(l), events)
}

// Adds a rendezvous on each of these channels.
fn push_meets(chans: &[&Chan], events: &mut List<Event>) -> Result<(), NoMemory>
    ensures { OnOk result (map event_of events.new ≡ map event_of events.old ++ map trees.Meet (channels chans.now)) }
{
    for c in chans.iter() {
        let event = Found::Meet(c).to_event()?;
        events.push(event)?;
    }
    Ok(())
}

// Adds a poison of the process of this path on each of these channels.
fn push_poisons(path: &Path, chans: &[&Chan], events: &mut List<Event>) -> Result<(), NoMemory>
    ensures { OnOk result (map event_of events.new ≡ map event_of events.old ++ map (trees.Poison path.now) (channels chans.now)) }
{
    for c in chans.iter() {
        let event = Found::Poison(path, c).to_event()?;
        events.push(event)?;
    }
    Ok(())
}

// Adds the close of this process, which has forked, if its children are done.
fn push_close<L: Local>(
    l: &L,
    children: &[L],
    statuses: &[NodeStatus<L>],
    events: &mut List<Event>,
) -> Result<(), NoMemory>
    ensures { OnOk result (map event_of events.new ≡ map event_of events.old ++ cond (all_done (together children.now (nodes statuses.now))) (trees.Close (L.ops.path l.now) ∷ []) []) }
{
    if are_done(children, statuses) {
        push_found(Some(Found::Close(l.path())), events)
    } else {
        Ok(())
    }
}

// Adds what a process that has forked can do: its close, and its rendezvous.
fn push_here<L: Local>(
    alloc: Global,
    l: &L,
    status: &NodeStatus<L>,
    children: &[L],
    statuses: &[NodeStatus<L>],
    events: &mut List<Event>,
) -> Result<(), NoMemory>
    requires { node l.now status.now ≡ Forked l.now (together children.now (nodes statuses.now)) }
    ensures { OnOk result (map event_of events.new ≡ map event_of events.old ++ here L.ops (node l.now status.now)) }
{
    push_close(l, children, statuses, events)?;
    let mut chans = Vec::new(alloc);
    put_below(l, status, &Test::Meets(l, status), &mut chans)?;
    push_meets(chans.as_slice(), events)
}

// Adds the poisons of the child in this place.
fn push_poisons_of<L: Local>(
    alloc: Global,
    l: &L,
    children: &[L],
    statuses: &[NodeStatus<L>],
    i: usize,
    child: &L,
    events: &mut List<Event>,
) -> Result<(), NoMemory>
    ensures { OnOk result (map event_of events.new ≡ map event_of events.old ++ poisons_of L.ops l.now (together children.now (nodes statuses.now)) i (nth_child child.now (nodes statuses.now) i)) }
{
    let test = Test::Poisons(l, children, statuses, i, child);
    let mut chans = Vec::new(alloc);
    put_at(child, statuses, i, &test, &mut chans)?;
    push_poisons(child.path(), chans.as_slice(), events)
}

// Adds the events of the walk from this process.
fn push_walk<L: Local>(
    alloc: Global,
    l: &L,
    status: &NodeStatus<L>,
    events: &mut List<Event>,
) -> Result<(), NoMemory>
    ensures { OnOk result (map event_of events.new ≡ map event_of events.old ++ walk L.ops (node l.now status.now)) }
{
    match status {
        NodeStatus::Live => push_own(l, events),
        NodeStatus::Ended => Ok(()),
        NodeStatus::Dead(_) => Ok(()),
        NodeStatus::Forked(children, statuses) => {
            let states = children.as_slice();
            let came = statuses.as_slice();
            push_here(alloc, l, status, states, came, events)?;
            for i in 0..children.len() {
                let child = &children[i];
                push_poisons_of(alloc, l, states, came, i, child, events)?;
                if i < statuses.len() {
                    push_walk(alloc, child, &statuses[i], events)?;
                } else {
                    push_own(child, events)?;
                }
            }
            Ok(())
        }
    }
}

/// The events of the walk from this process.
pub(crate) fn enabled<L: Local>(
    alloc: Global,
    l: &L,
    status: &NodeStatus<L>,
) -> Result<List<Event>, NoMemory>
    ensures { IfOk result (λ events. map event_of events ≡ walk L.ops (node l.now status.now)) }
{
    let mut events = List::new(alloc);
    push_walk(alloc, l, status, &mut events)?;
    Ok(events)
}
