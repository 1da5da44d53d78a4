// The counts of a new fork's children.
ghost use Rattle.std.specs.Prelude.{◌≡◌, ◌≤◌, ◌<◌, suc, None, ◌++◌, ◌&&◌, not, [], ◌∷◌, cond, if◌then◌else◌, length, IfOk, OnOk};
ghost use Rattle.shim_semantics.specs.Nodes.{is_next};
ghost use Rattle.shim_laws_table.specs.Counts.{fresh_tally};
ghost use Rattle.shim_records.specs.Pairs.{tally};
ghost use Rattle.shim_records.specs.Fresh.{shared_of, shared_given, channels, Rises, comes_after, IsOneMore, IsPaired, FreshPairs, FreshSharing, LooksAt};

use crate::pair::{Pair, Sharing};
use crate::receiving::is_at_channel;
use shim_base::{Chan, NoMemory};
use shim_local::Local;
use std::alloc::Global;
use std::cmp::Ordering;

// One more, where the test holds.
fn more(count: u32, test: bool) -> u32
    requires { count < 4294967295 }
    ensures { result ≡ (if test then suc count else count) }
{
    if test { count + 1 } else { count }
}

// Whether the process shares the channel, which `shares` says, and isn't at it.
fn isnt_ready<L: Local>(process: &L, chan: &Chan, shares: bool) -> bool
    ensures { result ≡ shares && not (is_next (L.ops.stop process.now) chan.now.channel) }
{
    shares && !is_at_channel(process, chan)
}

// What is known of who shares the channel after a look at the child with this branch. `before` was known before the
// look.
fn with_child<L: Local>(
    before: Sharing,
    branch: u32,
    child: &L,
    chan: &Chan,
    shares: bool,
) -> Sharing
    requires { shares ≡ L.ops.shares child.now chan.now.channel }
    ensures { LooksAt L.ops chan.now.channel branch child.now before result }
{
    if !shares {
        return before;
    }
    let first = before.first.min(branch);
    let source = if child.carries(chan) {
        branch
    } else {
        before.source
    };
    Sharing {
        first,
        last: branch,
        source,
    }
}

// The pair of a channel, of children that have done nothing yet.
fn counted<L: Local>(chan: Chan, children: &[L]) -> Pair
    requires few { length children.now ≤ 4294967295 }
    ensures chan { result.chan ≡ chan }
    ensures counts { tally result ≡ fresh_tally L.ops chan.channel children.now }
    ensures label { result.min_dead_label ≡ None }
    ensures sharing { FreshSharing L.ops chan.channel children.now result.sharing }
{
    let mut going = 0;
    let mut not_ready = 0;
    let mut sharing = Sharing {
        first: u32::MAX,
        last: 0,
        source: u32::MAX,
    };
    for i in 0..children.len() {
        let child = &children[i];
        let shares = child.shares(&chan);
        going = more(going, shares);
        not_ready = more(not_ready, isnt_ready(child, &chan, shares));
        sharing = with_child(sharing, i as u32, child, &chan, shares);
    }
    Pair {
        chan,
        going,
        not_ready,
        dead: 0,
        min_dead_label: None,
        sharing,
    }
}

// Puts the channel after the others, if the process shares it.
fn gather_one<L: Local>(process: &L, chan: &Chan, chans: &mut Vec<Chan>) -> Result<(), NoMemory>
    ensures { OnOk result (chans.new.items ≡ chans.old.items ++ cond (L.ops.shares process.now chan.now.channel) (chan.now ∷ []) []) }
{
    if process.shares(chan) {
        chans.push(chan.copy()?)?;
    }
    Ok(())
}

// Puts the channels that a child was given and its parent shares after the others.
fn gather<L: Local>(parent: &L, child: &L, chans: &mut Vec<Chan>) -> Result<(), NoMemory>
    ensures { OnOk result (chans.new.items ≡ chans.old.items ++ shared_of L.ops parent.now (L.ops.given child.now)) }
{
    for at in 0..usize::MAX {
        match child.given(at) {
            None => return Ok(()),
            Some(chan) => gather_one(parent, chan, chans)?,
        }
    }
    Err(NoMemory)
}

// The channels that the children were given and their parent shares, child after child.
fn gather_all<L: Local>(alloc: Global, parent: &L, children: &[L]) -> Result<Vec<Chan>, NoMemory>
    ensures { IfOk result (λ chans. chans.items ≡ shared_given L.ops parent.now children.now) }
{
    let mut chans = Vec::new(alloc);
    for i in 0..children.len() {
        gather(parent, &children[i], &mut chans)?;
    }
    Ok(chans)
}

// Whether the channel comes after that of the last pair, or there is no pair.
fn follows(pairs: &[Pair], chan: &Chan) -> bool
    ensures { result ≡ comes_after pairs.now chan.now.channel }
{
    match pairs.last() {
        None => true,
        Some(last) => match last.chan.cmp(chan) {
            Ordering::Less => true,
            Ordering::Equal | Ordering::Greater => false,
        },
    }
}

// Adds the pair of a channel after the others, if there are none or the channel comes after that of the last.
fn pair_one<L: Local>(pairs: &mut Vec<Pair>, chan: Chan, children: &[L]) -> Result<(), NoMemory>
    requires few { length children.now ≤ 4294967295 }
    ensures { OnOk result (IsOneMore L.ops children.now chan.channel pairs.old.items pairs.new.items) }
{
    if follows(pairs.as_slice(), &chan) {
        pairs.push(counted(chan, children))?;
    }
    Ok(())
}

// Of channels in ascending order, how many there are without repetitions, so that pairs get exactly their room.
fn distinct(chans: &[Chan]) -> usize {
    let mut count: usize = 0;
    for i in 0..chans.len() {
        if i == 0 || chans[i] != chans[i - 1] {
            count = count.saturating_add(1);
        }
    }
    count
}

// A pair for each of these channels, which may be there several times.
fn paired<L: Local>(alloc: Global, chans: Vec<Chan>, children: &[L]) -> Result<Vec<Pair>, NoMemory>
    requires few { length children.now ≤ 4294967295 }
    requires rises { Rises (channels chans.items) }
    ensures { IfOk result (λ pairs. IsPaired L.ops children.now (channels chans.items) pairs.items) }
{
    let mut pairs = Vec::with_capacity(alloc, distinct(chans.as_slice()))?;
    for chan in chans {
        pair_one(&mut pairs, chan, children)?;
    }
    Ok(pairs)
}

/// The pairs of a fork by which the process made these children: one for each channel that it shares and
/// gave to a child, with counts of what the children are.
pub fn fork_pairs<L: Local>(
    alloc: Global,
    parent: &L,
    children: &[L],
) -> Result<Vec<Pair>, NoMemory>
    requires few { length children.now ≤ 4294967295 }
    ensures { IfOk result (λ pairs. FreshPairs L.ops parent.now children.now pairs.items) }
{
    let mut chans = gather_all(alloc, parent, children)?;
    chans.sort()?;
    paired(alloc, chans, children)
}
