// What is counted of the children of a fork for a channel.
ghost use Rattle.std.specs.Prelude.{◌≡◌, ◌≤◌, ◌+◌, true, false, position};
ghost use Rattle.shim_base.specs.Paths.{same_channel};
ghost use Rattle.shim_laws_table.specs.Counts.{bit, tally_ready, going_child_status, IsExchanged};
ghost use Rattle.shim_laws_table.specs.Updating.{CanMove};
ghost use Rattle.shim_records.specs.declared.pair.Pair.{Pair as PairOf};
ghost use Rattle.shim_records.specs.Pairs.{tally, child_status_of, pair_index};

use shim_base::Chan;

/// Who of a fork's children shares a channel, by the numbers of their branches. That is read when they are made,
/// and stays so as long as the fork stands.
#[derive(Clone, Copy)]
pub struct Sharing {
    /// That of the first one which shares it.
    pub first: u32,
    /// That of the last one. Between these two some may not share it.
    pub last: u32,
    /// That of the one which took the channel's own variable; where none did, a number that no child has.
    pub source: u32,
}

/// Of the children of a fork that share a channel: how many live or have forked, how many of these aren't
/// ready on it, and how many are dead.
#[derive(Drop)]
pub struct Pair {
    pub chan: Chan,
    pub going: u32,
    pub not_ready: u32,
    pub dead: u32,
    /// The least label of those at and below the children that share it and are dead.
    pub min_dead_label: Option<u32>,
    /// The branches between which all sharers of the channel lie, and that of the child that took its own variable.
    pub sharing: Sharing,
}

/// What a fork reads of a child on a channel: whether it shares it and goes on, whether it is ready, and whether it
/// shares it and is dead.
#[derive(Clone, Copy)]
pub struct ChildStatus {
    pub going: bool,
    pub ready_on: bool,
    pub dead_on: bool,
}

/// What a fork reads of a child that goes on and shares the channel, and is ready on it or not.
pub fn going_child_status(ready_on: bool) -> ChildStatus
    ensures { child_status_of result ≡ going_child_status ready_on }
{
    ChildStatus {
        going: true,
        ready_on,
        dead_on: false,
    }
}

// The count after a change of one child, which was counted before if `was` and is counted now if `is`.
fn moved(count: u32, was: bool, is: bool) -> u32
    ensures one { was ≡ false → is ≡ true → 1 ≤ result }
    ensures moved { bit was ≤ count → count + bit is ≤ 4294967295 + bit was → result + bit was ≡ count + bit is }
{
    if was {
        if is { count } else { count.saturating_sub(1) }
    } else {
        if is { count.saturating_add(1) } else { count }
    }
}

/// Whether a fork with these counts is ready on the channel.
pub fn tally_ready(pair: &Pair) -> bool
    ensures { result ≡ tally_ready (tally pair.now) }
{
    if pair.going == 0 {
        return false;
    }
    if pair.not_ready == 0 {
        pair.dead == 0
    } else {
        false
    }
}

/// The counts with another status of a child in place of that before.
pub(crate) fn move_pair(pair: &mut Pair, was: ChildStatus, is: ChildStatus)
    ensures moved { CanMove 4294967295 (child_status_of was) (child_status_of is) (tally pair.old) → IsExchanged (child_status_of was) (child_status_of is) (tally pair.old) (tally pair.new) }
    ensures falls { child_status_of was ≡ going_child_status true → child_status_of is ≡ going_child_status false → tally_ready (tally pair.new) ≡ false }
    ensures same { pair.new.chan ≡ pair.old.chan }
    ensures label { pair.new.min_dead_label ≡ pair.old.min_dead_label }
    ensures sharing { pair.new.sharing ≡ pair.old.sharing }
{
    pair.going = moved(pair.going, was.going, is.going);
    pair.not_ready = moved(
        pair.not_ready,
        was.going && !was.ready_on,
        is.going && !is.ready_on,
    );
    pair.dead = moved(pair.dead, was.dead_on, is.dead_on);
}

// The place of the first pair of the channel.
fn first_of(pairs: &[Pair], c: &Chan) -> Option<usize>
    ensures { result ≡ position (λ (p : PairOf). same_channel p.chan.channel c.now.channel) pairs.now }
{
    pairs.iter().position(|pair| pair.chan == *c)
}

/// The place of the pair for the channel, among pairs in the order of their channels. It is looked for from
/// the front: mostly there are few, and whether two channels are the same is known sooner than their order.
pub fn place_in(pairs: &[Pair], c: &Chan) -> Option<usize>
    ensures { result ≡ pair_index c.now.channel pairs.now }
{
    first_of(pairs, c)
}
