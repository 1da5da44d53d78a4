// A fork in place.
ghost use Rattle.std.specs.Prelude.{◌≡◌, ◌≢◌, ◌≤◌, ◌<◌, ◌+◌, ◌++◌, ℕ, true, false, Some, [], ◌∷◌, cond, length, slice_get, vec_len, vec_capacity, IfOk, OnOk, OnErr};
ghost use Rattle.shim_local.specs.Process.{AtFork};
ghost use Rattle.shim_laws_table.specs.NodeStatus.{lives, forks};
ghost use Rattle.shim_laws_table.specs.Agrees.{free, used};
ghost use Rattle.shim_laws_table.specs.Counts.{tally_ready};
ghost use Rattle.shim_records.specs.Pairs.{tally, child_status_of, record_view};
ghost use Rattle.shim_records.specs.Fresh.{channels};
ghost use Rattle.shim_records.specs.Blocks.{with_block};
ghost use Rattle.shim_records.specs.Ways.{most_forks};
ghost use Rattle.shim_laws_table_events.specs.forks.Forking.{IsOfChild, FitsRecords, AreOfChildren, ready_chans, EachUpdatedAbove, ForksAt};
ghost use Rattle.shim_process_table.specs.Forking.{ForksHere, ForkedTo, ForkComesTo, forked_count, IsFreeBlock};
ghost use Rattle.shim_process_table.specs.Stepping.{LivesAt};
ghost use Rattle.shim_process_table.specs.Touching.{ChangesOnlyForking, ChangesOnlyRecords};

use crate::process_table::ProcessTable;
use shim_base::{Chan, NoMemory};
use shim_local::{Forked, Local};
use shim_records::{
    Pair, Record, Status, fork_pairs, going_child_status, is_free, put_block, tally_ready,
    update_counts_above,
};
use std::alloc::Global;

/// What came of a process that was to fork.
#[derive(Clone, Copy, Debug, PartialEq, Eq)]
pub enum ForkOutcome {
    /// It forked: the number of its first child, after which the others come, and how many there are.
    Forked(u32, u32),
    /// Its fork trapped, and it lives on.
    Trapped,
}

/// What the fork of a process comes to: the number of the process, its state after the fork, and its children or a
/// trap.
#[derive(Drop)]
pub struct Fork<L> {
    number: u32,
    parent: L,
    came: Forked<L>,
}

impl<L> Fork<L> {
    /// How many children the fork makes; 0 if it traps.
    pub fn count(&self) -> usize
        ensures { result ≡ forked_count self.now.came }
    {
        match &self.came {
            Forked::Children(children) => children.len(),
            Forked::Trapped => 0,
        }
    }
}

// Where a fork's children were put: the number of the first one, and how many forks above have other counts, at
// most.
#[derive(Clone, Copy)]
struct PutChildren {
    first: u32,
    forks: u32,
}

// A fork whose children have to be put: the number of the process, its state after the fork, and its children.
struct Parted<L> {
    number: u32,
    parent: L,
    children: Vec<L>,
}

// Whether the child's path isn't too long, nor the list of the channels that it was given.
fn is_within<L: Local>(child: &L) -> bool
    ensures { result ≡ true → FitsRecords L.ops child.now }
{
    if child.path().pairs().len() > u32::MAX as usize {
        return false;
    }
    match child.given(usize::MAX) {
        None => true,
        Some(_) => false,
    }
}

// The record of a child that has done nothing yet.
fn child_record<L: Local>(alloc: Global, parent: u32, child: &L) -> Result<Record, NoMemory>
    ensures { IfOk result (λ r. IsOfChild L.ops parent child.now r × FitsRecords L.ops child.now) }
{
    if !is_within(child) {
        return Err(NoMemory);
    }
    let path = child.path().copy()?;
    Ok(Record {
        status: Status::Live,
        first: 0,
        parent: Some(parent),
        path,
        going_children: 0,
        pairs: Vec::new(alloc),
    })
}

// The records of all children, in order.
fn child_records<L: Local>(
    alloc: Global,
    parent: u32,
    children: &[L],
) -> Result<Vec<Record>, NoMemory>
    ensures { IfOk result (λ records. AreOfChildren L.ops parent children.now records.items) }
{
    let mut records = Vec::new(alloc);
    for i in 0..children.len() {
        records.push(child_record(alloc, parent, &children[i])?)?;
    }
    Ok(records)
}

// Puts the pair's channel after the others, if a fork with its counts is ready.
fn add_ready(pair: &Pair, chans: &mut Vec<Chan>) -> Result<(), NoMemory>
    ensures { OnOk result (channels chans.new.items ≡ channels chans.old.items ++ cond (tally_ready (tally pair.now)) (pair.now.chan.channel ∷ []) []) }
{
    if tally_ready(pair) {
        chans.push(pair.chan.copy()?)?;
    }
    Ok(())
}

// The channels on which a fork with these pairs is ready.
fn ready(alloc: Global, pairs: &[Pair]) -> Result<Vec<Chan>, NoMemory>
    ensures { IfOk result (λ chans. channels chans.items ≡ ready_chans pairs.now) }
{
    let mut chans = Vec::new(alloc);
    for i in 0..pairs.len() {
        add_ready(&pairs[i], &mut chans)?;
    }
    Ok(chans)
}

// Updates the counts above the record for each of these channels, of a process that wasn't ready on it and is. The
// answer is a number of forks beyond which no counts have changed, perhaps more than need be.
fn update_ready(records: &mut Vec<Record>, at: usize, chans: &[Chan]) -> u32
    ensures ways { EachUpdatedAbove most_forks at (channels chans.now) records.old.items records.new.items }
    ensures touches { ChangesOnlyRecords result at records.old.items records.new.items }
{
    let mut furthest: u32 = 0;
    for i in 0..chans.len() {
        let reached = update_counts_above(
            records,
            at,
            &chans[i],
            going_child_status(false),
            going_child_status(true),
            u32::MAX,
        );
        furthest = furthest.max(reached);
    }
    furthest
}

// Whether so many records from a number on are there, and free.
fn is_free_block(records: &[Record], first: u32, count: u32) -> bool
    ensures { result ≡ true → IsFreeBlock first count records.now }
{
    let end = first as usize + count as usize;
    if end > records.len() {
        return false;
    }
    for at in first as usize..end {
        if !is_free(&records[at]) {
            return false;
        }
    }
    true
}

// From which number on so many records can be put: from that of the hint, if they are free there, or after
// all others.
fn block_for(records: &[Record], hint: Option<u32>, count: u32) -> Result<u32, NoMemory>
    ensures free { IfOk result (λ first. IsFreeBlock first count records.now) }
    ensures fits { IfOk result (λ first. first + count ≤ 4294967295) }
{
    match hint {
        None => {}
        Some(first) => {
            if first <= u32::MAX - count {
                if is_free_block(records, first, count) {
                    return Ok(first);
                }
            }
        }
    }
    let first = u32::try_from(records.len()).map_err(|_| NoMemory)?;
    if u32::MAX - first < count {
        return Err(NoMemory);
    }
    Ok(first)
}

// The process's record says that it forked into so many, of which the first has this number.
fn note_fork(parent: &mut Record, first: u32, count: u32, pairs: Vec<Pair>)
    ensures forked { record_view parent.new ≡ used first (forks count) }
    ensures parent { parent.new.parent ≡ parent.old.parent }
    ensures path { parent.new.path ≡ parent.old.path }
    ensures going_children { parent.new.going_children ≡ count }
    ensures pairs { parent.new.pairs.items ≡ pairs.items }
{
    parent.status = Status::Forked(count);
    parent.first = first;
    parent.going_children = count;
    parent.pairs = pairs;
}

// Puts the fork's children from the hint's number on, if the records there are free, or after all others,
// and brings the counts above up to date. An error changes nothing.
fn put_fork<L: Local>(
    alloc: Global,
    states: &mut Vec<L>,
    records: &mut Vec<Record>,
    fork: Parted<L>,
    hint: Option<u32>,
) -> Result<PutChildren, NoMemory>
    requires inside { fork.number < vec_len records.old }
    requires beside { length states.old.items ≡ length records.old.items }
    ensures ok { IfOk result (λ put. ForksAt L.ops fork.number put.first fork.parent fork.children.items (record { states = states.old.items; records = records.old.items }) (record { states = states.new.items; records = records.new.items })) }
    ensures fits { IfOk result (λ put. put.first + length fork.children.items ≤ 4294967295) }
    ensures touches { IfOk result (λ put. ChangesOnlyForking put.forks fork.number put.first (length fork.children.items) (record { states = states.old.items; records = records.old.items }) (record { states = states.new.items; records = records.new.items })) }
    ensures err { OnErr result ((states.new.items ≡ states.old.items) × (records.new.items ≡ records.old.items)) }
{
    let Parted {
        number,
        parent,
        children,
    } = fork;
    let at = number as usize;
    let count = u32::try_from(children.len()).map_err(|_| NoMemory)?;
    let first = block_for(records.as_slice(), hint, count)?;
    let born = child_records(alloc, number, children.as_slice())?;
    let pairs = fork_pairs(alloc, &parent, children.as_slice())?;
    let chans = ready(alloc, pairs.as_slice())?;
    let end = first as usize + count as usize;
    states.reserve(end.saturating_sub(states.len()))?;
    records.reserve(end.saturating_sub(records.len()))?;
    // from here on nothing wants memory
    states[at] = parent;
    put_block(states, first as usize, children);
    note_fork(&mut records[at], first, count, pairs);
    put_block(records, first as usize, born);
    let forks = update_ready(records, at, chans.as_slice());
    Ok(PutChildren { first, forks })
}

impl<L: Local> ProcessTable<L> {
    /// What the fork comes to of the process with this number, which lives and is at a fork. Only `put_fork` changes
    /// the table.
    pub fn fork_of(&self, number: u32) -> Result<Fork<L>, NoMemory>
        requires { LivesAt L.ops self.now number AtFork }
        ensures number { IfOk result (λ fork. fork.number ≡ number) }
        ensures comes { IfOk result (λ fork. ForkComesTo L.ops self.now number fork.parent fork.came) }
    {
        // a copy, since a fork can't be taken back
        let mut parent = self.states[number as usize].copy()?;
        let came = parent.fork()?;
        Ok(Fork {
            number,
            parent,
            came,
        })
    }

    /// The process forks in place, or its fork traps, as `fork` says. The answer says how many forks above it have
    /// other counts, at most. Running out of memory changes nothing.
    pub fn put_fork(&mut self, alloc: Global, fork: Fork<L>) -> Result<(ForkOutcome, u32), NoMemory>
        requires { ForkComesTo L.ops self.old fork.number fork.parent fork.came }
        ensures ok { IfOk result (λ put. ForksHere L.ops put.1 fork.number self.old self.new put.0) }
        ensures few { length self.new.records ≤ length self.old.records + forked_count fork.came }
        ensures err { OnErr result (self.new ≡ self.old) }
    {
        let Fork {
            number,
            parent,
            came,
        } = fork;
        match came {
            Forked::Trapped => {
                self.states[number as usize] = parent;
                Ok((ForkOutcome::Trapped, 0))
            }
            Forked::Children(children) => self.fork_into(
                alloc,
                number,
                parent,
                children.into_vec(),
            ),
        }
    }

    // The process with this number forks. Its state becomes `parent`, and it has these children.
    fn fork_into(
        &mut self,
        alloc: Global,
        number: u32,
        parent: L,
        children: Vec<L>,
    ) -> Result<(ForkOutcome, u32), NoMemory>
        requires { ForkedTo L.ops number parent children.items self.old }
        ensures ok { IfOk result (λ put. ForksHere L.ops put.1 number self.old self.new put.0) }
        ensures few { length self.new.records ≤ length self.old.records + length children.items }
        ensures err { OnErr result (self.new ≡ self.old) }
    {
        let count = u32::try_from(children.len()).map_err(|_| NoMemory)?;
        self.free.make_room(alloc, count)?;
        let hint = self.free.hint(count);
        let fork = Parted {
            number,
            parent,
            children,
        };
        let put = put_fork(alloc, &mut self.states, &mut self.records, fork, hint)?;
        self.free.put(count, put.first);
        Ok((ForkOutcome::Forked(put.first, count), put.forks))
    }
}
