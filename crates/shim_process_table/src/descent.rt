// Who shares a channel at and below a process.
ghost use Rattle.std.specs.Prelude.{◌≡◌, ◌∷◌, [], ◌++◌, OnOk, IfOk};
ghost use Rattle.shim_semantics.specs.Trees.{Meet};
ghost use Rattle.shim_laws_table_events.specs.meetings.Sharers.{ListsSharers, ListsReceivers};
ghost use Rattle.shim_laws_table_events.specs.meetings.Meetings.{IsEnabled, Declares, HasValue};
ghost use Rattle.shim_laws_table_events.specs.meetings.Plans.{children_between, Plans, SourceChild, ValueAt};
ghost use Rattle.shim_laws_table_events.specs.meetings.Descents.{numbers_of_length};
ghost use Rattle.shim_process_table.specs.Descent.{numbers_of_block, ahead_of, children_by, IsSharer, DescendsOn};
ghost use Rattle.shim_process_table.specs.Planning.{forked_into, PlansOn, KnowledgeAt, IsSourceOf};
ghost use Rattle.shim_records.specs.Pairs.{known_of, known_for};
ghost use Rattle.shim_process_table.specs.Lookups.{AreInUse};

use crate::process_table::ProcessTable;
use shim_base::{Chan, NoMemory};
use shim_local::Local;
use shim_records::{Record, Sharing, Status, place_in};
use std::alloc::Global;
use std::marker::Model;

/// So many numbers from one on: those of a fork's children that are still to be looked at.
#[derive(Clone, Copy)]
pub(crate) struct Block {
    pub(crate) first: usize,
    pub(crate) count: usize,
}

/// Numbers of processes, in the order of a walk from the root with leftmost children first: those that share
/// a channel, as `ProcessTable::sharers` finds them, or those that a rendezvous may concern, as
/// `ProcessTable::plan_meeting` does. It keeps the room that it has.
#[derive(Drop)]
pub struct FoundProcesses {
    pub(crate) numbers: Vec<u32>,
    ahead: Vec<Block>,
}

impl Model for FoundProcesses {
    ghost use Rattle.std.specs.Prelude.{ℕ, List};

    ghost Value = { List ℕ };

    ghost view = { λ s. s.numbers.items };
}

impl FoundProcesses {
    /// Holds no numbers yet.
    pub fn new(alloc: Global) -> FoundProcesses
        ensures { result ≡ [] }
    {
        FoundProcesses {
            numbers: Vec::new(alloc),
            ahead: Vec::new(alloc),
        }
    }

    /// Lends the numbers.
    pub fn numbers(&self) -> &[u32]
        ensures { result.now ≡ self.now }
    {
        self.numbers.as_slice()
    }
}

// How many children a process has whose record has this status; `None` where the record is free.
fn children_of(status: Status) -> Option<u32>
    ensures { result ≡ children_by status }
{
    match status {
        Status::Free => None,
        Status::Forked(count) => Some(count),
        Status::Live | Status::Ended | Status::Dead(_) => Some(0),
    }
}

// What a fork knows of a channel: who of its children shares it. `first` is the first child's number, `count` how
// many children there are.
#[derive(Clone, Copy)]
struct Knowledge {
    first: u32,
    count: u32,
    sharing: Sharing,
}

// Into how many a process has forked whose record has this status, if it has.
fn forked_into(status: Status) -> Option<u32>
    ensures { result ≡ forked_into status }
{
    match status {
        Status::Forked(count) => Some(count),
        Status::Free | Status::Live | Status::Ended | Status::Dead(_) => None,
    }
}

// What a fork knows of who shares the channel, if it knows anything of it.
fn sharing_of(fork: &Record, c: &Chan) -> Option<Sharing>
    ensures { result ≡ known_for c.now.channel (known_of fork.now.pairs.items) }
{
    match place_in(fork.pairs.as_slice(), c) {
        None => None,
        Some(place) => Some(fork.pairs[place].sharing),
    }
}

// The children of a fork that may share the channel of which it knows this.
fn sharing_children(fork: Knowledge) -> Block
    ensures { numbers_of_block result ≡ children_between fork.first fork.sharing }
{
    let end = fork.sharing.last as usize + 1;
    Block {
        first: fork.first as usize + fork.sharing.first as usize,
        count: end.saturating_sub(fork.sharing.first as usize),
    }
}

// The number of the child that took the channel's own variable, if one did.
fn source_of(fork: Knowledge) -> Option<usize>
    ensures { IsSourceOf fork result }
{
    if fork.sharing.source < fork.count {
        Some(fork.first as usize + fork.sharing.source as usize)
    } else {
        None
    }
}

// Puts a block before those that are still to be looked at, if there is a number in it.
fn put_ahead(ahead: &mut Vec<Block>, first: usize, count: usize) -> Result<(), NoMemory>
    ensures { OnOk result (ahead_of ahead.new.items ≡ numbers_of_length first count ++ ahead_of ahead.old.items) }
{
    if count > 0 {
        ahead.push(Block { first, count })?;
    }
    Ok(())
}

impl<L: Local> ProcessTable<L> {
    /// Finds the processes at and below this one that share the channel, whatever came of them. If the
    /// process itself doesn't share it, no clause says which are found.
    pub fn sharers(
        &self,
        number: u32,
        c: &Chan,
        sharers: &mut FoundProcesses,
    ) -> Result<(), NoMemory>
        ensures lists { OnOk result (ListsSharers L.ops self.now c.now.channel number sharers.new) }
        ensures used { OnOk result (AreInUse self.now sharers.new) }
    {
        sharers.numbers.clear();
        sharers.ahead.clear();
        put_ahead(&mut sharers.ahead, number as usize, 1)?;
        // No list has so many blocks: the bound is there for the proof that the loop ends.
        for looked in 0..usize::MAX {
            match sharers.ahead.pop() {
                None => return Ok(()),
                Some(block) => {
                    self.look(block, c, &mut sharers.numbers, &mut sharers.ahead)?;
                }
            }
        }
        Err(NoMemory)
    }

    /// What an enabled rendezvous of the channel needs, whose home has this number: processes among which are
    /// all that wait at it, each once, and the value of its source, which is the answer. Forks know below
    /// which children to look, so nobody is asked who shares the channel.
    pub fn plan_meeting(
        &self,
        number: u32,
        c: &Chan,
        sharers: &mut FoundProcesses,
    ) -> Result<i64, NoMemory>
        requires home { Declares L.ops self.now number c.now.channel }
        requires enabled { IsEnabled L.ops (Meet c.now.channel) self.now }
        ensures lists { OnOk result (ListsReceivers L.ops self.now c.now.channel sharers.new) }
        ensures value { IfOk result (λ x. HasValue L.ops self.now c.now.channel x) }
    {
        self.receivers(number, c, sharers)?;
        self.source_value(number, c)
    }

    // Finds all that live at and below this process as far as forks know of the channel.
    fn receivers(&self, number: u32, c: &Chan, sharers: &mut FoundProcesses) -> Result<(), NoMemory>
        ensures { OnOk result (Plans self.now c.now.channel (number ∷ []) sharers.new) }
    {
        sharers.numbers.clear();
        sharers.ahead.clear();
        put_ahead(&mut sharers.ahead, number as usize, 1)?;
        // as in `sharers`
        for visited in 0..usize::MAX {
            match sharers.ahead.pop() {
                None => return Ok(()),
                Some(block) => {
                    self.visit(block, c, &mut sharers.numbers, &mut sharers.ahead)?;
                }
            }
        }
        Err(NoMemory)
    }

    // Visits the first process of a block. It is found if it lives; if it has forked and knows of the channel, those
    // of its children come next that may share it; and then the rest of the block.
    fn visit(
        &self,
        block: Block,
        c: &Chan,
        numbers: &mut Vec<u32>,
        ahead: &mut Vec<Block>,
    ) -> Result<(), NoMemory>
        ensures { OnOk result (PlansOn self.now c.now.channel (numbers_of_block block ++ ahead_of ahead.old.items) numbers.old.items (ahead_of ahead.new.items) numbers.new.items) }
    {
        let at = block.first;
        if block.count == 0 {
            return Ok(());
        }
        if at >= self.states.len() {
            return Ok(());
        }
        put_ahead(ahead, at + 1, block.count - 1)?;
        if self.lives(at) {
            let number = u32::try_from(at).map_err(|_| NoMemory)?;
            numbers.push(number)?;
            return Ok(());
        }
        match self.knowledge(at, c) {
            None => {}
            Some(fork) => {
                let children = sharing_children(fork);
                put_ahead(ahead, children.first, children.count)?;
            }
        }
        Ok(())
    }

    // What the fork of the process with this number knows of who shares the channel, if it has forked and knows
    // anything of it.
    fn knowledge(&self, at: usize, c: &Chan) -> Option<Knowledge>
        ensures { KnowledgeAt self.now c.now.channel at result }
    {
        if at >= self.states.len() {
            return None;
        }
        if at >= self.records.len() {
            return None;
        }
        let fork = &self.records[at];
        let count = match forked_into(fork.status) {
            None => return None,
            Some(count) => count,
        };
        match sharing_of(fork, c) {
            None => None,
            Some(sharing) => Some(Knowledge {
                first: fork.first,
                count,
                sharing,
            }),
        }
    }

    // The value of the channel's source, whose home has this number: the way leads from there down to the child that
    // took the channel's own variable, as long as one did.
    fn source_value(&self, number: u32, c: &Chan) -> Result<i64, NoMemory>
        requires home { Declares L.ops self.now number c.now.channel }
        requires enabled { IsEnabled L.ops (Meet c.now.channel) self.now }
        ensures { IfOk result (λ x. HasValue L.ops self.now c.now.channel x) }
    {
        let mut at = number as usize;
        // No tree is so deep: the bound is there for the proof that the loop ends.
        for walked in 0..usize::MAX {
            match self.source_child(at, c) {
                None => return Ok(self.value_at(at, c)),
                Some(child) => at = child,
            }
        }
        Err(NoMemory)
    }

    // The child of the process with this number that took the channel's own variable, if one did.
    fn source_child(&self, at: usize, c: &Chan) -> Option<usize>
        ensures { SourceChild self.now c.now.channel at result }
    {
        match self.knowledge(at, c) {
            None => None,
            Some(fork) => source_of(fork),
        }
    }

    // Looks at the first process of a block. If it shares the channel, it is found, and its children come next; and
    // then the rest of the block.
    fn look(
        &self,
        block: Block,
        c: &Chan,
        numbers: &mut Vec<u32>,
        ahead: &mut Vec<Block>,
    ) -> Result<(), NoMemory>
        ensures { OnOk result (DescendsOn L.ops self.now c.now.channel (numbers_of_block block ++ ahead_of ahead.old.items) numbers.old.items (ahead_of ahead.new.items) numbers.new.items) }
    {
        let at = block.first;
        if block.count == 0 {
            return Ok(());
        }
        if at >= self.states.len() {
            return Ok(());
        }
        put_ahead(ahead, at + 1, block.count - 1)?;
        match self.sharer(at, c) {
            None => {}
            Some(children) => {
                let number = u32::try_from(at).map_err(|_| NoMemory)?;
                numbers.push(number)?;
                put_ahead(ahead, children.first, children.count)?;
            }
        }
        Ok(())
    }

    // The value of the channel's own variable at the process with this number; 0 where it doesn't carry that.
    fn value_at(&self, at: usize, c: &Chan) -> i64
        ensures { ValueAt L.ops self.now c.now.channel at result }
    {
        if at >= self.states.len() {
            return 0;
        }
        let process = &self.states[at];
        if !process.carries(c) {
            return 0;
        }
        process.value(c)
    }

    // The children of the process with this number, if it shares the channel.
    fn sharer(&self, at: usize, c: &Chan) -> Option<Block>
        ensures { IsSharer L.ops self.now c.now.channel at result }
    {
        if at >= self.states.len() {
            return None;
        }
        if at >= self.records.len() {
            return None;
        }
        let record = &self.records[at];
        let count = match children_of(record.status) {
            None => return None,
            Some(count) => count as usize,
        };
        if !self.states[at].shares(c) {
            return None;
        }
        Some(Block {
            first: record.first as usize,
            count,
        })
    }
}
