// The pieces of a worker whose work lies in lanes.
ghost use Rattle.std.specs.Prelude.{◌≡◌, ◌≤◌};
ghost use Rattle.shim_workers.specs.Workers.{SameName};

use crate::collecting::{Collected, take_in};
use crate::handing_out::{Handed, redo};
use crate::shared_state::SharedState;
use shim_base::NoMemory;
use shim_local::{Finished, Local, Parcel, work};
use shim_net::{Gate, Net};
use shim_steal::Lane;
use std::alloc::Global;
use std::sync::Wait;

/// How many pieces a worker may have finished before it has to try the turn.
const MOST_DONE: usize = 64;

/// How many pieces it gives out at a time. So many lie in a lane without more memory.
const MOST_OUT: u64 = 64;

/// The pieces of a worker: those that wait in its lane, and those that it has in its own hands.
#[derive(Drop)]
pub(crate) struct Pieces<L: Local> {
    lane: Lane<Parcel<L>>,
    // how often it began to give a piece out, which is the round of the next grant
    next_round: u64,
    // the piece that its lane refused
    refused: Option<Parcel<L>>,
    // those that it did, and that no net has taken in yet
    done: Vec<Finished<L>>,
}

// The first piece of another lane. The lane after the own one is looked at first, so that not all workers begin at
// the same one.
fn steal<L: Local, R: Wait>(rt: &R, lane: &mut Lane<Parcel<L>>) -> Option<Parcel<L>> {
    let home = lane.home();
    let count = lane.count();
    for at in 0..count {
        let from = home.wrapping_add(at) % count;
        if from != home {
            if let Some(piece) = lane.steal(rt, from) {
                return Some(piece.value);
            }
        }
    }
    None
}

// The piece that was refused, or else the first one of the own lane, or of another one.
fn next_piece<L: Local, R: Wait>(
    rt: &R,
    refused: &mut Option<Parcel<L>>,
    lane: &mut Lane<Parcel<L>>,
) -> Option<Parcel<L>> {
    if let Some(parcel) = refused.take() {
        return Some(parcel);
    }
    match lane.pop() {
        Some(piece) => Some(piece.value),
        None => steal(rt, lane),
    }
}

impl<L: Local> Pieces<L> {
    /// No pieces, and a lane for them.
    pub(crate) fn new(alloc: Global, lane: Lane<Parcel<L>>) -> Result<Pieces<L>, NoMemory> {
        Ok(Pieces {
            lane,
            next_round: 0,
            refused: None,
            done: Vec::with_capacity(alloc, MOST_DONE)?,
        })
    }

    /// Whether it did any that no net has taken in yet.
    pub(crate) fn has_done(&self) -> bool {
        !self.done.is_empty()
    }

    /// Does a piece behind the gate. False where there is none, or so many were done that the net has to take
    /// them in first.
    pub(crate) fn do_next<G: Gate, R: Wait>(&mut self, rt: &R, gate: &G) -> bool {
        if self.done.len() >= self.done.capacity() {
            return false;
        }
        let Some(parcel) = next_piece(rt, &mut self.refused, &mut self.lane) else {
            return false;
        };
        gate.enter(parcel.pid, L::COMPILED);
        self.done.push_reserved(work(parcel));
        true
    }

    // Gives out a piece of the process that is next at home, into the own lane. Where the net has an open grant of
    // this lane and round, no other may have these numbers; so this call does the work of the first open grant
    // instead. A piece that the lane refuses stays with this worker, and until it is done no other one is given out.
    fn hand_out(&mut self, net: &mut Net<L>, most: u64) -> Result<Handed, NoMemory>
        requires most { 1 ≤ most }
        ensures net { SameName net.old net.new }
    {
        if self.refused.is_some() {
            return Ok(Handed::NotPut);
        }
        let slot = self.lane.home();
        let round = self.next_round;
        self.next_round = round.wrapping_add(1);
        if net.is_out(slot, round) {
            redo(net)?;
            return Ok(Handed::NotPut);
        }
        let Some(parcel) = net.grant(most, slot, round)? else {
            return Ok(Handed::NoneLeft);
        };
        if let Err((NoMemory, parcel)) = self.lane.push(parcel) {
            self.refused = Some(parcel);
        }
        Ok(Handed::Put)
    }

    /// Gives out pieces of processes that are at home, at most so many, and at most 64. Answers how many.
    pub(crate) fn hand_out_some(
        &mut self,
        net: &mut Net<L>,
        some: u64,
        most: u64,
    ) -> Result<u64, NoMemory>
        requires most { 1 ≤ most }
        ensures net { SameName net.old net.new }
    {
        let mut put = 0u64;
        for _ in 0..some.min(MOST_OUT) {
            match self.hand_out(net, most)? {
                Handed::Put => put = put.saturating_add(1),
                Handed::NotPut => {}
                Handed::NoneLeft => return Ok(put),
            }
        }
        Ok(put)
    }

    /// Hands the net all pieces that were done. For a process that used up its piece and is next at home, another one
    /// may go out at once.
    pub(crate) fn take_in_all(
        &mut self,
        net: &mut Net<L>,
        shared_state: &SharedState,
    ) -> Result<Collected, NoMemory>
        ensures net { SameName net.old net.new }
    {
        let mut back = 0u64;
        let mut out = 0u64;
        for _ in 0..self.done.len() {
            let Some(finished) = self.done.pop() else {
                break;
            };
            back = back.saturating_add(1);
            if let Some(most) = take_in(net, finished, shared_state)? {
                out = out.saturating_add(self.hand_out_some(net, 1, most)?);
            }
        }
        Ok(Collected { back, out })
    }
}
