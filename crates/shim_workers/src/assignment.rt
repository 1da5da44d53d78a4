// The pieces of work of a round, by assignments. An assignment is what one thread does of a round.
ghost use Rattle.std.specs.Prelude.{◌≤◌, ◌+◌, vec_len, vec_capacity};

use shim_base::NoMemory;
use shim_local::{Finished, Local, Parcel, work};
use shim_net::Gate;
use std::alloc::Global;
use std::thread;
use std::thread::Threads;

// Pieces that are to be done, and room for what comes of them.
#[derive(Drop)]
struct Assignment<L: Local> {
    parcels: Vec<Parcel<L>>,
    done: Vec<Finished<L>>,
    ghost room: { vec_len parcels + vec_len done ≤ vec_capacity done },
}

impl<L: Local> Assignment<L> {
    // An assignment without a piece.
    fn new(alloc: Global) -> Assignment<L> {
        Assignment {
            parcels: Vec::new(alloc),
            done: Vec::new(alloc),
        }
    }

    // One piece more. A refusal drops it.
    fn add(&mut self, parcel: Parcel<L>) -> Result<(), NoMemory> {
        self.done.reserve(self.parcels.len() + 1)?;
        self.parcels.push(parcel)?;
        Ok(())
    }
}

/// The assignments of a round: none without a piece, and at most one for each worker.
#[derive(Drop)]
pub(crate) struct Assignments<L: Local> {
    alloc: Global,
    workers: u32,
    assignments: Vec<Assignment<L>>,
    ghost within: { (1 ≤ workers) × (workers ≤ 16) },
    ghost few: { vec_len assignments ≤ workers },
}

impl<L: Local> Assignments<L> {
    /// No assignment, for so many workers.
    pub(crate) fn new(alloc: Global, workers: u32) -> Assignments<L>
        requires { (1 ≤ workers) × (workers ≤ 16) }
    {
        Assignments {
            alloc,
            workers,
            assignments: Vec::new(alloc),
        }
    }

    /// Assigns a piece, by its slot to each in turn. A refusal drops it.
    pub(crate) fn assign(&mut self, parcel: Parcel<L>) -> Result<(), NoMemory> {
        let turn = (parcel.slot % self.workers as u64) as usize;
        if let Some(assignment) = self.assignments.get_mut(turn) {
            return assignment.add(parcel);
        }
        let mut assignment = Assignment::new(self.alloc);
        assignment.add(parcel)?;
        self.assignments.push(assignment)?;
        Ok(())
    }

    /// Does all assignments: one in this thread, and each further one on a thread of its own.
    pub(crate) fn do_all<G: Gate, R: Threads + Sync>(
        self,
        rt: &R,
        gate: &G,
    ) -> Result<Vec<Vec<Finished<L>>>, NoMemory> {
        let done = thread::map_vec(
            rt,
            self.assignments,
            &|assignment: Assignment<L>| do_assignment(assignment, gate),
        )?;
        Ok(done)
    }
}

// Does each piece of an assignment. It takes no memory of its own.
fn do_assignment<L: Local, G: Gate>(assignment: Assignment<L>, gate: &G) -> Vec<Finished<L>> {
    let Assignment {
        mut parcels,
        mut done,
    } = assignment;
    while let Some(parcel) = parcels.pop() {
        gate.enter(parcel.pid, L::COMPILED);
        done.push_reserved(work(parcel));
    }
    done
}
