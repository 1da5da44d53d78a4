// What goes with the turn: the pieces that were put so far, and those that came back.
use shim_base::{Named, NoMemory};
use std::alloc::Global;

/// What a worker adds to a piece, which tells one that was worked from one that was not.
pub const WORKED: u64 = 1 << 40;

/// How many pieces there are, how many were put, and how often each came back, worked.
#[derive(Drop)]
pub struct Tally {
    pub pieces: u64,
    pub put: u64,
    pub collected: u64,
    strange: u64,
    times: Vec<u8>,
}

impl Named for Tally {
    type Label = ();

    ghost name = { λ _. tt };
}

impl Tally {
    pub fn new(alloc: Global, pieces: u64) -> Result<Tally, NoMemory> {
        Ok(Tally {
            pieces,
            put: 0,
            collected: 0,
            strange: 0,
            times: Vec::from_elem(alloc, 0u8, pieces as usize)?,
        })
    }

    /// Counts a piece that came back.
    pub fn note(&mut self, piece: u64) {
        let at = piece.wrapping_sub(WORKED) as usize;
        if at < self.times.len() {
            self.times[at] = self.times[at].saturating_add(1);
            self.collected = self.collected.saturating_add(1);
        } else {
            self.strange = self.strange.saturating_add(1);
        }
    }

    /// Whether each piece came back once, and nothing else did.
    pub fn is_whole(&self) -> bool {
        self.strange == 0
            && self.put == self.pieces
            && self.collected == self.pieces
            && self.times.iter().all(|times| *times == 1)
    }
}
