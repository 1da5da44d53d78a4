// Where to look first for what belongs to a channel.
use shim_base::{Chan, NoMemory};
use std::alloc::Global;

// How many numbers a place has.
const NUMBERS: usize = 4;

// How many places the first table has. This and each later count is a power of two.
const FEWEST_PLACES: usize = 16;

// Odd, with its bits spread about, so that a product with it carries the lower bits of a word to its upper ones.
const SPREAD: u64 = 0x9E37_79B9_7F4A_7C15;

/// A table that has in each place the numbers that were noted last for channels with that place, the newest
/// first. A new number drives out the oldest, and a larger table begins with nothing noted. A number says where to
/// look first and no more: whoever takes one tests it.
#[derive(Drop)]
pub(crate) struct Recent {
    places: Vec<[usize; NUMBERS]>,
}

impl Recent {
    /// No places, which takes no memory.
    pub(crate) fn new(alloc: Global) -> Recent {
        Recent {
            places: Vec::new(alloc),
        }
    }

    /// The numbers in the channel's place. Where fewer were noted, or there is no place yet, the others are 0.
    pub(crate) fn numbers(&self, chan: &Chan) -> [usize; NUMBERS] {
        self.places
            .get(self.place(chan))
            .copied()
            .unwrap_or([0; NUMBERS])
    }

    /// Puts the number into the channel's place, if there is one.
    pub(crate) fn note(&mut self, chan: &Chan, number: usize) {
        let place = self.place(chan);
        if let Some(noted) = self.places.get_mut(place) {
            *noted = [number, noted[0], noted[1], noted[2]];
        }
    }

    /// Makes a table of twice the size, or the first one, with nothing noted, if there are fewer places than
    /// `channels`. Channels may share a place, but hardly ever more of them than the place has numbers.
    pub(crate) fn make_room(&mut self, alloc: Global, channels: usize) -> Result<(), NoMemory> {
        if channels > self.places.len() {
            let wanted = self.places.len().saturating_mul(2).max(FEWEST_PLACES);
            self.places = vec![in alloc; [0; NUMBERS]; wanted]?;
        }
        Ok(())
    }

    // Channels of one home with serial numbers one after the other have places one after the other, the
    // first place after the last. Homes are spread over the table.
    fn place(&self, chan: &Chan) -> usize {
        let spread = spread(chan.home().pairs()).wrapping_add(u64::from(chan.serial()));
        // the lower bits, as many as distinguish the places; all bits while there are none, which finds no place
        spread as usize & self.places.len().wrapping_sub(1)
    }
}

// A number whose lower bits distinguish most paths.
fn spread(pairs: &[(u32, u32)]) -> u64 {
    let mut word = 0u64;
    for (fork, branch) in pairs {
        let pair = u64::from(*fork) << 32 | u64::from(*branch);
        word = (word ^ pair).wrapping_add(1).wrapping_mul(SPREAD);
        word ^= word >> 32;
    }
    word
}
