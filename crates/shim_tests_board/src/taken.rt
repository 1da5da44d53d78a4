// What a worker took.
use shim_base::NoMemory;
use shim_steal::Piece;
use std::alloc::Global;

/// The numbers of the pieces that a worker took from lane 0, in the order in which it took them.
#[derive(Drop)]
pub struct Taken {
    numbers: Vec<u64>,
    // whether each piece was of lane 0, with its number as its value, and had a higher number than the one before; no
    // longer where a push had another number, or memory was refused
    is_right: bool,
}

impl Taken {
    pub fn new(alloc: Global) -> Taken {
        Taken {
            numbers: Vec::new(alloc),
            is_right: true,
        }
    }

    /// Something was not as it should be.
    pub fn spoil(&mut self) {
        self.is_right = false;
    }

    /// One piece more.
    pub fn note(&mut self, piece: &Piece<u64>) {
        let is_later = match self.numbers.last() {
            Some(last) => *last < piece.number,
            None => true,
        };
        if piece.home != 0 || piece.value != piece.number || !is_later {
            self.spoil();
        }
        if self.numbers.push(piece.number).is_err() {
            self.spoil();
        }
    }

    /// Whether all was right; counts each piece that was taken.
    pub fn count(&self, times: &mut [u8]) -> bool {
        for number in self.numbers.iter() {
            let at = *number as usize;
            if at < times.len() {
                times[at] = times[at].saturating_add(1);
            }
        }
        self.is_right
    }
}

/// Whether each of so many pieces was taken once by one of these, and all went well.
pub fn is_whole(alloc: Global, all: &[Taken], pieces: u64) -> Result<bool, NoMemory> {
    let mut times = Vec::from_elem(alloc, 0u8, pieces as usize)?;
    let mut is_right = true;
    for taken in all {
        is_right = taken.count(&mut times) && is_right;
    }
    Ok(is_right && times.iter().all(|times| *times == 1))
}
