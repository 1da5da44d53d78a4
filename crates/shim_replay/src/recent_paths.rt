// Paths that were read before.
ghost use Rattle.std.specs.Prelude.{◌≡◌, IfOk};

use shim_base::{NoMemory, Path};
use std::alloc::Global;

// A power of two.
const PLACES: usize = 256;

// Odd, with its bits spread about, so that a product with it carries the lower bits of a word to its upper ones.
const SPREAD: u64 = 0x9E37_79B9_7F4A_7C15;

/// Paths that were read last, one in each place. Most lines of a journal are of a process that has other lines close
/// by, and a path that is found here shares its memory with the one that was read before.
#[derive(Drop)]
pub(crate) struct RecentPaths {
    alloc: Global,
    paths: Vec<Path>,
}

impl RecentPaths {
    pub(crate) fn new(alloc: Global) -> Result<RecentPaths, NoMemory> {
        let mut paths = Vec::with_capacity(alloc, PLACES)?;
        for _ in 0..PLACES {
            paths.push(Path::root(alloc))?;
        }
        Ok(RecentPaths { alloc, paths })
    }

    pub(crate) fn allocator(&self) -> Global {
        self.alloc
    }

    /// The path of these pairs.
    pub(crate) fn path_of(&mut self, pairs: &[(u32, u32)]) -> Result<Path, NoMemory>
        ensures { IfOk result (λ path. path ≡ pairs.now) }
    {
        let place = place_of(pairs);
        if let Some(path) = self.paths.get(place) {
            if path.pairs() == pairs {
                return path.copy();
            }
        }
        let path = new_path(self.alloc, pairs)?;
        if let Some(kept) = self.paths.get_mut(place) {
            *kept = path.copy()?;
        }
        Ok(path)
    }
}

fn new_path(alloc: Global, pairs: &[(u32, u32)]) -> Result<Path, NoMemory>
    ensures { IfOk result (λ path. path ≡ pairs.now) }
{
    let mut path = Path::root(alloc);
    for pair in pairs {
        path = path.child(pair.0, pair.1)?;
    }
    Ok(path)
}

// The place of the path of these pairs: the lower bits of a number that tells most paths apart.
fn place_of(pairs: &[(u32, u32)]) -> usize {
    let mut word = 0u64;
    for (fork, branch) in pairs {
        let pair = u64::from(*fork) << 32 | u64::from(*branch);
        word = (word ^ pair).wrapping_add(1).wrapping_mul(SPREAD);
        word ^= word >> 32;
    }
    word as usize & (PLACES - 1)
}
