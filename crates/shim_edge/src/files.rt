// Files that are read by name.
ghost use Rattle.std.specs.Prelude.{◌≡◌, ◌≢◌, ℕ, List, [], ◌∷◌, ◌++◌, Bool, Option, Err, IsTrue, IsSome, OnOk, OnErr};
ghost use Rattle.shim_edge.specs.declared.files.FileFault.TheVariants.{Failed, NoMemory as OutOfMemory};
ghost use Rattle.shim_edge.specs.Files.{ShowsFile, AddsNameIfFailed, HasFile};

use shim_base::{List, NoMemory};
use std::alloc::{AllocError, AllocFailed, Global};

/// What a read of a file gave.
#[derive(Debug, Drop, PartialEq, Eq)]
pub enum Got {
    /// All of the file's bytes.
    Whole(List<u8>),
    /// The file has more bytes than were asked for. None of them is kept.
    Longer,
}

/// Why a read gave nothing.
#[derive(Clone, Copy, Debug, PartialEq, Eq)]
pub enum FileFault {
    /// The file is missing or could not be read; its name now ends the list of failed ones.
    Failed,
    /// No memory was found, for the bytes or for the name of a failed read.
    NoMemory,
}

impl From<NoMemory> for FileFault {
    ghost from_gives = { λ _ fault. fault ≡ OutOfMemory };

    fn from(_error: NoMemory) -> FileFault {
        FileFault::NoMemory
    }
}

impl From<AllocError> for FileFault {
    ghost from_gives = { λ _ fault. fault ≡ OutOfMemory };

    fn from(_error: AllocError) -> FileFault {
        FileFault::NoMemory
    }
}

impl<T: Drop> From<AllocFailed<T>> for FileFault {
    ghost from_gives = { λ _ fault. fault ≡ OutOfMemory };

    fn from(_error: AllocFailed<T>) -> FileFault {
        FileFault::NoMemory
    }
}

/// Files that are read by name, with a list of the failed reads by their names. Reads only add to the list. Its
/// length counts the reads that answered `Failed`, and never falls.
pub trait Files {
    /// The names and contents of the files, where contracts know them. Of two files of one name the first
    /// is read.
    ghost held: { Self → Option (List (List ℕ × List ℕ)) };

    /// The files are known, and no read of one of them fails.
    ghost sound: { Self → Bool };

    /// The name of each failed read, in order.
    ghost failed: { Self → List (List ℕ) };

    /// Reads the file of that name, if it has at most `most` bytes.
    ///
    /// A missing file is a failed read. Running out of memory is none, and may come at any call. No read changes
    /// the files, nor whether they are known or sound.
    fn read(&mut self, alloc: Global, name: &[u8], most: usize) -> Result<Got, FileFault>
        ensures content { ShowsFile (held self.old) name.now most result }
        // `Failed` comes exactly where this name was added to the failed ones.
        ensures cause { AddsNameIfFailed (failed self.old) name.now (failed self.new) result }
        ensures held { held self.new ≡ held self.old }
        ensures sound { sound self.new ≡ sound self.old }
        ensures read_if_sound { IsTrue (sound self.old) → HasFile (held self.old) name.now → result ≢ Err Failed };

    /// Sound files are known.
    ghost known_if_sound: { (files : Self) → IsTrue (sound files) → IsSome (held files) };
}

/// Adds the name of a read that failed. A refusal leaves the names as they were.
pub(crate) fn add_failed(
    failed: &mut List<List<u8>>,
    alloc: Global,
    name: &[u8],
) -> Result<(), NoMemory>
    ensures ok { OnOk result (failed.new ≡ failed.old ++ name.now ∷ []) }
    ensures err { OnErr result (failed.new ≡ failed.old) }
{
    let name = List::from_slice(alloc, name)?;
    failed.push(name)
}
