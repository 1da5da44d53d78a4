// Files in memory, whose reads fail on request.
ghost use Rattle.std.specs.Prelude.{◌≡◌, ◌≢◌, [], length, Some, Err, IsTrue, IsErr, IfOk, option_copied};
ghost use Rattle.shim_edge.specs.declared.files.FileFault.TheVariants.{Failed};
ghost use Rattle.shim_edge.specs.Files.{file_of, ShowsFile, ShowsContent, AddsNameIfFailed, HasFile};
ghost use Rattle.shim_edge.specs.MemFiles.{RefusesRead, after_read};

use crate::files::add_failed;
use crate::{FileFault, Files, Got};
use shim_base::{List, Name, NoMemory};
use std::alloc::Global;
use std::marker::Model;

/// Files in memory. A read fails where that was asked for, and at a name that has no file. Contracts see
/// them as a `FilesInMemory`, a record of `specs/`.
#[derive(Debug, Drop)]
pub struct MemFiles {
    files: List<(Name, List<u8>)>,
    failing: List<u64>,
    failed: List<List<u8>>,
    calls: u64,
}

impl Model for MemFiles {
    ghost use Rattle.shim_edge.specs.MemFiles.{FilesInMemory};

    ghost Value = { FilesInMemory };

    ghost view = { λ memory. record {
      files = memory.files;
      failing = memory.failing;
      failed = memory.failed;
      calls = memory.calls;
    } };
}

impl MemFiles {
    /// Files of these names and contents. The reads of these numbers, counted from 0, fail. The count of
    /// reads saturates.
    pub fn new(alloc: Global, files: List<(Name, List<u8>)>, failing: List<u64>) -> MemFiles
        ensures { result ≡ record { files = files; failing = failing; failed = []; calls = 0 } }
    {
        MemFiles {
            files,
            failing,
            failed: List::new(alloc),
            calls: 0,
        }
    }
}

// The content of the first file of that name.
fn find<'a>(files: &'a [(Name, List<u8>)], name: &[u8]) -> Option<&'a List<u8>>
    ensures { option_copied result ≡ file_of files.now name.now }
{
    for file in files {
        if file.0.as_bytes() == name {
            return Some(&file.1);
        }
    }
    None
}

// A copy of the content, if it has at most `most` bytes, and else `Longer`.
fn shown(alloc: Global, content: &[u8], most: usize) -> Result<Got, NoMemory>
    ensures { IfOk result (ShowsContent (Some content.now) most) }
{
    if content.len() <= most {
        let bytes = List::from_slice(alloc, content)?;
        Ok(Got::Whole(bytes))
    } else {
        Ok(Got::Longer)
    }
}

impl Files for MemFiles {
    ghost use Rattle.std.specs.Prelude.{Some, length, ◌==◌, refl};

    ghost held = { λ memory. Some memory.files };

    ghost sound = { λ memory. length memory.failing == 0 };

    ghost failed = { λ memory. memory.failed };

    ghost known_if_sound = { λ memory is_sound. refl };

    /// Fails exactly where this read is to fail or no file has that name. `NoMemory` may come in place of each
    /// answer, and then leaves all as it was. Every other read counts.
    fn read(&mut self, alloc: Global, name: &[u8], most: usize) -> Result<Got, FileFault>
        ensures content { ShowsFile (Some self.old.files) name.now most result }
        ensures cause { AddsNameIfFailed self.old.failed name.now self.new.failed result }
        ensures held { Some self.new.files ≡ Some self.old.files }
        ensures sound { (length self.new.failing == 0) ≡ (length self.old.failing == 0) }
        ensures read_if_sound { IsTrue (length self.old.failing == 0) → HasFile (Some self.old.files) name.now → result ≢ Err Failed }

        ensures failed_if_refused { result ≡ Err Failed → RefusesRead self.old name.now }
        ensures refused { RefusesRead self.old name.now → IsErr result }
        ensures after { self.new ≡ after_read self.old name.now result }
    {
        let is_failing = self.failing.as_slice().contains(&self.calls);
        match find(self.files.as_slice(), name) {
            Some(content) if !is_failing => {
                let got = shown(alloc, content.as_slice(), most)?;
                self.calls = self.calls.saturating_add(1);
                Ok(got)
            }
            _ => {
                add_failed(&mut self.failed, alloc, name)?;
                self.calls = self.calls.saturating_add(1);
                Err(FileFault::Failed)
            }
        }
    }
}
