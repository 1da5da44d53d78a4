// The system's files and the standard output, of whose content contracts know nothing.
ghost use Rattle.std.specs.Prelude.{◌≡◌, ◌≤◌, [], ◌≢◌, Err, IsTrue, false, IsUtf8, length, None, IfOk, OnOk, OnErr};
ghost use Rattle.shim_edge.specs.Count.{count_fault, HasRisen};
ghost use Rattle.shim_edge.specs.Files.{ShowsContent, ShowsFile, AddsNameIfFailed, HasFile, no_files};
ghost use Rattle.shim_edge.specs.declared.files.FileFault.TheVariants.{Failed};
ghost use Rattle.shim_edge.specs.Sink.{Takes};

use crate::files::add_failed;
use crate::{FileFault, Files, Got, Sink, SinkFault};
use shim_base::List;
use std::alloc::Global;
use std::fs::File;
use std::io::{ErrorKind, Read, Write};
use std::marker::Model;
use std::{io, rt};

/// The system's files, by their paths. Contracts see them as the names of the failed reads, in order; what
/// the files hold is not known.
#[derive(Drop)]
pub struct HostFiles<'a, R> {
    rt: &'a R,
    failed: List<List<u8>>,
}

impl<'a, R> Model for HostFiles<'a, R> {
    ghost use Rattle.std.specs.Prelude.{ℕ, List as ListOf};

    ghost Value = { ListOf (ListOf ℕ) };

    ghost view = { λ files. files.failed };
}

impl<'a, R: rt::Files> HostFiles<'a, R> {
    /// The files that the runtime reaches. No read of them has failed yet.
    pub fn new(alloc: Global, rt: &'a R) -> HostFiles<'a, R>
        ensures { result ≡ [] }
    {
        HostFiles {
            rt,
            failed: List::new(alloc),
        }
    }
}

// Reads at most one byte past the limit. The answer is all that the reader has left, or `Longer` if that is more
// than the limit.
fn read_source<T: Read + Drop>(alloc: Global, source: T, most: usize) -> io::Result<Got>
    ensures { IfOk result (ShowsContent (T.remaining source) most) }
{
    let mut bytes = Vec::new(alloc);
    source
        .take((most as u64).saturating_add(1))
        .read_to_end(&mut bytes)?;
    if bytes.len() <= most {
        Ok(Got::Whole(List::from(bytes)))
    } else {
        Ok(Got::Longer)
    }
}

// Reads the file at that path. A name that is no UTF-8 is no path.
fn read_file<R: rt::Files>(alloc: Global, rt: &R, name: &[u8], most: usize) -> io::Result<Got>
    ensures content { IfOk result (ShowsContent None most) }
    ensures utf8 { OnOk result (IsUtf8 name.now) }
{
    let Ok(path) = str::from_utf8(name) else {
        return Err(io::Error::from(ErrorKind::InvalidInput));
    };
    read_source(alloc, File::open(rt, path)?, most)
}

impl<R: rt::Files> Files for HostFiles<'_, R> {
    ghost use Rattle.std.specs.Prelude.{false};
    ghost use Rattle.shim_edge.specs.Files.{no_files};

    ghost held = { λ _. no_files };

    ghost sound = { λ _. false };

    ghost failed = { λ failed. failed };

    ghost known_if_sound = { λ _ is_sound. is_sound };

    /// A name that is no UTF-8 is a failure, and so is every error of the system but out of memory.
    /// The call reads at most one byte more than `most`.
    fn read(&mut self, alloc: Global, name: &[u8], most: usize) -> Result<Got, FileFault>
        ensures content { ShowsFile no_files name.now most result }
        ensures cause { AddsNameIfFailed self.old name.now self.new result }
        ensures held { no_files ≡ no_files }
        ensures sound { false ≡ false }
        ensures read_if_sound { IsTrue false → HasFile no_files name.now → result ≢ Err Failed }

        ensures utf8 { OnOk result (IsUtf8 name.now) }
    {
        match read_file(alloc, self.rt, name, most) {
            Ok(got) => Ok(got),
            Err(e) if e.kind() == ErrorKind::OutOfMemory => Err(FileFault::NoMemory),
            Err(_) => {
                add_failed(&mut self.failed, alloc, name)?;
                Err(FileFault::Failed)
            }
        }
    }
}

/// The standard output. Contracts see it as the count of its failed writes, which saturates; what was taken
/// is not known.
#[derive(Drop)]
pub struct HostSink<'a, R> {
    rt: &'a R,
    faults: u64,
}

impl<'a, R> Model for HostSink<'a, R> {
    ghost use Rattle.std.specs.Prelude.{ℕ};

    ghost Value = { ℕ };

    ghost view = { λ sink. sink.faults };
}

impl<'a, R: Print> HostSink<'a, R> {
    /// The runtime's standard output. No write to it has failed yet.
    pub fn new(rt: &'a R) -> HostSink<'a, R>
        ensures { result ≡ 0 }
    {
        HostSink { rt, faults: 0 }
    }
}

impl<R: Print> Sink for HostSink<'_, R> {
    ghost use Rattle.std.specs.Prelude.{None};

    ghost taken = { λ _. None };

    ghost faults = { λ faults. faults };

    /// Fails where the system answers an error or takes no byte. Each failure counts one more, and
    /// nothing else does.
    fn write(&mut self, bytes: &[u8]) -> Result<usize, SinkFault>
        requires { 1 ≤ length bytes.now }
        ensures count { IfOk result (λ n. (1 ≤ n) × (n ≤ length bytes.now)) }
        ensures taken { Takes None bytes.now None result }
        ensures uncounted { OnOk result (self.new ≡ self.old) }
        ensures never_falls { self.old ≤ self.new }
        ensures cause { OnErr result (HasRisen self.old self.new) }

        ensures counted { self.new ≡ count_fault self.old result }
    {
        match io::writer(self.rt).write(bytes) {
            Ok(count) if 0 < count => Ok(count),
            _ => {
                self.faults = self.faults.saturating_add(1);
                Err(SinkFault::Failed)
            }
        }
    }
}
