// What a case gives to its calls: files, and what fails at the edges.
use shim_base::{List, Name, NoMemory};
use shim_edge::{MemFiles, MemSink};
use std::alloc::Global;

/// A file that the calls can read.
#[derive(Drop)]
pub struct HeldFile {
    pub name: Name,
    pub content: Vec<u8>,
}

/// The reads and the writes of a call that fail, counted from 0, and the most bytes that a write takes.
#[derive(Drop)]
pub struct Edges {
    pub failing_reads: List<u64>,
    pub failing_writes: List<u64>,
    pub most: usize,
}

/// The files that calls can read, and what fails.
#[derive(Drop)]
pub struct Setup {
    pub files: Vec<HeldFile>,
    pub edges: Edges,
}

/// The content of the file of this name, if there is one.
pub fn content<'a>(setup: &'a Setup, name: &str) -> Option<&'a [u8]> {
    for file in setup.files.iter() {
        if file.name.as_bytes() == name.as_bytes() {
            return Some(file.content.as_slice());
        }
    }
    None
}

fn add_files(
    alloc: Global,
    held: &mut List<(Name, List<u8>)>,
    files: &[HeldFile],
) -> Result<(), NoMemory> {
    for file in files {
        let name = Name::new(alloc, file.name.as_bytes())?;
        held.push((name, List::from_slice(alloc, file.content.as_slice())?))?;
    }
    Ok(())
}

/// The files of a setup, and these further ones. The reads that the setup names fail.
pub fn files_of(alloc: Global, setup: &Setup, more: &[HeldFile]) -> Result<MemFiles, NoMemory> {
    let mut held = List::new(alloc);
    add_files(alloc, &mut held, setup.files.as_slice())?;
    add_files(alloc, &mut held, more)?;
    let failing = List::from_slice(alloc, setup.edges.failing_reads.as_slice())?;
    Ok(MemFiles::new(alloc, held, failing))
}

/// A sink with so much room. The writes that the setup names fail, and the others take at most its `most` bytes.
pub fn sink_with_room(alloc: Global, setup: &Setup, room: usize) -> Result<MemSink, NoMemory> {
    let failing = List::from_slice(alloc, setup.edges.failing_writes.as_slice())?;
    let mut sink = MemSink::new(alloc, setup.edges.most.max(1), failing);
    sink.room(room)?;
    Ok(sink)
}
