// Reads and writes in memory, one after another, as text.
use crate::setup::{Setup, content, files_of, sink_with_room};
use shim_base::{List, NoMemory, push_decimal};
use shim_edge::{FileFault, Files, Got, MemFiles, MemSink, Sink, SinkFault, write_all};
use std::alloc::Global;

fn add_whole(reply: &mut List<u8>, bytes: &[u8]) -> Result<(), NoMemory> {
    reply.extend_from_slice(b"whole ")?;
    reply.extend_from_slice(bytes)?;
    reply.push(b'\n')
}

// Adds what a read gave.
fn add_got(reply: &mut List<u8>, got: &Result<Got, FileFault>) -> Result<(), NoMemory> {
    match got {
        Ok(Got::Whole(bytes)) => add_whole(reply, bytes.as_slice()),
        Ok(Got::Longer) => reply.extend_from_slice(b"longer\n"),
        Err(FileFault::Failed) => reply.extend_from_slice(b"failed\n"),
        Err(FileFault::NoMemory) => Err(NoMemory),
    }
}

// Adds what a read of this name gives, up to so many bytes.
fn add_read(
    reply: &mut List<u8>,
    files: &mut MemFiles,
    name: &str,
    most: usize,
) -> Result<(), NoMemory> {
    let got = files.read(reply.allocator(), name.as_bytes(), most);
    add_got(reply, &got)
}

// The name and the most bytes of a read, `NAME:MOST`.
fn read_of(word: &str) -> Option<(&str, usize)> {
    let Some((name, most)) = word.split_once(':') else {
        return None;
    };
    match most.parse::<usize>() {
        Ok(most) => Some((name, most)),
        Err(_) => None,
    }
}

/// `reads NAME:MOST..`: what each of these reads gives, in their order.
pub fn reads(alloc: Global, setup: &Setup, words: &[String]) -> Result<Option<List<u8>>, NoMemory> {
    let mut files = files_of(alloc, setup, &[])?;
    let mut reply = List::new(alloc);
    for word in words {
        let Some((name, most)) = read_of(word.as_str()) else {
            return Ok(None);
        };
        add_read(&mut reply, &mut files, name, most)?;
    }
    Ok(Some(reply))
}

// Adds what the sink has taken.
fn add_taken(reply: &mut List<u8>, sink: &MemSink) -> Result<(), NoMemory> {
    reply.extend_from_slice(b", so ")?;
    reply.extend_from_slice(sink.taken())?;
    reply.push(b'\n')
}

// Adds what a write of these bytes gave, or `nothing` where there are none: then nothing is written.
fn add_write(reply: &mut List<u8>, sink: &mut MemSink, bytes: &[u8]) -> Result<(), NoMemory> {
    if bytes.is_empty() {
        return reply.extend_from_slice(b"nothing");
    }
    match sink.write(bytes) {
        Ok(count) => {
            reply.extend_from_slice(b"took ")?;
            push_decimal(reply, count as u64)
        }
        Err(SinkFault::Failed) => reply.extend_from_slice(b"failed"),
    }
}

// Adds what a write of all of these bytes gave.
fn add_whole_write(reply: &mut List<u8>, sink: &mut MemSink, bytes: &[u8]) -> Result<(), NoMemory> {
    match write_all(sink, bytes) {
        Ok(()) => reply.extend_from_slice(b"written"),
        Err(SinkFault::Failed) => reply.extend_from_slice(b"failed"),
    }
}

// A sink with the room that this word gives; nothing where it is no number.
fn sink_of(alloc: Global, setup: &Setup, room: &str) -> Result<Option<MemSink>, NoMemory> {
    match room.parse::<usize>() {
        Ok(room) => Ok(Some(sink_with_room(alloc, setup, room)?)),
        Err(_) => Ok(None),
    }
}

/// `writes ROOM FILE..`: what a write of each file gives, one after another, to a sink with this room, and what the
/// sink has taken after each. A file that isn't there has no bytes.
pub fn writes(
    alloc: Global,
    setup: &Setup,
    words: &[String],
) -> Result<Option<List<u8>>, NoMemory> {
    let Some((room, names)) = words.split_first() else {
        return Ok(None);
    };
    let Some(mut sink) = sink_of(alloc, setup, room.as_str())? else {
        return Ok(None);
    };
    let mut reply = List::new(alloc);
    for name in names {
        let bytes = content(setup, name.as_str()).unwrap_or(b"".as_slice());
        add_write(&mut reply, &mut sink, bytes)?;
        add_taken(&mut reply, &sink)?;
    }
    Ok(Some(reply))
}

/// `writes-all ROOM FILE`: what `write_all` of this file gives, to a sink with this room, and what the sink has taken
/// then.
pub fn whole_write(
    alloc: Global,
    setup: &Setup,
    room: &str,
    name: &str,
) -> Result<Option<List<u8>>, NoMemory> {
    let Some(mut sink) = sink_of(alloc, setup, room)? else {
        return Ok(None);
    };
    let bytes = content(setup, name).unwrap_or(b"".as_slice());
    let mut reply = List::new(alloc);
    add_whole_write(&mut reply, &mut sink, bytes)?;
    add_taken(&mut reply, &sink)?;
    Ok(Some(reply))
}
