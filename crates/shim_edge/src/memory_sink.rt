// A sink in memory, whose writes fail on request.
ghost use Rattle.std.specs.Prelude.{◌≡◌, ◌≤◌, ◌+◌, [], length, min, max, Some, IsTrue, IsErr, IfOk, OnOk, OnErr, ◌↔◌};
ghost use Rattle.shim_edge.specs.Count.{count_up, count_fault, HasRisen};
ghost use Rattle.shim_edge.specs.Sink.{Takes};
ghost use Rattle.shim_edge.specs.MemSink.{RefusesWrite};

use crate::{Sink, SinkFault};
use shim_base::{List, NoMemory};
use std::alloc::Global;
use std::marker::Model;

/// A sink that takes bytes into room that was reserved. A write fails where that was asked for, and past
/// the room. Contracts see it as a `SinkInMemory`, a record of `specs/`.
#[derive(Debug, Drop)]
pub struct MemSink {
    taken: Vec<u8>,
    room: usize,
    most: usize,
    failing: List<u64>,
    calls: u64,
    faults: u64,
}

impl Model for MemSink {
    ghost use Rattle.std.specs.Prelude.{vec_len, vec_capacity};
    ghost use Rattle.shim_edge.specs.MemSink.{SinkInMemory, IsWithinRoom};

    ghost Value = { SinkInMemory };

    ghost view = { λ sink. record {
      taken = sink.taken.items;
      room = sink.room;
      most = sink.most;
      failing = sink.failing;
      calls = sink.calls;
      faults = sink.faults;
    } };

    ghost invariant = { λ sink. IsWithinRoom (vec_len sink.taken) sink.room (vec_capacity sink.taken) sink.most };
}

impl MemSink {
    /// A sink with no room yet, which takes at most `most` bytes a write. The writes of these numbers,
    /// counted from 0, fail. The counts of writes and faults saturate.
    pub fn new(alloc: Global, most: usize, failing: List<u64>) -> MemSink
        requires { 1 ≤ most }
        ensures { result ≡ record { taken = []; room = 0; most = most; failing = failing; calls = 0; faults = 0 } }
    {
        MemSink {
            taken: Vec::new(alloc),
            room: 0,
            most,
            failing,
            calls: 0,
            faults: 0,
        }
    }

    /// Reserves room for so many bytes beyond those taken, where there is less. A refusal changes
    /// nothing.
    pub fn room(&mut self, bytes: usize) -> Result<(), NoMemory>
        ensures ok { OnOk result (self.new ≡ record self.old { room = max self.old.room (length self.old.taken + bytes) }) }
        ensures err { OnErr result (self.new ≡ self.old) }
    {
        self.taken.reserve_exact(bytes)?;
        self.room = self.room.max(self.taken.len() + bytes);
        Ok(())
    }

    /// The bytes that were taken, in the order of the writes.
    pub fn taken(&self) -> &[u8]
        ensures { result.now ≡ self.now.taken }
    {
        &self.taken
    }

    // Whether the next write fails: it is to fail, or the taken bytes and this many more pass the room.
    fn refuses(&self, count: usize) -> bool
        ensures { IsTrue result ↔ RefusesWrite self.now count }
    {
        self.failing.as_slice().contains(&self.calls) || self.room - self.taken.len() < count
    }
}

impl Sink for MemSink {
    ghost use Rattle.std.specs.Prelude.{Some};

    ghost taken = { λ sink. Some sink.taken };

    ghost faults = { λ sink. sink.faults };

    /// Takes as many of the bytes as one write may, and no memory. Fails exactly where this write is to
    /// fail, or what it would take passes the room. The sink counts each write, and the writes that fail.
    fn write(&mut self, bytes: &[u8]) -> Result<usize, SinkFault>
        requires { 1 ≤ length bytes.now }
        ensures count { IfOk result (λ n. (1 ≤ n) × (n ≤ length bytes.now)) }
        ensures taken { Takes (Some self.old.taken) bytes.now (Some self.new.taken) result }
        ensures uncounted { OnOk result (self.new.faults ≡ self.old.faults) }
        ensures never_falls { self.old.faults ≤ self.new.faults }
        ensures cause { OnErr result (HasRisen self.old.faults self.new.faults) }

        ensures most { IfOk result (λ n. n ≡ min (length bytes.now) self.old.most) }
        ensures refused { IsErr result ↔ RefusesWrite self.old (min (length bytes.now) self.old.most) }
        ensures rest { self.new ≡ record self.old {
          taken = self.new.taken;
          calls = count_up self.old.calls;
          faults = count_fault self.old.faults result;
        } }
    {
        let count = bytes.len().min(self.most);
        let is_refused = self.refuses(count);
        self.calls = self.calls.saturating_add(1);
        if is_refused {
            self.faults = self.faults.saturating_add(1);
            return Err(SinkFault::Failed);
        }
        self.taken.extend_from_slice(&bytes[..count]).unwrap();
        Ok(count)
    }
}
