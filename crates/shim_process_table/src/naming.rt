// The name that a channel's first rendezvous brings.
ghost use Rattle.std.specs.Prelude.{◌≡◌};
ghost use Rattle.shim_semantics.specs.Nodes.{next_channel, name_for};
ghost use Rattle.shim_semantics.specs.Trees.{Meet};
ghost use Rattle.shim_laws_table_events.specs.meetings.Sharers.{ListsSharers};
ghost use Rattle.shim_laws_table_events.specs.meetings.Meetings.{IsEnabled, Declares};
ghost use Rattle.shim_laws_table_events.specs.meetings.Names.{HasName};
ghost use Rattle.shim_process_table.specs.Naming.{NamesIt, IsChannelName};

use crate::descent::FoundProcesses;
use crate::process_table::ProcessTable;
use shim_base::Chan;
use shim_local::{Local, Stop};

// The name that the process has for the channel, if it is at it.
fn name_of<L: Local>(process: &L, c: &Chan) -> Option<u32>
    ensures { result ≡ name_for c.now.channel (next_channel (L.ops.stop process.now)) }
{
    match process.stop() {
        Stop::Next(chan) => { if *chan == *c { Some(chan.name()) } else { None } }
        Stop::Quiet
        | Stop::Put
        | Stop::Fork
        | Stop::Finish
        | Stop::Throw(_)
        | Stop::Trapped(_, _) => None,
    }
}

impl<L: Local> ProcessTable<L> {
    /// The name that a rendezvous of the channel brings whose home has this number, if it is the first one: that of
    /// the first process which waits at the channel, on a walk from the root with leftmost children first.
    pub fn meeting_name(&self, number: u32, c: &Chan, sharers: &FoundProcesses) -> u32
        requires home { Declares L.ops self.now number c.now.channel }
        requires enabled { IsEnabled L.ops (Meet c.now.channel) self.now }
        requires sharers { ListsSharers L.ops self.now c.now.channel number sharers.now }
        ensures { HasName L.ops self.now c.now.channel result }
    {
        self.first_name(sharers, c)
    }

    // The name that the first of these has for the channel which lives and is at it; 0 if there is none.
    fn first_name(&self, sharers: &FoundProcesses, c: &Chan) -> u32
        ensures { IsChannelName L.ops self.now c.now.channel sharers.now result }
    {
        for place in 0..sharers.numbers.len() {
            match self.name_by(sharers.numbers[place] as usize, c) {
                None => {}
                Some(name) => return name,
            }
        }
        0
    }

    // The name that the process with this number has for the channel, if it lives and is at it.
    fn name_by(&self, at: usize, c: &Chan) -> Option<u32>
        ensures { NamesIt L.ops c.now.channel at self.now result }
    {
        if !self.lives(at) {
            return None;
        }
        name_of(&self.states[at], c)
    }
}
