// A rendezvous, and the value that is recorded of it.
ghost use Rattle.std.specs.Prelude.{◌≡◌, ◌<◌, IfOk, OnOk, OnErr};
ghost use Rattle.std.specs.Option.{option_copied};
ghost use Rattle.shim_semantics.specs.Nodes.{next_channel};
ghost use Rattle.shim_semantics.specs.Trees.{steps, Meet};
ghost use Rattle.shim_laws_table_events.specs.meetings.Sharers.{ListsReceivers};
ghost use Rattle.shim_laws_table_events.specs.meetings.Meetings.{IsEnabled, Declares, ReceivesOne, ReceiveAll};
ghost use Rattle.shim_run_log.specs.Events.{event_of};
ghost use Rattle.shim_process_table.specs.Due.{MeetsAlone, IsReadyToMeet};
ghost use Rattle.shim_run_state.specs.RunStates.{tree_in};
ghost use Rattle.shim_run_state.specs.ProcessLists.{Serves};
ghost use Rattle.shim_run_state.specs.Receiving.{RecordsValue, PassesOn};
ghost use Rattle.shim_run_state.specs.CheckingOut.{HappensIn};
ghost use Rattle.shim_run_state.specs.Settling.{StaysAs};

use crate::process_lists::ProcessLists;
use crate::run_state::RunState;
use shim_base::{Chan, NoMemory};
use shim_local::{Local, Stop};
use shim_process_table::{FoundProcesses, ProcessTable};
use shim_run_log::{Event, Histories};

// The channel at which the process is, if it is at one.
fn awaited<L: Local>(process: &L) -> Option<&Chan>
    ensures { option_copied result ≡ next_channel (L.ops.stop process.now) }
{
    match process.stop() {
        Stop::Next(chan) => Some(chan),
        Stop::Quiet
        | Stop::Put
        | Stop::Fork
        | Stop::Finish
        | Stop::Throw(_)
        | Stop::Trapped(_, _) => None,
    }
}

// The value comes after the others of the channel, whose home has this number. The channel's name is looked for at
// its first rendezvous alone, since later ones bring none, and among all that share the channel, which are then
// listed.
fn record<L: Local>(
    table: &ProcessTable<L>,
    histories: &mut Histories,
    number: u32,
    c: &Chan,
    sharers: &mut FoundProcesses,
    value: i64,
) -> Result<(), NoMemory>
    requires home { Declares L.ops table.now number c.now.channel }
    requires enabled { IsEnabled L.ops (Meet c.now.channel) table.now }
    ensures receivers { OnOk result (ListsReceivers L.ops table.now c.now.channel sharers.old → ListsReceivers L.ops table.now c.now.channel sharers.new) }
    ensures ok { OnOk result (RecordsValue L.ops table.now c.now.channel value histories.old histories.new) }
    ensures err { OnErr result (histories.new ≡ histories.old) }
{
    let known = histories.record_value(c, value)?;
    if known {
        return Ok(());
    }
    table.sharers(number, c, sharers)?;
    let name = table.meeting_name(number, c, sharers);
    histories.record(c, name, value)
}

// Each of these that lives and is at the channel receives the value, one after the other, and is put in the
// queue in which it then belongs; of the forks above it those are looked at again at which more may be due.
fn receive_each<L: Local>(
    table: &mut ProcessTable<L>,
    c: &Chan,
    numbers: &[u32],
    value: i64,
    process_lists: &mut ProcessLists,
)
    requires serves { Serves table.old process_lists.old }
    ensures receive { ReceiveAll L.ops c.now.channel value numbers.now table.old table.new }
    ensures passes { PassesOn L.ops table.old process_lists.old table.new process_lists.new }
{
    for place in 0..numbers.len() {
        receive_one(table, c, numbers[place], value, process_lists);
    }
}

// The process with this number receives the value, if it lives and is at the channel.
fn receive_one<L: Local>(
    table: &mut ProcessTable<L>,
    c: &Chan,
    number: u32,
    value: i64,
    process_lists: &mut ProcessLists,
)
    requires serves { Serves table.old process_lists.old }
    ensures receives { ReceivesOne L.ops c.now.channel value number table.old table.new }
    ensures passes { PassesOn L.ops table.old process_lists.old table.new process_lists.new }
{
    match table.receive(number, c, value) {
        None => {}
        Some(to_requeue) => process_lists.requeue(table, number, to_requeue),
    }
}

impl<L: Local> RunState<L> {
    // The rendezvous of the channel at which the process is, which declared it.
    pub(crate) fn meet_alone(&mut self, number: u32) -> Result<Event, NoMemory>
        requires few { steps (tree_in L.ops self.old) < 4000000 }
        requires alone { MeetsAlone L.ops self.old.table number }
        ensures ok { IfOk result (λ e. HappensIn L.ops self.old self.new (event_of e)) }
        ensures err { OnErr result (StaysAs L.ops self.old self.new) }
    {
        match awaited(self.table.process(number)) {
            None => unreachable!(),
            Some(chan) => {
                let chan = chan.copy()?;
                self.meet_on(number, chan)
            }
        }
    }

    // The rendezvous of the channel of this pair of the process's fork, which declared it.
    pub(crate) fn meet(&mut self, number: u32, pair: usize) -> Result<Event, NoMemory>
        requires few { steps (tree_in L.ops self.old) < 4000000 }
        requires there { IsReadyToMeet L.ops self.old.table number pair }
        ensures ok { IfOk result (λ e. HappensIn L.ops self.old self.new (event_of e)) }
        ensures err { OnErr result (StaysAs L.ops self.old self.new) }
    {
        let chan = self.table.channel(number, pair).copy()?;
        self.meet_on(number, chan)
    }

    // The rendezvous of the channel, whose home has this number. Its value is recorded first, which may want
    // memory.
    fn meet_on(&mut self, number: u32, chan: Chan) -> Result<Event, NoMemory>
        requires few { steps (tree_in L.ops self.old) < 4000000 }
        requires home { Declares L.ops self.old.table number chan.channel }
        requires enabled { IsEnabled L.ops (Meet chan.channel) self.old.table }
        ensures ok { IfOk result (λ e. HappensIn L.ops self.old self.new (event_of e)) }
        ensures err { OnErr result (StaysAs L.ops self.old self.new) }
    {
        let value = self.table.plan_meeting(number, &chan, &mut self.sharers)?;
        record(
            &self.table,
            &mut self.histories,
            number,
            &chan,
            &mut self.sharers,
            value,
        )?;
        receive_each(
            &mut self.table,
            &chan,
            self.sharers.numbers(),
            value,
            &mut self.process_lists,
        );
        self.events += 1;
        self.taken += 1;
        Ok(Event::Meet(chan))
    }
}
