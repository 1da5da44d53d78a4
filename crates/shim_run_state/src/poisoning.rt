// A poison.
ghost use Rattle.std.specs.Prelude.{◌<◌, IfOk, OnErr};
ghost use Rattle.shim_semantics.specs.Trees.{steps};
ghost use Rattle.shim_run_log.specs.Events.{event_of};
ghost use Rattle.shim_process_table.specs.Due.{IsDoomed};
ghost use Rattle.shim_run_state.specs.RunStates.{tree_in};
ghost use Rattle.shim_run_state.specs.CheckingOut.{HappensIn};
ghost use Rattle.shim_run_state.specs.Settling.{StaysAs};

use crate::run_state::RunState;
use shim_base::NoMemory;
use shim_local::Local;
use shim_run_log::Event;

impl<L: Local> RunState<L> {
    // The poison of the child with this number, on the channel of this pair of the process's fork.
    pub(crate) fn poison(
        &mut self,
        number: u32,
        pair: usize,
        child: usize,
    ) -> Result<Event, NoMemory>
        requires few { steps (tree_in L.ops self.old) < 4000000 }
        requires doomed { IsDoomed L.ops self.old.table number pair child }
        ensures ok { IfOk result (λ e. HappensIn L.ops self.old self.new (event_of e)) }
        ensures err { OnErr result (StaysAs L.ops self.old self.new) }
    {
        let child = u32::try_from(child).map_err(|_| NoMemory)?;
        let chan = self.table.channel(number, pair).copy()?;
        let path = self.table.path(child).copy()?;
        // the innermost label in force at the fork
        let label = self.table.process(number).handlers().saturating_sub(1);
        self.table.sharers(child, &chan, &mut self.sharers)?;
        self.table.poison(child, &chan, label, &self.sharers);
        let sharers = self.sharers.numbers();
        self.process_lists.requeue_each(&self.table, sharers);
        self.events += 1;
        self.taken += 1;
        Ok(Event::Poison(path, chan))
    }
}
