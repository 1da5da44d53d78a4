// The close of a fork.
ghost use Rattle.std.specs.Prelude.{◌≡◌, ◌<◌, ◌+◌, ℕ, map, vec_len, vec_capacity, IfOk, OnErr};
ghost use Rattle.shim_semantics.specs.Trees.{steps, with_logs};
ghost use Rattle.shim_run_log.specs.Logged.{logged};
ghost use Rattle.shim_run_log.specs.Events.{event_of};
ghost use Rattle.shim_process_table.specs.Closing.{CanClose, close_effects};
ghost use Rattle.shim_process_table.specs.Lookups.{IsInUse, IsForAll};
ghost use Rattle.shim_run_state.specs.Fields.{count_in};
ghost use Rattle.shim_run_state.specs.RunStates.{tree_in, path_at, counts_from};
ghost use Rattle.shim_run_state.specs.CheckingOut.{HappensIn};
ghost use Rattle.shim_run_state.specs.PastCounts.{only_block};
ghost use Rattle.shim_run_state.specs.Settling.{StaysAs};

use crate::acting::log_catch;
use crate::run_state::{PastSteps, RunState};
use shim_base::{NoMemory, Path};
use shim_local::{Local, Log};
use shim_process_table::{CloseOutcome, ProcessTable, Requeue};
use shim_run_log::Event;
use std::alloc::Global;

// That the process of this path caught what a child had died of, if it did, is logged after the rest.
fn log_close(logs: &mut Vec<Log>, path: Path, outcome: CloseOutcome)
    requires { vec_len logs.old < vec_capacity logs.old }
    ensures { logged logs.new.items ≡ with_logs (logged logs.old.items) path (close_effects outcome).logs }
{
    match outcome {
        CloseOutcome::GoesOn => {}
        CloseOutcome::Threw(thrown) => log_catch(logs, path, thrown),
    }
}

// How many steps of its own each of so many processes did, from a number on.
fn past_of<L: Local>(
    alloc: Global,
    table: &ProcessTable<L>,
    own: &[u64],
    first: u32,
    count: u32,
) -> Result<Vec<PastSteps>, NoMemory>
    requires used { (b : ℕ) → b < count → IsInUse table.now (first + b) }
    requires owns { IsForAll table.now own.now }
    ensures { IfOk result (λ past. map count_in past.items ≡ counts_from (only_block first count (path_at L.ops table.now)) own.now) }
{
    let mut past = Vec::new(alloc);
    for branch in 0..count {
        let number = first.checked_add(branch).ok_or(NoMemory)?;
        past.push(PastSteps {
            path: table.path(number).copy()?,
            count: own[number as usize],
        })?;
    }
    Ok(past)
}

impl<L: Local> RunState<L> {
    // The close of the process's fork, none of whose children goes on. What may be refused comes first, since
    // what is done can't be taken back.
    pub(crate) fn close(&mut self, number: u32) -> Result<Event, NoMemory>
        requires few { steps (tree_in L.ops self.old) < 4000000 }
        requires can { CanClose self.old.table number }
        ensures ok { IfOk result (λ e. HappensIn L.ops self.old self.new (event_of e)) }
        ensures err { OnErr result (StaysAs L.ops self.old self.new) }
    {
        let path = self.table.path(number).copy()?;
        let event = Event::Close(path.copy()?);
        let (first, count) = self.table.children(number);
        let alloc = *self.output.allocator();
        let mut gathered = past_of(alloc, &self.table, self.process_lists.own(), first, count)?;
        self.logs.reserve(1)?;
        self.past.append(&mut gathered)?;
        let (outcome, forks) = self.table.close(number);
        log_close(&mut self.logs, path, outcome);
        let to_requeue = Requeue {
            queue: self.table.queue(number),
            // a child of the next fork up may have another record than before
            forks: forks as u64 + 1,
        };
        self.process_lists.requeue(&self.table, number, to_requeue);
        self.events += 1;
        self.taken += 1;
        Ok(event)
    }
}
