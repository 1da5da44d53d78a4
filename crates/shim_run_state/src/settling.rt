// Events other than quiet steps, one at a time.
ghost use Rattle.std.specs.Prelude.{◌≡◌, ◌≢◌, ◌<◌, true, false, IfOk, OnErr, MatchOption};
ghost use Rattle.shim_semantics.specs.Trees.{steps};
ghost use Rattle.shim_run_log.specs.Events.{event_of};
ghost use Rattle.shim_process_table.specs.Due.{DueIs};
ghost use Rattle.shim_process_table.specs.declared.due.Due.TheVariants.{Nothing};
ghost use Rattle.shim_run_state.specs.RunStates.{tree_in};
ghost use Rattle.shim_run_state.specs.CheckingOut.{HappensIn, RestsIn};
ghost use Rattle.shim_run_state.specs.Settling.{KeepsEventsListed, IsNextDue, StaysAs};

use crate::run_state::RunState;
use shim_base::NoMemory;
use shim_local::Local;
use shim_process_table::{Due, ProcessTable};
use shim_records::Worklist;
use shim_run_log::Event;

/// Whether anything is due.
pub(crate) fn is_something(due: Due) -> bool
    ensures something { result ≡ true → due ≢ Nothing }
    ensures nothing { result ≡ false → due ≡ Nothing }
{
    due != Due::Nothing
}

// The next listed number at which something other than a quiet step can happen, and what. It stays listed;
// those before it are listed no more.
pub(crate) fn first_due<L: Local>(
    table: &ProcessTable<L>,
    event_queue: &mut Worklist,
) -> Option<(u32, Due)>
    ensures still { KeepsEventsListed L.ops table.now event_queue.old event_queue.new }
    ensures due { IsNextDue L.ops table.now event_queue.new result }
{
    while let Some(number) = event_queue.take() {
        let due = table.due(number);
        if is_something(due) {
            event_queue.add(number);
            return Some((number, due));
        }
    }
    None
}

impl<L: Local> RunState<L> {
    /// Does an enabled event that is no quiet step, and answers which; `None` exactly where there is none. Which of
    /// several it does is free. Who is checked out stays so. Running out of memory leaves the tree as it was. The
    /// tree has to have fewer than 4,000,000 steps.
    pub fn settle_one(&mut self) -> Result<Option<Event>, NoMemory>
        requires few { steps (tree_in L.ops self.old) < 4000000 }
        ensures ok { IfOk result (λ event. MatchOption event (RestsIn L.ops self.old self.new) (λ e. HappensIn L.ops self.old self.new (event_of e))) }
        ensures err { OnErr result (StaysAs L.ops self.old self.new) }
    {
        match self.process_lists.next_due(&self.table) {
            None => Ok(None),
            Some((number, due)) => Ok(Some(self.happen(number, due)?)),
        }
    }

    // What is due at this number happens.
    fn happen(&mut self, number: u32, due: Due) -> Result<Event, NoMemory>
        requires few { steps (tree_in L.ops self.old) < 4000000 }
        requires due { DueIs L.ops self.old.table number due }
        requires some { due ≢ Nothing }
        ensures ok { IfOk result (λ e. HappensIn L.ops self.old self.new (event_of e)) }
        ensures err { OnErr result (StaysAs L.ops self.old self.new) }
    {
        match due {
            Due::Nothing => unreachable!(),
            Due::Put => self.put(number),
            Due::Throw(label) => self.throw(number, label),
            Due::Trap(kind, line) => self.trap(number, kind, line),
            Due::Finish => self.finish(number),
            Due::Fork => self.fork(number),
            Due::Close => self.close(number),
            Due::MeetAlone => self.meet_alone(number),
            Due::Meet(pair) => self.meet(number, pair),
            Due::Poison(pair, child) => self.poison(number, pair, child),
        }
    }
}
