// What a live process does by itself, other than quiet steps and forks.
ghost use Rattle.std.specs.Prelude.{◌≡◌, ◌<◌, ◌++◌, IfOk, OnErr, vec_len, vec_capacity};
ghost use Rattle.shim_local.specs.Process.{AtPut, AtFinish, AtThrow, AtTrap};
ghost use Rattle.shim_semantics.specs.Acts.{putting};
ghost use Rattle.shim_semantics.specs.Trees.{steps, with_logs};
ghost use Rattle.shim_run_log.specs.Logged.{logged};
ghost use Rattle.shim_run_log.specs.Events.{event_of};
ghost use Rattle.shim_process_table.specs.Stepping.{LivesAt};
ghost use Rattle.shim_process_table.specs.Acting.{throw_effects};
ghost use Rattle.shim_run_state.specs.RunStates.{tree_in};
ghost use Rattle.shim_run_state.specs.CheckingOut.{HappensIn};
ghost use Rattle.shim_run_state.specs.Settling.{StaysAs};

use crate::run_state::RunState;
use shim_base::{NoMemory, Path, Trap};
use shim_local::{Local, Log, LogWhat};
use shim_process_table::{Queue, Requeue, Thrown};
use shim_run_log::Event;

// A byte that was put, if there is one, comes after the others.
fn append_byte(output: &mut Vec<u8>, byte: Option<u8>)
    requires { vec_len output.old < vec_capacity output.old }
    ensures { output.new.items ≡ output.old.items ++ (putting byte).bytes }
{
    match byte {
        None => {}
        Some(byte) => output.push_reserved(byte),
    }
}

/// That the process of this path caught what it threw, if it did, is logged after the rest.
pub(crate) fn log_catch(logs: &mut Vec<Log>, path: Path, thrown: Thrown)
    requires { vec_len logs.old < vec_capacity logs.old }
    ensures { logged logs.new.items ≡ with_logs (logged logs.old.items) path (throw_effects thrown).logs }
{
    match thrown {
        Thrown::Died(_) | Thrown::Trapped => {}
        Thrown::Caught(name, line) => logs.push_reserved(Log {
            path,
            what: LogWhat::Caught(name, line),
        }),
    }
}

impl<L: Local> RunState<L> {
    // The `put` at which the process is. What may be refused comes first, since what is done can't be
    // taken back.
    pub(crate) fn put(&mut self, number: u32) -> Result<Event, NoMemory>
        requires few { steps (tree_in L.ops self.old) < 4000000 }
        requires lives_at { LivesAt L.ops self.old.table number AtPut }
        ensures ok { IfOk result (λ e. HappensIn L.ops self.old self.new (event_of e)) }
        ensures err { OnErr result (StaysAs L.ops self.old self.new) }
    {
        let event = Event::Own(self.table.path(number).copy()?);
        self.output.reserve(1)?;
        let (byte, to_requeue) = self.table.put(number);
        append_byte(&mut self.output, byte);
        self.process_lists.acted(&self.table, number, 1, to_requeue);
        self.taken += 1;
        Ok(event)
    }

    // The exception of this label that the process throws.
    pub(crate) fn throw(&mut self, number: u32, label: u32) -> Result<Event, NoMemory>
        requires few { steps (tree_in L.ops self.old) < 4000000 }
        requires lives_at { LivesAt L.ops self.old.table number (AtThrow label) }
        ensures ok { IfOk result (λ e. HappensIn L.ops self.old self.new (event_of e)) }
        ensures err { OnErr result (StaysAs L.ops self.old self.new) }
    {
        let path = self.table.path(number).copy()?;
        let event = Event::Own(path.copy()?);
        self.logs.reserve(1)?;
        let (thrown, to_requeue) = self.table.throw(number, label);
        log_catch(&mut self.logs, path, thrown);
        self.process_lists.acted(&self.table, number, 1, to_requeue);
        self.taken += 1;
        Ok(event)
    }

    // The trap at which the process is.
    pub(crate) fn trap(&mut self, number: u32, kind: Trap, line: u32) -> Result<Event, NoMemory>
        requires few { steps (tree_in L.ops self.old) < 4000000 }
        requires lives_at { LivesAt L.ops self.old.table number (AtTrap kind line) }
        ensures ok { IfOk result (λ e. HappensIn L.ops self.old self.new (event_of e)) }
        ensures err { OnErr result (StaysAs L.ops self.old self.new) }
    {
        let path = self.table.path(number).copy()?;
        let event = Event::Own(path.copy()?);
        self.logs.reserve(1)?;
        self.table.trap(number);
        self.logs.push_reserved(Log {
            path,
            what: LogWhat::Trap(kind, line),
        });
        let gone = Requeue {
            queue: self.table.queue(number),
            forks: u32::MAX as u64 + 1,
        };
        self.process_lists.acted(&self.table, number, 1, gone);
        self.taken += 1;
        Ok(event)
    }

    // The end of a process that has nothing left to do.
    pub(crate) fn finish(&mut self, number: u32) -> Result<Event, NoMemory>
        requires few { steps (tree_in L.ops self.old) < 4000000 }
        requires lives_at { LivesAt L.ops self.old.table number AtFinish }
        ensures ok { IfOk result (λ e. HappensIn L.ops self.old self.new (event_of e)) }
        ensures err { OnErr result (StaysAs L.ops self.old self.new) }
    {
        let event = Event::End(self.table.path(number).copy()?);
        let forks = self.table.end_process(number);
        let gone = Requeue {
            queue: Queue::Neither,
            // a child of the next fork up may have another record than before
            forks: forks as u64 + 1,
        };
        self.process_lists.requeue(&self.table, number, gone);
        self.events += 1;
        self.taken += 1;
        Ok(event)
    }
}
