// What a live process does by itself beside quiet steps and forks, in place.
ghost use Rattle.std.specs.Prelude.{◌≡◌, ℕ, ◌+◌, pos};
ghost use Rattle.shim_base.specs.declared.operators.Trap.{Trap as TrapView};
ghost use Rattle.shim_local.specs.Process.{AtPut, AtFinish, AtThrow, AtTrap};
ghost use Rattle.shim_semantics.specs.Nodes.{death_with};
ghost use Rattle.shim_semantics.specs.Acts.{nothing, putting, throwing, trapping};
ghost use Rattle.shim_laws_table.specs.NodeStatus.{lives, ends, dies};
ghost use Rattle.shim_records.specs.Ways.{most_forks};
ghost use Rattle.shim_process_table.specs.Stepping.{LivesAt};
ghost use Rattle.shim_process_table.specs.Acting.{IsTrappedAt, ActsAlone, status_by_throw, thrown_by, throw_effects};
ghost use Rattle.shim_process_table.specs.Queue.{QueueIs};

use crate::closing::throw_in;
use crate::process_table::ProcessTable;
use crate::propagating::{Requeue, propagate_stop};
use crate::queue::Queue;
use crate::terminating::terminate;
use shim_local::{Death, Local};
use shim_records::Status;

/// What came of a throw.
#[derive(Clone, Copy, Debug, PartialEq, Eq)]
pub enum Thrown {
    /// The process caught it: the number of the exception's name, and the line of the `try`.
    Caught(u32, u32),
    /// No handler of its own is in force for the label, and the process died this death.
    Died(Death),
    /// The throw's expression trapped, and the process is trapped.
    Trapped,
}

// The throw of this label at which a process is.
fn throw_own<L: Local>(process: &mut L, label: u32) -> Thrown
    requires sound { L.ops.sound process.old }
    requires stop_is { L.ops.stop process.old ≡ AtThrow label }
    ensures { thrown_by result process.new ≡ throwing L.ops process.old label (L.ops.number process.old) }
{
    match process.thrown() {
        None => Thrown::Trapped,
        Some(number) => throw_in(
            process,
            Death {
                label,
                given: Some(number),
            },
        ),
    }
}

impl<L: Local> ProcessTable<L> {
    /// The process with this number, which lives and is at a `put`, does it. The answer is the byte, or `None` where
    /// the expression traps and the process is trapped; and what is to be queued again.
    pub fn put(&mut self, number: u32) -> (Option<u8>, Requeue)
        requires { LivesAt L.ops self.old number AtPut }
        ensures acts { ActsAlone L.ops result.1.forks number AtPut lives (putting result.0) self.old self.new }
        ensures queue { QueueIs L.ops self.new number result.1.queue }
    {
        let at = number as usize;
        let byte = self.states[at].put();
        let to_requeue = propagate_stop(&self.states[at], &mut self.records, at);
        (byte, to_requeue)
    }

    /// The process with this number, which lives and is at a throw of the exception of this label, throws it: a
    /// handler of its own catches it, or the process dies, or is trapped. The answer says which, and what is to be
    /// queued again.
    pub fn throw(&mut self, number: u32, label: u32) -> (Thrown, Requeue)
        requires { LivesAt L.ops self.old number (AtThrow label) }
        ensures acts { ActsAlone L.ops result.1.forks number (AtThrow label) (status_by_throw result.0) (throw_effects result.0) self.old self.new }
        ensures queue { QueueIs L.ops self.new number result.1.queue }
    {
        let at = number as usize;
        let thrown = throw_own(&mut self.states[at], label);
        if let Thrown::Died(death) = thrown {
            let forks = terminate(&self.states[at], Status::Dead(death), &mut self.records, at);
            let gone = Requeue {
                queue: Queue::Neither,
                // a child of the next fork up may have another record than before
                forks: forks as u64 + 1,
            };
            return (thrown, gone);
        }
        let to_requeue = propagate_stop(&self.states[at], &mut self.records, at);
        (thrown, to_requeue)
    }

    /// The process with this number, which lives and is trapped, dies of the trap.
    pub fn trap(&mut self, number: u32)
        requires { IsTrappedAt L.ops self.old number }
        ensures { (kind : TrapView) (line : ℕ) → LivesAt L.ops self.old number (AtTrap kind line) → ActsAlone L.ops (most_forks + 1) number (AtTrap kind line) (dies (death_with 0 (pos 0))) (trapping kind line) self.old self.new }
    {
        let at = number as usize;
        terminate(
            &self.states[at],
            Status::Dead(Death {
                label: 0,
                given: Some(0),
            }),
            &mut self.records,
            at,
        );
    }

    /// The process with this number, which lives and has nothing left to do, ends. Answers a bound on how many
    /// forks above it have changed records.
    pub fn end_process(&mut self, number: u32) -> u32
        requires { LivesAt L.ops self.old number AtFinish }
        ensures { ActsAlone L.ops (result + 1) number AtFinish ends nothing self.old self.new }
    {
        let at = number as usize;
        terminate(&self.states[at], Status::Ended, &mut self.records, at)
    }
}
