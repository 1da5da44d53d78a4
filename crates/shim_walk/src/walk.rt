// One process as a value.
ghost use Rattle.std.specs.Prelude.{◌≡◌, ◌≢◌, ◌≤◌, ◌<◌, ◌↔◌, IsTrue, IfOk, OnOk, OnErr, false};
ghost use Rattle.shim_process.specs.Forks.{root};
ghost use Rattle.shim_local.specs.Laws.{AllOf};
ghost use Rattle.shim_local.specs.Process.{AtQuiet};
ghost use Rattle.shim_process.specs.Ops.{process_ops};
ghost use Rattle.shim_process.specs.Sound.{Sound};

use crate::has_process::HasProcess;
use crate::process::{ForkedProcess, Process};
use shim_base::{Chan, List, NoMemory, Path, Shared};
use shim_local::{Forked, Local, Quiet, Stop};
use shim_units::Accepted;
use std::alloc::Global;
use std::marker::Model;

/// A process over the syntax of its units. Contracts see its state, and its type keeps that this state is sound.
#[derive(Drop)]
pub struct Walk {
    process: Process,
}

impl Model for Walk {
    ghost use Rattle.std.specs.Coded.{codes};
    ghost use Rattle.shim_process.specs.LocalState.{LocalState};
    ghost use Rattle.shim_units.specs.contracts.unit.Unit as unit;
    ghost use Rattle.shim_units.specs.contracts.unit.UWhat as what;
    ghost use Rattle.shim_process.specs.Sound.{Sound};

    ghost Value = { LocalState };

    ghost coded = { Prim.hlevel (codes, unit.the_row.coded, what.the_row.coded) };

    ghost view = { λ w. w.process };

    ghost invariant = { λ w. Sound w.process };
}

impl Walk {
    /// The process that runs `main` of the program, which reads these bytes where it takes an input.
    pub fn main(
        alloc: Global,
        program: Shared<Accepted>,
        input: Shared<List<u8>>,
    ) -> Result<Walk, NoMemory>
        ensures { IfOk result (λ walk. walk ≡ root program input) }
    {
        Ok(Walk::of(Process::main(alloc, program, input)?))
    }

    // The process, whose state is sound.
    fn of(process: Process) -> Walk
        requires { Sound process }
        ensures { result ≡ process }
    {
        Walk { process }
    }

    fn is_quiet(&self) -> bool
        ensures { IsTrue result ↔ (process_ops.stop self.now ≡ AtQuiet) }
    {
        self.process.is_quiet()
    }

    // One quiet step. A refusal changes nothing.
    fn step(&mut self) -> Result<(), NoMemory>
        requires { process_ops.stop self.old ≡ AtQuiet }
        ensures ok { OnOk result (self.new ≡ process_ops.quiet self.old) }
        ensures err { OnErr result (self.new ≡ self.old) }
    {
        self.process.step()
    }
}

impl HasProcess for Walk {
    ghost state = { λ l. l };

    fn process(&self) -> &Process {
        &self.process
    }
}

impl Local for Walk {
    ghost use Rattle.shim_process.specs.Ops.{process_ops};
    ghost use Rattle.shim_walk.specs.WalkLaws.{walk_laws};

    const COMPILED: bool = false;

    ghost ops = { process_ops };

    fn stop(&self) -> Stop<'_> {
        self.process.stop()
    }

    fn quiet(&mut self, most: u64) -> Quiet {
        let mut taken = 0;
        while taken < most && self.is_quiet() {
            match self.step() {
                Ok(()) => taken += 1,
                Err(NoMemory) => return Quiet { taken, short: true },
            }
        }
        Quiet {
            taken,
            short: false,
        }
    }

    fn put(&mut self) -> Option<u8> {
        self.process.put()
    }

    fn receive(&mut self, v: i64) {
        self.process.receive(v);
    }

    fn fork(&mut self) -> Result<Forked<Walk>, NoMemory> {
        match self.process.forked()? {
            ForkedProcess::Trapped(trap) => {
                self.process.trap(trap);
                Ok(Forked::Trapped)
            }
            ForkedProcess::Children(children, remainder) => {
                let children = walks(children)?;
                self.process.lend(&remainder)?;
                Ok(Forked::Children(children))
            }
        }
    }

    fn join(&mut self, children: &[Walk], goes_on: bool) {
        self.process.join(children, goes_on);
    }

    fn thrown(&mut self) -> Option<i64> {
        self.process.thrown()
    }

    fn unwind(&mut self, label: u32, value: i64) {
        self.process.unwind(label, value);
    }

    fn value(&self, c: &Chan) -> i64 {
        self.process.value(c)
    }

    fn shares(&self, c: &Chan) -> bool {
        self.process.shares(c)
    }

    fn given(&self, at: usize) -> Option<&Chan> {
        self.process.given(at)
    }

    fn carries(&self, c: &Chan) -> bool {
        self.process.carries(c)
    }

    fn holds_output(&self) -> bool {
        self.process.holds_output()
    }

    fn path(&self) -> &Path {
        self.process.path()
    }

    fn base(&self) -> u32 {
        self.process.base()
    }

    fn handlers(&self) -> u32 {
        self.process.handlers()
    }

    fn handler(&self, label: u32) -> (u32, u32) {
        self.process.handler(label)
    }

    fn same(&self, other: &Walk) -> bool {
        self.process.same(&other.process)
    }

    fn copy(&self) -> Result<Walk, NoMemory> {
        Ok(Walk::of(self.process.copy()?))
    }

    // the cost for a process of a small program
    fn hand_over_cost(&self) -> u64 {
        200
    }

    ghost laws = { walk_laws };
}

// The processes, whose states are sound.
fn walks(processes: List<Process>) -> Result<List<Walk>, NoMemory>
    requires { AllOf Sound processes }
    ensures { IfOk result (λ walks. walks ≡ processes) }
{
    let mut walks = List::new(processes.allocator());
    for process in processes.into_vec() {
        walks.push(Walk::of(process))?;
    }
    Ok(walks)
}
