// One process as a value.
ghost use Rattle.std.specs.Prelude.{◌≡◌, ◌≢◌, ◌<◌, ◌≤◌, ◌↔◌, ℕ, ℤ, true, false, Some, IfOk, OnErr, IsTrue, slice_get};
ghost use Rattle.std.specs.Option.{option_copied};
ghost use Rattle.shim_base.specs.Paths.{NamedChannel};
ghost use Rattle.shim_local.specs.Process.{Ops, AtQuiet, AtNext, AtPut, AtFork, AtThrow};
ghost use Rattle.shim_local.specs.Laws.{LocalLaws};
ghost use Rattle.shim_local.specs.Quiets.{QuietSteps};
ghost use Rattle.shim_local.specs.Views.{stop_view, ForkGives};

use shim_base::{Chan, List, NoMemory, Path, Trap};

/// At what a process stands.
#[derive(Drop)]
pub enum Stop<'a> {
    /// A statement that concerns this process alone.
    Quiet,
    /// A `next` of this channel.
    Next(&'a Chan),
    Put,
    Fork,
    /// Nothing is left to do.
    Finish,
    /// A throw of the exception of this label.
    Throw(u32),
    /// A statement trapped, and nothing goes on from there: why, and the statement's line.
    Trapped(Trap, u32),
}

/// How many quiet steps were taken, and whether memory was wanted for one more.
#[derive(Clone, Copy, Debug, PartialEq, Eq)]
pub struct Quiet {
    pub taken: u64,
    pub short: bool,
}

/// What a fork gave.
#[derive(Drop)]
pub enum Forked<L> {
    /// The children, in the order of the branches.
    Children(List<L>),
    /// The fork trapped, and there are no children.
    Trapped,
}

/// One process.
///
/// Each method is a function of the state, which is the value that the type's model gives it; `ops`
/// names these functions, and `laws` says what holds of them. `quiet`, `fork` and `copy` alone take
/// memory.
pub trait Local: Send + Sized + Drop {
    /// Whether the process runs compiled code.
    const COMPILED: bool;

    ghost ops: { Ops Self };

    /// At what it stands.
    fn stop(&self) -> Stop<'_>
        ensures { stop_view result ≡ ops.stop self.now };

    /// Does up to `most` quiet steps, and fewer only where it comes to another stop, or memory is
    /// wanted; the step for which it is wanted isn't done.
    fn quiet(&mut self, most: u64) -> Quiet
        ensures steps { QuietSteps ops result.taken self.old self.new }
        ensures most { result.taken ≤ most }
        ensures fewer { result.taken < most → result.short ≡ false → ops.stop self.new ≢ AtQuiet };

    /// Does the `put` at which it has to stand. The answer is the byte, or `None` where the expression
    /// traps; it then stands trapped.
    fn put(&mut self) -> Option<u8>
        requires { ops.stop self.old ≡ AtPut }
        ensures byte { result ≡ ops.byte self.old }
        ensures after { self.new ≡ ops.put self.old };

    /// Stores the value of the rendezvous at which it has to wait, and goes on.
    fn receive(&mut self, v: i64)
        requires { (c : NamedChannel) × (ops.stop self.old ≡ AtNext c) }
        ensures { self.new ≡ ops.receive self.old v };

    /// The children of the fork at which it has to stand, in order; it stays there. Or the fork traps,
    /// and it then stands trapped. Running out of memory changes nothing.
    fn fork(&mut self) -> Result<Forked<Self>, NoMemory>
        requires { ops.stop self.old ≡ AtFork }
        ensures ok { IfOk result (λ forked. ForkGives ops self.old self.new forked) }
        ensures err { OnErr result (self.new ≡ self.old) };

    /// Takes back the values of the children of its last fork, whatever calls they have had since. They
    /// have to be given in order. If `goes_on`, the process then goes on after the fork, else it stays at the fork.
    fn join(&mut self, children: &[Self], goes_on: bool)
        requires { ops.born self.old children.now }
        ensures { self.new ≡ ops.join self.old children.now goes_on };

    /// The number of the throw at which it has to stand, and nothing changes. Or `None` where its
    /// expression traps; it then stands trapped.
    fn thrown(&mut self) -> Option<i64>
        requires { (x : ℕ) × (ops.stop self.old ≡ AtThrow x) }
        ensures number { result ≡ ops.number self.old }
        ensures after { self.new ≡ ops.thrown self.old };

    /// Goes to the handler of the exception of this label, and gives the handler this number. The exception
    /// place has to be in force and the process's own: the label is at least `base` and below `handlers`.
    fn unwind(&mut self, label: u32, value: i64)
        requires { (ops.base self.old ≤ label) × (label < ops.handlers self.old) }
        ensures { self.new ≡ ops.unwind self.old label value };

    /// The value of the channel's own variable, which this process has to carry.
    fn value(&self, c: &Chan) -> i64
        requires { ops.carries self.now c.now.channel ≡ true }
        ensures { result ≡ ops.value self.now c.now.channel };

    /// Whether the process was given the channel or declared it.
    fn shares(&self, c: &Chan) -> bool
        ensures { result ≡ ops.shares self.now c.now.channel };

    /// Lends one of the channels that the fork which made the process gave it, counted from 0; `None`
    /// past the last. No call changes these channels, and a root has none.
    fn given(&self, at: usize) -> Option<&Chan>
        ensures { option_copied result ≡ slice_get (ops.given self.now) at };

    /// Whether the channel's own variable is one of this process.
    fn carries(&self, c: &Chan) -> bool
        ensures { result ≡ ops.carries self.now c.now.channel };

    /// Whether the output is this process's, so that it may put.
    fn holds_output(&self) -> bool
        ensures { result ≡ ops.holds_output self.now };

    /// The path of the process. Each value of the type is sound, and a caller gets the proof of that from the
    /// clause `sound` of this function.
    fn path(&self) -> &Path
        ensures path { result.now ≡ ops.path self.now }
        ensures sound { ops.sound self.now };

    /// How many exception places are in force around the process.
    fn base(&self) -> u32
        ensures { result ≡ ops.base self.now };

    /// How many exception places are in force in all: those around the process, and its own.
    fn handlers(&self) -> u32
        ensures { result ≡ ops.handlers self.now };

    /// The number of the name and the line of the `try` of this label. The label has to be one that `unwind`
    /// allows.
    fn handler(&self, label: u32) -> (u32, u32)
        requires { (ops.base self.now ≤ label) × (label < ops.handlers self.now) }
        ensures { result ≡ ops.handler self.now label };

    /// Whether the two are the same state.
    fn same(&self, other: &Self) -> bool
        ensures { IsTrue result ↔ (self.now ≡ other.now) };

    /// Another value of the same state.
    fn copy(&self) -> Result<Self, NoMemory>
        ensures { IfOk result (λ copy. copy ≡ self.now) };

    /// About how many quiet steps take as long as handing this process over does: the copies that are made
    /// of it, and the comparison when it comes back. It is a hint for who hands processes out, and no clause
    /// says anything of it; the call itself takes no longer than a step.
    fn hand_over_cost(&self) -> u64;

    /// What holds of every kind of process.
    ghost laws: { LocalLaws ops };
}
