// A small process, by which what runs processes is tested; it shows that what `Local` asks can be met.
ghost use Rattle.std.specs.Prelude.{◌≡◌, ◌↔◌, [], ◌∷◌, pos, IfOk, OnOk, OnErr, IsTrue};
ghost use Rattle.shim_local.specs.Process.{AtQuiet};
ghost use Rattle.shim_tests_small.specs.Small.{child_of, children_from, children_of, in_force, is_root, passed, quieted, steps_of, stop_of, trap_behind};
ghost use Rattle.shim_tests_small.specs.declared.small.Branch.TheVariants as branch;

use shim_base::{Chan, List, NoMemory, Path, Trap};
use shim_local::{Forked, Local, Quiet, Stop};
use std::alloc::Global;
use std::marker::Model;

/// What a branch of a fork has to do.
#[derive(Clone, Copy, Debug, PartialEq, Eq)]
pub enum Branch {
    /// A `next`.
    Next,
    /// Two quiet steps, and then a `next`.
    Quiet,
    /// It throws the exception of this label with this number.
    Throw(u32, u32),
    /// It forks, and the first branch of that fork throws so; the two others have nothing to do.
    Outer(u32, u32),
    Nothing,
}

/// A step that a small process has to do.
#[derive(Clone, Copy, Debug, PartialEq, Eq)]
pub enum Step {
    Quiet,
    /// A quiet step, after which one exception place more is in force: the number of the name, and the line.
    Try(u32, u32),
    Next,
    Put,
    /// Forks into two branches, each of which has a `next` to do.
    Fork,
    /// Forks into these three.
    Three(Branch, Branch, Branch),
    /// Throws the exception of this label with this number.
    Throw(u32, u32),
    /// A throw of the exception of this label; the expression of its number traps.
    ThrowTrap(u32),
    Trap,
}

// Where so many exception places are in force, memory is refused for one more.
const MOST_PLACES: u32 = 4;

/// A process that does the steps it was given, for tests of what runs processes. Each `next` of it is
/// of one channel, and its value is what the last rendezvous gave, or the number of the last exception that it
/// caught, or 0. It puts 1 for each value but 0. The children of a fork share the channel, and the value of
/// the first comes back. The root carries the channel and holds the output.
///
/// It is trapped at a `Trap`, at a put of a process that isn't the root, and at a throw of an exception
/// that isn't in force. A put or a fork after which it would be trapped traps itself. Each of these traps
/// is a division by zero in line 1. Where four exception places are in force, that of a trap among them, a
/// `Try` wants memory that isn't there.
#[derive(Drop)]
pub struct Small {
    path: Path,
    left: Vec<Step>,
    value: i64,
    chan: Chan,
    forks: u32,
    base: u32,
    places: Vec<(u32, u32)>,
}

impl Model for Small {
    ghost use Rattle.std.specs.Prelude.{◌<◌, ◌≤◌, ◌+◌, ◌^◌, length};
    ghost use Rattle.shim_tests_small.specs.Small.{SmallView};

    ghost Value = { SmallView };

    ghost view = { λ s. record { path = s.path; left = s.left.items; value = s.value; chan = s.chan; forks = s.forks; base = s.base; places = s.places.items } };

    ghost invariant = { λ s. (1 ≤ s.base) × (s.base + length s.places.items < 2 ^ 32) };
}

impl Small {
    /// A process of this path with these steps to do, first to last, the value 0, and around it the
    /// place of a trap alone.
    pub fn new(path: Path, left: Vec<Step>, chan: Chan) -> Small
        ensures { result ≡ record { path = path; left = left.items; value = pos 0; chan = chan; forks = 0; base = 1; places = [] } }
    {
        let places = Vec::new(*left.allocator());
        Small {
            path,
            left,
            value: 0,
            chan,
            forks: 0,
            base: 1,
            places,
        }
    }

    // The child in this place of the fork at which it stands, whose branch is this.
    fn child(&self, place: u32, branch: Branch) -> Result<Small, NoMemory>
        ensures { IfOk result (λ child. child ≡ child_of self.now place branch) }
    {
        let alloc = *self.left.allocator();
        let left = steps_of(alloc, branch)?;
        Ok(Small {
            path: self.path.child(self.forks, place)?,
            left,
            value: self.value,
            chan: self.chan.copy()?,
            forks: 0,
            base: self.in_force(),
            places: Vec::new(alloc),
        })
    }

    fn two(&self) -> Result<List<Small>, NoMemory>
        ensures { IfOk result (λ children. children ≡ children_from self.now 0 (branch.Next ∷ branch.Next ∷ [])) }
    {
        let mut children = List::new(*self.left.allocator());
        children.push(self.child(0, Branch::Next)?)?;
        children.push(self.child(1, Branch::Next)?)?;
        Ok(children)
    }

    fn three(&self, first: Branch, second: Branch, third: Branch) -> Result<List<Small>, NoMemory>
        ensures { IfOk result (λ children. children ≡ children_from self.now 0 (first ∷ second ∷ third ∷ [])) }
    {
        let mut children = List::new(*self.left.allocator());
        children.push(self.child(0, first)?)?;
        children.push(self.child(1, second)?)?;
        children.push(self.child(2, third)?)?;
        Ok(children)
    }

    // The children of the fork at which it stands.
    fn children(&self) -> Result<List<Small>, NoMemory>
        ensures { IfOk result (λ children. children ≡ children_of self.now) }
    {
        match self.left.first() {
            Some(Step::Three(first, second, third)) => self.three(*first, *second, *third),
            _ => self.two(),
        }
    }

    // How many exception places are in force.
    fn in_force(&self) -> u32
        ensures { result ≡ in_force self.now }
    {
        self.base + self.places.len() as u32
    }

    fn is_root(&self) -> bool
        ensures { result ≡ is_root self.now.path }
    {
        self.path.pairs().is_empty()
    }

    fn is_quiet(&self) -> bool
        ensures { IsTrue result ↔ (stop_of self.now ≡ AtQuiet) }
    {
        match self.left.first() {
            Some(Step::Quiet | Step::Try(_, _)) => true,
            _ => false,
        }
    }

    // Whether it would be trapped at the step after the next, with the exception places that it has now.
    fn is_trap_after(&self) -> bool
        ensures { result ≡ trap_behind self.now self.now.left }
    {
        match self.left.get(1) {
            Some(Step::Trap) => true,
            Some(Step::Put) => !self.is_root(),
            Some(Step::Throw(label, _)) => *label >= self.in_force(),
            Some(Step::ThrowTrap(label)) => *label >= self.in_force(),
            _ => false,
        }
    }

    // Drops the next step, if there is one.
    fn pass(&mut self)
        ensures { self.new ≡ passed self.old }
    {
        if !self.left.is_empty() {
            self.left.remove(0);
        }
    }

    // Does the next step as a quiet one; any step but a `Try` is only dropped. A refusal changes nothing.
    fn step_quietly(&mut self) -> Result<(), NoMemory>
        ensures ok { OnOk result (self.new ≡ quieted self.old) }
        ensures err { OnErr result (self.new ≡ self.old) }
    {
        if let Some(Step::Try(name, line)) = self.left.first().copied() {
            if self.in_force() >= MOST_PLACES {
                return Err(NoMemory);
            }
            self.places.push((name, line))?;
        }
        self.pass();
        Ok(())
    }
}

fn alone(alloc: Global, step: Step) -> Result<Vec<Step>, NoMemory>
    ensures { IfOk result (λ left. left.items ≡ step ∷ []) }
{
    let mut left = Vec::new(alloc);
    left.push(step)?;
    Ok(left)
}

// What this branch has to do.
fn steps_of(alloc: Global, branch: Branch) -> Result<Vec<Step>, NoMemory>
    ensures { IfOk result (λ left. left.items ≡ steps_of branch) }
{
    match branch {
        Branch::Next => alone(alloc, Step::Next),
        Branch::Quiet => Ok(Vec::from_slice(alloc, &[Step::Quiet, Step::Quiet, Step::Next])?),
        Branch::Throw(label, number) => alone(alloc, Step::Throw(label, number)),
        Branch::Outer(label, number) => alone(
            alloc,
            Step::Three(
                Branch::Throw(label, number),
                Branch::Nothing,
                Branch::Nothing,
            ),
        ),
        Branch::Nothing => Ok(Vec::new(alloc)),
    }
}

fn same_path(a: &Path, b: &Path) -> bool
    ensures { IsTrue result ↔ (a.now ≡ b.now) }
{
    a == b
}

// Whether the values, the numbers of forks and the bases are the same.
fn same_numbers(a: &Small, b: &Small) -> bool
    ensures { IsTrue result ↔ ((a.now.value ≡ b.now.value) × (a.now.forks ≡ b.now.forks) × (a.now.base ≡ b.now.base)) }
{
    (a.value, a.forks, a.base) == (b.value, b.forks, b.base)
}

// Whether these are the same steps.
fn same_steps(a: &[Step], b: &[Step]) -> bool
    ensures { IsTrue result ↔ (a.now ≡ b.now) }
{
    a == b
}

// Whether both are the same channel by the same name.
fn same_chan(a: &Chan, b: &Chan) -> bool
    ensures { IsTrue result ↔ (a.now ≡ b.now) }
{
    a == b && a.name() == b.name()
}

// Whether these are the same exception places.
fn same_places(a: &[(u32, u32)], b: &[(u32, u32)]) -> bool
    ensures { IsTrue result ↔ (a.now ≡ b.now) }
{
    a == b
}

impl Local for Small {
    ghost use Rattle.shim_tests_small.specs.Small.{small_ops};
    ghost use Rattle.shim_tests_small.specs.SmallLaws.{small_laws};

    const COMPILED: bool = false;

    ghost ops = { small_ops };

    fn stop(&self) -> Stop<'_> {
        match self.left.first() {
            None => Stop::Finish,
            Some(Step::Quiet) => Stop::Quiet,
            Some(Step::Try(_, _)) => Stop::Quiet,
            Some(Step::Next) => Stop::Next(&self.chan),
            Some(Step::Put) if self.is_root() => Stop::Put,
            Some(Step::Fork) => Stop::Fork,
            Some(Step::Three(_, _, _)) => Stop::Fork,
            Some(Step::Throw(label, _)) if *label < self.in_force() => Stop::Throw(*label),
            Some(Step::ThrowTrap(label)) if *label < self.in_force() => Stop::Throw(*label),
            _ => Stop::Trapped(Trap::Zero, 1),
        }
    }

    fn quiet(&mut self, most: u64) -> Quiet {
        let mut taken = 0;
        while taken < most && self.is_quiet() {
            if self.step_quietly().is_err() {
                return Quiet { taken, short: true };
            }
            taken += 1;
        }
        Quiet {
            taken,
            short: false,
        }
    }

    fn put(&mut self) -> Option<u8> {
        let traps = self.is_trap_after();
        self.pass();
        if traps {
            return None;
        }
        Some(u8::from(self.value != 0))
    }

    fn receive(&mut self, v: i64) {
        self.value = v;
        self.pass();
    }

    fn fork(&mut self) -> Result<Forked<Self>, NoMemory> {
        if self.is_trap_after() {
            self.pass();
            return Ok(Forked::Trapped);
        }
        let forks = self.forks.checked_add(1).ok_or(NoMemory)?;
        let children = self.children()?;
        self.forks = forks;
        Ok(Forked::Children(children))
    }

    fn join(&mut self, children: &[Self], goes_on: bool) {
        if let Some(first) = children.first() {
            self.value = first.value;
        }
        if goes_on {
            self.pass();
        }
    }

    fn thrown(&mut self) -> Option<i64> {
        match self.left.first().copied() {
            Some(Step::Throw(_, number)) => Some(i64::from(number)),
            Some(Step::ThrowTrap(_)) => {
                self.left[0] = Step::Trap;
                None
            }
            _ => Some(0),
        }
    }

    fn unwind(&mut self, label: u32, value: i64) {
        self.places.truncate((label - self.base) as usize);
        self.value = value;
        self.pass();
    }

    fn value(&self, _c: &Chan) -> i64 {
        self.value
    }

    fn shares(&self, c: &Chan) -> bool {
        *c == self.chan
    }

    fn given(&self, at: usize) -> Option<&Chan> {
        if at == 0 && !self.is_root() {
            Some(&self.chan)
        } else {
            None
        }
    }

    fn carries(&self, c: &Chan) -> bool {
        self.is_root() && *c == self.chan
    }

    fn holds_output(&self) -> bool {
        self.is_root()
    }

    fn path(&self) -> &Path {
        &self.path
    }

    fn base(&self) -> u32 {
        self.base
    }

    fn handlers(&self) -> u32 {
        self.in_force()
    }

    fn handler(&self, label: u32) -> (u32, u32) {
        self.places[(label - self.base) as usize]
    }

    fn same(&self, other: &Self) -> bool {
        same_path(&self.path, &other.path)
            && same_steps(self.left.as_slice(), other.left.as_slice())
            && same_numbers(self, other)
            && same_chan(&self.chan, &other.chan)
            && same_places(self.places.as_slice(), other.places.as_slice())
    }

    fn copy(&self) -> Result<Self, NoMemory> {
        let alloc = *self.left.allocator();
        Ok(Small {
            path: self.path.copy()?,
            left: Vec::from_slice(alloc, self.left.as_slice())?,
            value: self.value,
            chan: self.chan.copy()?,
            forks: self.forks,
            base: self.base,
            places: Vec::from_slice(alloc, self.places.as_slice())?,
        })
    }

    fn hand_over_cost(&self) -> u64 {
        100
    }

    ghost laws = { small_laws };
}
