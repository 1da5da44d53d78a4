// How many steps of its own each process did.
ghost use Rattle.std.specs.Prelude.{◌≡◌, ◌<◌, ◌^◌, ◌+◌, [], ◌∷◌, ◌++◌, OnOk, OnErr, IfOk, map, filter};
ghost use Rattle.std.specs.FinMap as finite;
ghost use Rattle.shim_local.specs.Laws.{AllOf};
ghost use Rattle.shim_semantics.specs.Trees.{count_of, sum};
ghost use Rattle.shim_semantics.specs.Endings.{own_steps};
ghost use Rattle.shim_semantics.specs.Advancing.{steps_taken};
ghost use Rattle.shim_run_log.specs.Maps.{has_stepped};
ghost use Rattle.shim_run_log.specs.Reserved.{stepped, HasCount, KeepsCounts, with_count, more_steps};

use shim_base::{List, NoMemory, Path};
use shim_local::{Local, OwnSteps};
use std::alloc::Global;
use std::collections::BTreeMap;
use std::marker::Model;

/// For each process that has a count, how many steps of its own it did. Who has to count without memory gives a
/// process its count before its first step; else `try_add` does.
#[derive(Drop)]
pub struct StepCounts {
    kept: BTreeMap<Path, u64, Global>,
}

impl Model for StepCounts {
    ghost use Rattle.std.specs.FinMap as finite;
    ghost use Rattle.std.specs.Prelude.{ℕ};
    ghost use Rattle.shim_base.specs.Paths.{path_order};
    ghost use Rattle.shim_semantics.proofs.Codes.{counts_code};
    ghost use Rattle.shim_run_log.specs.Maps.{counts_of};

    ghost Value = { finite.FinMap path_order ℕ };

    ghost coded = { counts_code };

    ghost view = { λ c. counts_of c.kept };
}

impl StepCounts {
    /// No counts, which takes no memory.
    pub fn new(alloc: Global) -> StepCounts
        ensures { result ≡ finite.empty }
    {
        StepCounts {
            kept: BTreeMap::new(alloc),
        }
    }

    /// Gives the process of this path a count of 0, if it has none yet. A refusal changes nothing.
    pub fn reserve(&mut self, path: &Path) -> Result<(), NoMemory>
        ensures ok { OnOk result (self.new ≡ with_count self.old path.now) }
        ensures err { OnErr result (self.new ≡ self.old) }
    {
        if self.kept.contains_key(path) {
            return Ok(());
        }
        self.kept.insert(path.copy()?, 0)?;
        Ok(())
    }

    /// Gives each of these processes its count. Running out of memory may leave some of them without one.
    pub fn reserve_all<L: Local>(&mut self, processes: &[L]) -> Result<(), NoMemory>
        ensures ok { OnOk result (AllOf (λ (l : L). HasCount self.new (L.ops.path l)) processes.now) }
        ensures keeps { KeepsCounts self.old self.new }
        ensures same { stepped self.new ≡ stepped self.old }
    {
        for process in processes.iter() {
            self.reserve(process.path())?;
        }
        Ok(())
    }

    /// The process of this path, which has its count, did so many steps more.
    pub fn add(&mut self, path: &Path, steps: u64)
        requires place { HasCount self.old path.now }
        requires few { count_of self.old path.now + steps < 2 ^ 64 }
        ensures { self.new ≡ more_steps self.old path.now steps }
    {
        if let Some(count) = self.kept.get_mut(path) {
            *count += steps;
        }
    }

    /// The process of this path, whether it has its count or not, did so many steps more. Adding 0 steps changes
    /// nothing and takes no memory. A refusal changes nothing.
    pub fn try_add(&mut self, path: &Path, steps: u64) -> Result<(), NoMemory>
        requires few { count_of self.old path.now + steps < 2 ^ 64 }
        ensures ok { OnOk result (self.new ≡ steps_taken self.old path.now steps) }
        ensures err { OnErr result (self.new ≡ self.old) }
    {
        if steps == 0 {
            return Ok(());
        }
        let sum = self.kept.entry(path.copy()?)?.or_insert(0);
        *sum += steps;
        Ok(())
    }

    /// How many steps of their own all processes did together.
    pub fn total(&self) -> u64
        requires { sum (finite.values (stepped self.now)) < 2 ^ 64 }
        ensures { result ≡ sum (finite.values (stepped self.now)) }
    {
        let mut total = 0;
        for count in self.kept.values() {
            total += *count;
        }
        total
    }

    /// Each process that did a step, with its count, by path.
    pub fn list(&self, alloc: Global) -> Result<List<OwnSteps>, NoMemory>
        ensures { IfOk result (λ list. list ≡ map own_steps (finite.entries (stepped self.now))) }
    {
        let mut list = List::new(alloc);
        for (path, count) in self.kept.iter() {
            list_steps(path, *count, &mut list)?;
        }
        Ok(list)
    }
}

// Adds to the list how many steps the process of this path did, if it did any.
fn list_steps(path: &Path, count: u64, list: &mut List<OwnSteps>) -> Result<(), NoMemory>
    ensures { OnOk result (list.new ≡ list.old ++ map own_steps (filter has_stepped ((path.now, count) ∷ []))) }
{
    if count == 0 {
        return Ok(());
    }
    list.push(OwnSteps {
        path: path.copy()?,
        count,
    })
}
