// The exceptions that a unit has.
ghost use Rattle.std.specs.Prelude.{ℕ, ◌≡◌, ◌<◌, ◌≤◌, ◌^◌, ◌↔◌, ◌||◌, IfOk, OnOk, IsTrue, false, length, nat_eq, not, slice_index_or};
ghost use Rattle.std.specs.List.Sorted.{IsNonDecreasing, IsStrictlyIncreasing};
ghost use Rattle.shim_units.specs.Moving.{slot_index_of, slot_indices_of};
ghost use Rattle.shim_units.specs.Lifting.{is_among, given_exceptions};

use crate::moving::index_in;
use crate::word::number;
use shim_base::{List, NoMemory};
use std::alloc::Global;
use std::marker::Model;

/// Exceptions by the function's numbers, which contracts see as the list of these. A function may have
/// tens of thousands, and each `try`, `throw`, call and branch looks for some of them. So beside them
/// stands whether their numbers ascend, as those of a text do, and then they are searched by halves.
#[derive(Drop)]
pub struct ExceptionList {
    numbers: List<u32>,
    ascending: bool,
}

impl Model for ExceptionList {
    ghost use Rattle.std.specs.Prelude.{ℕ, ◌↔◌, IsTrue, List as ListOf};
    ghost use Rattle.std.specs.List.Sorted.{IsStrictlyIncreasing};

    ghost Value = { ListOf ℕ };

    ghost view = { λ list. list.numbers };

    ghost invariant = { λ list. IsTrue list.ascending ↔ IsStrictlyIncreasing list.numbers };
}

impl ExceptionList {
    pub fn new(numbers: List<u32>) -> ExceptionList
        ensures { result ≡ numbers }
    {
        let ascending = is_ascending(numbers.as_slice());
        ExceptionList { numbers, ascending }
    }

    /// The number that one of the function's exceptions has among these.
    pub fn index_of(&self, exception: u32) -> u32
        requires { length self.now < 2 ^ 32 }
        ensures { result ≡ slot_index_of self.now exception }
    {
        let numbers = self.numbers.as_slice();
        if self.ascending {
            number(index_in_ascending(numbers, exception))
        } else {
            number(index_in(numbers, exception))
        }
    }

    pub fn indices_of(&self, alloc: Global, exceptions: &[u32]) -> Result<List<u32>, NoMemory>
        requires { length self.now < 2 ^ 32 }
        ensures { IfOk result (λ made. made ≡ slot_indices_of self.now exceptions.now) }
    {
        let mut made = List::with_capacity(alloc, exceptions.len())?;
        for exception in exceptions {
            made.push(self.index_of(*exception))?;
        }
        Ok(made)
    }

    /// The exceptions of this list that are among `raises`, in the order of the list.
    pub fn give(&self, alloc: Global, raises: &[u32]) -> Result<List<u32>, NoMemory>
        ensures { IfOk result (λ made. made ≡ given_exceptions raises.now self.now) }
    {
        let numbers = self.numbers.as_slice();
        if self.ascending {
            let mut raises = distinct(alloc, raises)?;
            raises.sort_unstable();
            give_ascending(alloc, raises.as_slice(), numbers)
        } else {
            give_unordered(alloc, raises, numbers)
        }
    }
}

fn is_ascending(numbers: &[u32]) -> bool
    ensures { IsTrue result ↔ IsStrictlyIncreasing numbers.now }
{
    for at in 1..numbers.len() {
        if numbers[at] <= numbers[at - 1] {
            return false;
        }
    }
    true
}

fn index_in_ascending(numbers: &[u32], one: u32) -> usize
    requires { IsStrictlyIncreasing numbers.now }
    ensures is { result ≡ slot_index_of numbers.now one }
    ensures within { result ≤ length numbers.now }
{
    match numbers.binary_search(&one) {
        Ok(at) => at,
        Err(_) => numbers.len(),
    }
}

// Marks the place of a number, and returns whether it wasn't marked before.
fn mark(marks: &mut Vec<bool>, one: u32) -> Result<bool, NoMemory>
    ensures fresh { IfOk result (λ fresh. fresh ≡ not (slice_index_or marks.old.items one false)) }
    ensures marked { OnOk result ((x : ℕ) → slice_index_or marks.new.items x false ≡ slice_index_or marks.old.items x false || nat_eq one x) }
{
    let at = one as usize;
    if marks.len() <= at {
        marks.resize(at + 1, false)?;
    }
    let fresh = !marks[at];
    marks[at] = true;
    Ok(fresh)
}

// Each of some numbers once. The numbers aren't sorted for that: the calls of nested forks may raise the same few
// exceptions some hundred million times.
fn distinct(alloc: Global, numbers: &[u32]) -> Result<Vec<u32>, NoMemory>
    ensures { IfOk result (λ made. (x : ℕ) → is_among made.items x ≡ is_among numbers.now x) }
{
    let mut marks = Vec::new(alloc);
    let mut made = Vec::new(alloc);
    for one in numbers {
        if mark(&mut marks, *one)? {
            made.push(*one)?;
        }
    }
    Ok(made)
}

// Goes through what is raised, and not through all exceptions: a function may have as many forks as
// exceptions.
fn give_ascending(alloc: Global, raises: &[u32], exceptions: &[u32]) -> Result<List<u32>, NoMemory>
    requires sorted { IsNonDecreasing raises.now }
    requires ascending { IsStrictlyIncreasing exceptions.now }
    ensures { IfOk result (λ made. made ≡ given_exceptions raises.now exceptions.now) }
{
    let mut made = List::new(alloc);
    let mut start = 0;
    for raise in raises {
        match exceptions[start..].binary_search(raise) {
            Ok(at) => {
                made.push(*raise)?;
                start += at + 1;
            }
            Err(at) => start += at,
        }
    }
    Ok(made)
}

fn is_among(some: &[u32], one: u32) -> bool
    ensures { result ≡ is_among some.now one }
{
    for other in some {
        if *other == one {
            return true;
        }
    }
    false
}

fn give_unordered(alloc: Global, raises: &[u32], exceptions: &[u32]) -> Result<List<u32>, NoMemory>
    ensures { IfOk result (λ made. made ≡ given_exceptions raises.now exceptions.now) }
{
    let mut made = List::new(alloc);
    for exception in exceptions {
        if is_among(raises, *exception) {
            made.push(*exception)?;
        }
    }
    Ok(made)
}
