// The cycle to which waits lead.
ghost use Rattle.std.specs.Prelude.{◌≡◌, ◌≤◌, ◌++◌, [], IfOk, OnOk, length, drop, map};
ghost use Rattle.shim_waits.specs.Rings.{numbers_since, number_ring, backwards, AllBelow, IsLeastAt, path_of_wait, IsTurned};

use crate::explained::Wait;
use shim_base::{List, NoMemory, Path};
use std::alloc::Global;

// The numbers that are passed from 0 on, where each leads to the one at its place in `next`, and the one that comes
// again.
fn follow(alloc: Global, next: &[usize]) -> Result<(Vec<usize>, usize), NoMemory>
    requires inside { AllBelow (length next.now) next.now }
    ensures ring { IfOk result (λ r. numbers_since r.1 (backwards (length r.0.items) r.0.items) [] ≡ number_ring (length next.now) next.now [] 0) }
    ensures inside { IfOk result (λ r. AllBelow (length next.now) r.0.items) }
{
    let mut seen = vec![in alloc; false; next.len()]?;
    let mut passed = Vec::new(alloc);
    let mut at = 0;
    for _turn in 0..next.len() {
        if seen[at] {
            return Ok((passed, at));
        }
        seen[at] = true;
        passed.push(at)?;
        at = next[at];
    }
    Ok((passed, at))
}

// The last place of the number `again` among the passed ones, at which the ring begins; 0 where it isn't there.
fn ring_place(passed: &[usize], again: usize) -> usize
    ensures inside { result ≤ length passed.now }
    ensures ring { drop result passed.now ≡ numbers_since again (backwards (length passed.now) passed.now) [] }
{
    for behind in 0..passed.len() {
        let place = passed.len() - behind - 1;
        if passed[place] == again {
            return place;
        }
    }
    0
}

// The first place of the least number.
fn least_place(ring: &[usize]) -> usize
    ensures { IsLeastAt ring.now result }
{
    let mut least = 0;
    for i in 0..ring.len() {
        if ring[i] < ring[least] {
            least = i;
        }
    }
    least
}

// Adds the paths of the waits of these numbers.
fn push_paths(waits: &[Wait], numbers: &[usize], paths: &mut List<Path>) -> Result<(), NoMemory>
    requires inside { AllBelow (length waits.now) numbers.now }
    ensures { OnOk result (paths.new ≡ paths.old ++ map (path_of_wait waits.now) numbers.now) }
{
    for i in 0..numbers.len() {
        let path = waits[numbers[i]].path.copy()?;
        paths.push(path)?;
    }
    Ok(())
}

/// The paths of the cycle that is reached from the first of these waits, from the wait with the least number on. Each
/// wait leads to that whose number `next` has at its place.
pub(crate) fn cycle_of(
    alloc: Global,
    waits: &[Wait],
    next: &[usize],
) -> Result<List<Path>, NoMemory>
    requires inside { AllBelow (length next.now) next.now }
    requires as_many { length waits.now ≡ length next.now }
    ensures { IfOk result (λ cycle. IsTurned (path_of_wait waits.now) (number_ring (length next.now) next.now [] 0) cycle) }
{
    let (passed, again) = follow(alloc, next)?;
    let ring = &passed[ring_place(passed.as_slice(), again)..];
    let least = least_place(ring);
    let mut cycle = List::new(alloc);
    push_paths(waits, &ring[least..], &mut cycle)?;
    push_paths(waits, &ring[..least], &mut cycle)?;
    Ok(cycle)
}
