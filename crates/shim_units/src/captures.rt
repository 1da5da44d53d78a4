// How a branch takes the variables from around it.
ghost use Rattle.std.specs.Prelude.{◌≡◌, ◌∷◌, ◌++◌, [], ℕ, IfOk, slice_get, List as ListOf};
ghost use Rattle.shim_units.specs.declared.found.Use.{Use};
ghost use Rattle.shim_units.specs.Captures.{captures, taken_as, is_declared, is_written, is_reference, is_taken};
ghost use Rattle.shim_units.specs.Usages.{with_use, ShowUses, captures_of, taken_with};

use crate::calls::is_stream;
use crate::found::{Capture, How, Use};
use shim_base::{List, NoMemory};
use shim_syntax::Sort;
use std::alloc::Global;

// What is found of a variable in a text.
#[derive(Clone, Copy, Debug, PartialEq, Eq)]
pub struct Usage {
    pub declared: bool,
    pub written: bool,
    pub named: bool,
}

fn is_declared(how: How) -> bool
    ensures { result ≡ is_declared how }
{
    match how {
        How::Declared => true,
        How::Written => false,
        How::Named => false,
    }
}

fn is_written(how: How) -> bool
    ensures { result ≡ is_written how }
{
    match how {
        How::Declared => false,
        How::Written => true,
        How::Named => false,
    }
}

// The usage with one more use.
fn add(old: Usage, how: How) -> Usage
    ensures { result ≡ with_use old how }
{
    Usage {
        declared: old.declared || is_declared(how),
        written: old.written || is_written(how),
        named: true,
    }
}

// How a variable of that sort is taken from around a text.
fn take(sort: Sort, usage: Usage) -> Capture
    ensures { result ≡ taken_as sort usage.declared usage.written usage.named }
{
    if usage.declared {
        Capture::Nothing
    } else if usage.written || (is_stream(sort) && usage.named) {
        Capture::Reference
    } else if usage.named {
        Capture::Copy
    } else {
        Capture::Nothing
    }
}

// The usages of `count` variables of which no use was found.
fn make_usages(alloc: Global, count: usize) -> Result<Vec<Usage>, NoMemory>
    ensures { IfOk result (λ usages. ShowUses usages.items count []) }
{
    let mut usages = Vec::new(alloc);
    for _slot in 0..count {
        usages.push(Usage {
            declared: false,
            written: false,
            named: false,
        })?;
    }
    Ok(usages)
}

// Adds one more use to the usages.
fn add_use(usages: &mut Vec<Usage>, found: Use)
    ensures { (n : ℕ) (us : ListOf Use) → ShowUses usages.old.items n us → ShowUses usages.new.items n (us ++ found ∷ []) }
{
    let at = found.slot as usize;
    if at < usages.len() {
        let old = usages[at];
        usages[at] = add(old, found.how);
    }
}

// The usage of each of the slots below `count`, from these uses.
fn usages_of(alloc: Global, count: usize, uses: &[Use]) -> Result<List<Usage>, NoMemory>
    ensures { IfOk result (λ usages. ShowUses usages count uses.now) }
{
    let mut usages = make_usages(alloc, count)?;
    for found in uses {
        add_use(&mut usages, *found);
    }
    Ok(List::from(usages))
}

// How the variable at a place is taken, by its sort and its usage.
fn take_at(sorts: &[Sort], usages: &[Usage], at: usize) -> Capture
    ensures { result ≡ taken_with (slice_get sorts.now at) (slice_get usages.now at) }
{
    match sorts.get(at) {
        Some(sort) => match usages.get(at) {
            Some(usage) => take(*sort, *usage),
            None => Capture::Nothing,
        },
        None => Capture::Nothing,
    }
}

/// How a branch with these uses takes the variable of each slot.
pub fn take_all(alloc: Global, sorts: &[Sort], uses: &[Use]) -> Result<List<Capture>, NoMemory>
    ensures { IfOk result (λ made. captures_of made ≡ captures sorts.now uses.now) }
{
    let usages = usages_of(alloc, sorts.len(), uses)?;
    let mut made = List::new(alloc);
    for at in 0..sorts.len() {
        made.push(take_at(sorts, usages.as_slice(), at))?;
    }
    Ok(made)
}

/// How the variable of a slot is taken.
pub fn capture_at(captures: &[Capture], slot: usize) -> Capture
    ensures { result ≡ captures_of captures.now slot }
{
    match captures.get(slot) {
        Some(capture) => *capture,
        None => Capture::Nothing,
    }
}

/// Whether a variable is captured by reference.
pub fn is_reference(capture: Capture) -> bool
    ensures { result ≡ is_reference capture }
{
    match capture {
        Capture::Nothing => false,
        Capture::Copy => false,
        Capture::Reference => true,
    }
}

pub fn is_taken(capture: Capture) -> bool
    ensures { result ≡ is_taken capture }
{
    match capture {
        Capture::Nothing => false,
        Capture::Copy => true,
        Capture::Reference => true,
    }
}
