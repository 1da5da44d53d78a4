// What a new process begins with.
ghost use Rattle.std.specs.Prelude.{◌≡◌, ◌+◌, slice_get, IfOk};
ghost use Rattle.shim_process.specs.Arguments.{entered, numbers_from};
ghost use Rattle.shim_process.specs.Forks.{labels_from, stmt_branches, what_branches};
ghost use Rattle.shim_process.specs.LocalState.{unit_or};
ghost use Rattle.std.specs.Option.{option_copied};
ghost use Rattle.shim_units.specs.declared.unit.UWhat.{out-UWhat};
ghost use Rattle.shim_walk_frames.specs.Depths.{AllFit, shown};
ghost use Rattle.shim_walk_frames.specs.Cursors.{HasOwnCursor};

use crate::count::one_more;
use shim_base::{List, NoMemory};
use shim_locations::slots::with_declared;
use shim_units::{UBranch, UStmt, UWhat, Unit};
use shim_walk_frames::cursor::cursor_of;
use shim_walk_frames::frame::Frame;
use shim_walk_frames::text::{slots_of, text_of};
use std::alloc::Global;

/// A unit at its first statement, in a process that has none but it.
#[tactic(auto, using(shim_walk_frames::proofs::Returns::text_fits))]
pub fn first_frame(
    alloc: Global,
    units: &[Unit],
    unit: u32,
    labels: List<u32>,
) -> Result<Frame, NoMemory>
    requires { AllFit units.now }
    ensures value { IfOk result (λ top. shown units.now top ≡ entered (unit_or (slice_get units.now unit)) unit (numbers_from 0 (unit_or (slice_get units.now unit)).slots) labels 0 0) }
    ensures cursor { IfOk result (λ top. HasOwnCursor units.now top) }
{
    let declared = slots_of(units, unit);
    let room = List::with_capacity(alloc, declared.len())?;
    let slots = with_declared(room, 0, declared)?;
    let labels = labels.into_vec();
    let cursor = cursor_of(text_of(units, unit), 0);
    Ok(Frame::enter(alloc, unit, cursor, slots, labels, 0, 0))
}

/// A label for each name, one after the other, from `first` on.
pub fn labels_from(alloc: Global, first: u32, names: &[u32]) -> Result<List<u32>, NoMemory>
    ensures { IfOk result (λ labels. labels ≡ labels_from first names.now) }
{
    let mut labels = List::with_capacity(alloc, names.len())?;
    let mut next = first;
    for _name in names {
        labels.push(next)?;
        next = one_more(next)?;
    }
    Ok(labels)
}

/// The branches of the fork that a statement is; none of another statement, or where there is none.
pub fn branches_of(stmt: Option<&UStmt>) -> &[UBranch]
    ensures { result.now ≡ stmt_branches (option_copied stmt.entry) }
{
    match stmt {
        None => &[],
        Some(stmt) => what_branches(stmt),
    }
}

fn what_branches(stmt: &UStmt) -> &[UBranch]
    ensures { result.now ≡ what_branches (out-UWhat stmt.now.what) }
{
    match &stmt.what {
        UWhat::Par(branches) => branches.as_slice(),
        _ => &[],
    }
}
