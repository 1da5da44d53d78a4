// The texts of a program's units.
ghost use Rattle.std.specs.Prelude.{◌≡◌, drop, slice_get};
ghost use Rattle.std.specs.Option.{option_copied};
ghost use Rattle.shim_process.specs.Arguments.{declared_slots};
ghost use Rattle.shim_process.specs.LocalState.{unit_or, number_of};
ghost use Rattle.shim_process.specs.Steps.{stmt_line};
ghost use Rattle.shim_walk_frames.specs.Depths.{AllFit, unit_stmts};
ghost use Rattle.shim_walk_frames.specs.Cursors.{HasOwnCursor};
ghost use Rattle.shim_walk_frames.specs.Pieces.{at_all};

use crate::cursor::find_at;
use crate::frame::Frame;
use shim_scopes::UParam;
use shim_syntax::Sort;
use shim_units::{UStmt, Unit};

/// The text of a unit; empty where no unit has the number.
pub fn text_of(units: &[Unit], unit: u32) -> &[UStmt]
    ensures { result.now ≡ (unit_or (slice_get units.now unit)).body }
{
    match units.get(unit as usize) {
        Some(unit) => unit.body.as_slice(),
        None => &[],
    }
}

/// The statement at which this frame stands; `None` where nothing is left to do in it.
#[tactic(auto, using(crate::proofs::Returns::text_fits))]
pub fn stmt_in<'a>(units: &'a [Unit], top: &Frame) -> Option<&'a UStmt>
    requires fit { AllFit units.now }
    requires cursor { HasOwnCursor units.now top.now }
    ensures { option_copied result ≡ at_all (unit_stmts units.now top.now.unit) top.now.at }
{
    let body = text_of(units, top.unit());
    find_at(body, top.cursor(body), top.at())
}

/// The line of a statement; 0 where there is none.
pub fn line_of(stmt: Option<&UStmt>) -> u32
    ensures { result ≡ stmt_line (option_copied stmt.entry) }
{
    match stmt {
        None => 0,
        Some(stmt) => stmt.line,
    }
}

/// What a unit's slots hold; empty where no unit has the number.
pub fn slots_of(units: &[Unit], unit: u32) -> &[Sort]
    ensures { result.now ≡ (unit_or (slice_get units.now unit)).slots }
{
    match units.get(unit as usize) {
        Some(unit) => unit.slots.as_slice(),
        None => &[],
    }
}

/// The parameters of a unit; none where no unit has the number.
pub fn params_of(units: &[Unit], unit: u32) -> &[UParam]
    ensures { result.now ≡ (unit_or (slice_get units.now unit)).params }
{
    match units.get(unit as usize) {
        Some(unit) => unit.params.as_slice(),
        None => &[],
    }
}

/// The slots of a unit's own declarations; none where no unit has the number.
pub fn declared_of(units: &[Unit], unit: u32) -> &[Sort]
    ensures { result.now ≡ declared_slots (unit_or (slice_get units.now unit)) }
{
    match units.get(unit as usize) {
        Some(unit) => behind(unit.slots.as_slice(), unit.params.len()),
        None => &[],
    }
}

fn behind(slots: &[Sort], params: usize) -> &[Sort]
    ensures { result.now ≡ drop params slots.now }
{
    if params <= slots.len() {
        &slots[params..]
    } else {
        &[]
    }
}

/// The label at a place; 0 where the list ends before it.
#[tactic(auto, unfolding(shim_process::specs::LocalState::number_of))]
pub fn nth_label(labels: &[u32], at: u32) -> u32
    ensures { result ≡ number_of labels.now at }
{
    match labels.get(at as usize) {
        Some(label) => *label,
        None => 0,
    }
}

/// The name of a slot; 0 where no unit has the number or the unit has no such slot.
#[tactic(auto, unfolding(shim_process::specs::LocalState::number_of))]
pub fn slot_name(units: &[Unit], unit: u32, slot: u32) -> u32
    ensures { result ≡ number_of (unit_or (slice_get units.now unit)).slot_names slot }
{
    match units.get(unit as usize) {
        Some(unit) => nth_label(unit.slot_names.as_slice(), slot),
        None => 0,
    }
}
