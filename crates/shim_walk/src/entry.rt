// What a call makes for the called unit.
ghost use Rattle.std.specs.Prelude.{◌≡◌, ◌<◌, ◌^◌, IfOk};
ghost use Rattle.std.specs.Arc.{arc_value};
ghost use Rattle.shim_locations.specs.Given.{arguments_of};
ghost use Rattle.shim_walk_frames.specs.Depths.{AllFit};
ghost use Rattle.shim_walk.specs.Entries.{IsEntry};

use shim_base::{List, NoMemory, Path};
use shim_locations::argument::Argument;
use shim_locations::location::Location;
use shim_locations::passing::{call_locations, with_empties};
use shim_locations::slots::call_slots;
use shim_units::Unit;
use shim_walk_frames::cursor::cursor_of;
use shim_walk_frames::frame::Frame;
use shim_walk_frames::text::{declared_of, text_of};
use std::alloc::Global;
use std::sync::Arc;

/// A called unit at its first statement, its locations, and how many channels the process has made then.
#[derive(Drop)]
pub struct EnteredUnit {
    pub top: Frame,
    pub locations: List<Option<Location>>,
    pub made: u32,
}

/// What is made for a call.
#[tactic(auto, using(shim_walk_frames::proofs::Returns::text_fits))]
pub fn make_entry(
    alloc: Global,
    units: &[Unit],
    unit: u32,
    home: &Arc<Path>,
    locations: &[Option<Location>],
    made: u32,
    outer: u32,
    given: &[Argument],
    labels: List<u32>,
) -> Result<EnteredUnit, NoMemory>
    requires fit { AllFit units.now }
    requires outer { outer < 2 ^ 31 }
    ensures { IfOk result (λ e. IsEntry units.now unit (arc_value home.now) locations.now made outer (arguments_of given.now) labels e) }
{
    let declared = declared_of(units, unit);
    let passed = call_locations(alloc, home, locations, made, given)?;
    let made = passed.made;
    let all = with_empties(passed.locations, declared)?;
    let slots = call_slots(alloc, locations.len(), given, declared)?;
    let labels = labels.into_vec();
    let cursor = cursor_of(text_of(units, unit), 0);
    Ok(EnteredUnit {
        top: Frame::enter(alloc, unit, cursor, slots, labels, locations.len(), outer),
        locations: all,
        made,
    })
}
