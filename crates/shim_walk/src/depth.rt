// Returns to callers.
ghost use Rattle.std.specs.Prelude.{◌≡◌, ◌≢◌, ◌≤◌, ◌+◌, ◌-◌, ℤ, [], ◌∷◌, List as ListOf, map, slice_get, OnSome};
ghost use Rattle.shim_units.specs.declared.unit.Unit.{Unit as UnitOf};
ghost use Rattle.shim_process.specs.Unwinding.{handling};
ghost use Rattle.shim_walk_frames.specs.Unwinding.{handler_in, serial_of, taking_in, unwound_in, variable_of};
ghost use Rattle.shim_walk_frames.specs.Variables.{one_of, variables_in, variables_of};
ghost use Rattle.shim_process.specs.Ends.{went};
ghost use Rattle.shim_walk_frames.specs.Turns.{successor_of};
ghost use Rattle.shim_walk_frames.specs.Depths.{AllFit, depth_of, returned, shown, unit_stmts};
ghost use Rattle.shim_walk_frames.specs.Cursors.{AllHaveOwnCursors, HasOwnCursor};

use shim_base::Ty;
use shim_locations::location::Location;
use shim_locations::locations::{Locations, number_of};
use shim_process::HandlerVariable;
use shim_units::Unit;
use shim_walk_frames::call_stack::CallStack;
use shim_walk_frames::frame::Frame;
use shim_walk_frames::successors::Successor;
use shim_walk_frames::text::text_of;

/// Goes past the ends of called units: as long as the innermost unit is over and has a caller, its locations are
/// dropped, and the caller goes on after its call.
#[tactic(auto, using(shim_walk_frames::proofs::Returns::stays_in, shim_walk_frames::proofs::Returns::ends_here, shim_walk_frames::proofs::Returns::comes_back, shim_walk_frames::proofs::Returns::text_fits))]
pub fn settle(units: &[Unit], top: &mut Frame, callers: &mut CallStack, locations: &mut Locations)
    requires fit { AllFit units.now }
    requires cursors { AllHaveOwnCursors units.now (top.old ∷ callers.old) }
    ensures value { depth_of units.now top.new callers.new locations.new ≡ returned (map (shown units.now) callers.old) (shown units.now top.old) locations.old }
    ensures fewer { variables_in (top.new ∷ callers.new) ≤ variables_in (top.old ∷ callers.old) }
    ensures cursors { AllHaveOwnCursors units.now (top.new ∷ callers.new) }
{
    while top.is_over(text_of(units, top.unit())) {
        let Some(caller) = callers.pop() else {
            return;
        };
        locations.truncate(top.floor());
        *top = caller;
        let unit = top.unit();
        top.go(text_of(units, unit), Successor::On);
    }
}

/// Goes on from the statement at which the innermost frame stands to this successor, and past the ends that follow.
#[tactic(auto, using(shim_walk_frames::proofs::Returns::text_fits))]
pub fn go_on(
    units: &[Unit],
    top: &mut Frame,
    callers: &mut CallStack,
    locations: &mut Locations,
    successor: Successor,
)
    requires fit { AllFit units.now }
    requires cursors { AllHaveOwnCursors units.now (top.old ∷ callers.old) }
    ensures value { depth_of units.now top.new callers.new locations.new ≡ returned (map (shown units.now) callers.old) (went (successor_of successor) (shown units.now top.old)) locations.old }
    ensures fewer { variables_in (top.new ∷ callers.new) ≤ variables_in (top.old ∷ callers.old) }
    ensures cursors { AllHaveOwnCursors units.now (top.new ∷ callers.new) }
{
    let unit = top.unit();
    top.go(text_of(units, unit), successor);
    settle(units, top, callers, locations);
}

// The innermost frame goes on with its handler of this place, and gives the variable of that one.
#[tactic(auto, using(shim_walk_frames::proofs::Returns::text_fits))]
fn handle(units: &[Unit], top: &mut Frame, place: u32) -> Option<HandlerVariable>
    requires fit { AllFit units.now }
    requires cursor { HasOwnCursor units.now top.old }
    ensures value { shown units.now top.new ≡ handling (slice_get (shown units.now top.old).places (place - top.old.outer)) (place - top.old.outer) (shown units.now top.old) }
    ensures variable { result ≡ variable_of (slice_get top.old.places (place - top.old.outer)) }
    ensures fewer { one_of result + variables_of top.new.places ≤ variables_of top.old.places }
    ensures slots { top.new.slots ≡ top.old.slots }
    ensures cursor { HasOwnCursor units.now top.new }
{
    let unit = top.unit();
    let index = place.saturating_sub(top.outer());
    top.handle(text_of(units, unit), index as usize)
}

/// The number is kept in the handler's variable, where there is one, on the channel that its `try` made for it. Gives
/// the serial number of that channel.
pub fn keep(
    locations: &mut Locations,
    slots: &[usize],
    variable: Option<HandlerVariable>,
    value: i64,
) -> Option<u32>
    ensures locations { locations.new ≡ taking_in variable value slots.now locations.old }
    ensures serial { result ≡ serial_of variable }
{
    match variable {
        None => None,
        Some(variable) => {
            let HandlerVariable { slot, channel } = variable;
            let serial = channel.serial();
            let number = number_of(slots, slot);
            locations.put(number, Location::new(channel, Ty::Int32, value));
            Some(serial)
        }
    }
}

// The frames that were entered since a place came into force are left.
#[tactic(auto, using(shim_walk_frames::proofs::Unwinds::unwinds_one, shim_walk_frames::proofs::Unwinds::unwinds_place))]
fn exit_frames(top: &mut Frame, callers: &mut CallStack, locations: &mut Locations, place: u32)
    ensures same { (units : ListOf UnitOf) (v : ℤ) → unwound_in (map (shown units) callers.new) (shown units top.new) place v locations.new ≡ unwound_in (map (shown units) callers.old) (shown units top.old) place v locations.old }
    ensures handler { handler_in top.new place callers.new ≡ handler_in top.old place callers.old }
    ensures fewer { variables_in (top.new ∷ callers.new) ≤ variables_in (top.old ∷ callers.old) }
    ensures there { callers.new ≢ [] → top.new.outer ≤ place }
    ensures cursors { (units : ListOf UnitOf) → AllHaveOwnCursors units (top.old ∷ callers.old) → AllHaveOwnCursors units (top.new ∷ callers.new) }
{
    while place < top.outer() {
        let Some(caller) = callers.pop() else {
            return;
        };
        locations.truncate(top.floor());
        *top = caller;
    }
}

/// Goes to the handler of an exception place, which is counted from the outermost of the process. The handler's
/// variable, where it has one, gets the number. Gives the serial number of the variable's channel, where there is a
/// variable.
pub fn unwind_to(
    units: &[Unit],
    top: &mut Frame,
    callers: &mut CallStack,
    locations: &mut Locations,
    place: u32,
    value: i64,
) -> Option<u32>
    requires fit { AllFit units.now }
    requires cursors { AllHaveOwnCursors units.now (top.old ∷ callers.old) }
    ensures value { depth_of units.now top.new callers.new locations.new ≡ unwound_in (map (shown units.now) callers.old) (shown units.now top.old) place value locations.old }
    ensures serial { result ≡ serial_of (variable_of (handler_in top.old place callers.old)) }
    ensures fewer { OnSome result (1 + variables_in (top.new ∷ callers.new) ≤ variables_in (top.old ∷ callers.old)) }
    ensures none { variables_in (top.new ∷ callers.new) ≤ variables_in (top.old ∷ callers.old) }
    ensures cursors { AllHaveOwnCursors units.now (top.new ∷ callers.new) }
{
    exit_frames(top, callers, locations, place);
    let variable = handle(units, top, place);
    let serial = keep(locations, top.slots(), variable, value);
    settle(units, top, callers, locations);
    serial
}
