// When two frames are the same.
ghost use Rattle.std.specs.Prelude.{◌≡◌, ◌↔◌, ◌<◌, ◌^◌, map, IsTrue};
ghost use Rattle.shim_walk_frames.specs.FrameViews.{exception_place_of};
ghost use Rattle.shim_walk_frames.specs.Depths.{AllFit, shown};
ghost use Rattle.shim_walk_frames.specs.Pieces.{left_all};
ghost use Rattle.shim_walk_frames.specs.Successors.{size_all};

use shim_process::HandlerVariable;
use shim_units::{UStmt, Unit};
use shim_units_equality::{Same, same_all};
use shim_walk_frames::call_stack::CallStack;
use shim_walk_frames::frame::Frame;
use shim_walk_frames::handler::Handler;
use shim_walk_frames::successors::size_all;
use shim_walk_frames::text::text_of;

// Whether the same is left to do from two numbers of a text. From each number past its last one nothing is left.
#[tactic(auto, using(crate::proofs::SamePlaces::both_after, crate::proofs::SamePlaces::same_left))]
fn same_place(body: &[UStmt], one: u32, other: u32) -> bool
    requires { size_all body.now < 2 ^ 32 }
    ensures { IsTrue result ↔ (left_all body.now one ≡ left_all body.now other) }
{
    if one == other {
        return true;
    }
    let size = size_all(body);
    size <= one && size <= other
}

// Whether the two handlers are the same exception place of a text.
fn same_handler(body: &[UStmt], one: &Handler, other: &Handler) -> bool
    requires { size_all body.now < 2 ^ 32 }
    ensures { IsTrue result ↔ (exception_place_of body.now one.now ≡ exception_place_of body.now other.now) }
{
    one.exception == other.exception
        && one.name == other.name
        && one.line == other.line
        && same_variable(&one.variable, &other.variable)
        && same_place(body, one.at, other.at)
}

// Whether the variables of two handlers are the same.
fn same_variable(one: &Option<HandlerVariable>, other: &Option<HandlerVariable>) -> bool
    ensures { IsTrue result ↔ (one.now ≡ other.now) }
{
    match (one, other) {
        (None, None) => true,
        (Some(one), Some(other)) => one.slot == other.slot && one.channel.same(&other.channel),
        _ => false,
    }
}

// Whether the same exception places of a text are in force.
fn same_places(body: &[UStmt], one: &[Handler], other: &[Handler]) -> bool
    requires { size_all body.now < 2 ^ 32 }
    ensures { IsTrue result ↔ (map (exception_place_of body.now) one.now ≡ map (exception_place_of body.now) other.now) }
{
    let mut remainder = other;
    for place in one {
        let Some((first, rest)) = remainder.split_first() else {
            return false;
        };
        if !same_handler(body, place, first) {
            return false;
        }
        remainder = rest;
    }
    remainder.is_empty()
}

// Whether the two frames have the same slots and labels, the same floor and as many outer places.
fn same_holdings(one: &Frame, other: &Frame) -> bool
    ensures { IsTrue result ↔ ((one.now.slots ≡ other.now.slots) × (one.now.labels ≡ other.now.labels) × (one.now.floor ≡ other.now.floor) × (one.now.outer ≡ other.now.outer)) }
{
    same_all(one.slots(), other.slots())
        && same_all(one.labels(), other.labels())
        && one.floor() == other.floor()
        && one.outer() == other.outer()
}

/// Whether the two frames are the same in a program of these units.
#[tactic(auto, using(shim_walk_frames::proofs::Returns::text_fits))]
pub fn same_frame(units: &[Unit], one: &Frame, other: &Frame) -> bool
    requires { AllFit units.now }
    ensures { IsTrue result ↔ (shown units.now one.now ≡ shown units.now other.now) }
{
    if one.unit() != other.unit() || one.halfway() != other.halfway() {
        return false;
    }
    if !same_holdings(one, other) {
        return false;
    }
    let body = text_of(units, one.unit());
    same_place(body, one.at(), other.at()) && same_places(body, one.places(), other.places())
}

// Whether the two lists of frames are the same, one by one, in a program of these units.
fn same_frames(units: &[Unit], one: &[Frame], other: &[Frame]) -> bool
    requires { AllFit units.now }
    ensures { IsTrue result ↔ (map (shown units.now) one.now ≡ map (shown units.now) other.now) }
{
    let mut remainder = other;
    for frame in one {
        let Some((first, rest)) = remainder.split_first() else {
            return false;
        };
        if !same_frame(units, frame, first) {
            return false;
        }
        remainder = rest;
    }
    remainder.is_empty()
}

/// Whether the same frames wait, in a program of these units.
#[tactic(auto, using(crate::proofs::SamePlaces::turned))]
pub fn same_call_stack(units: &[Unit], one: &CallStack, other: &CallStack) -> bool
    requires { AllFit units.now }
    ensures { IsTrue result ↔ (map (shown units.now) one.now ≡ map (shown units.now) other.now) }
{
    same_frames(units, one.as_slice(), other.as_slice())
}
