// The frame of a unit that a process is in.
ghost use Rattle.std.specs.Prelude.{◌≡◌, ◌<◌, ◌≤◌, ◌↔◌, ◌+◌, ◌^◌, [], ◌∷◌, ◌++◌, length, take, true, false, slice_get, None, Some, IsTrue, IfOk, OnOk, OnErr};
ghost use Rattle.std.specs.Option.{option_copied};
ghost use Rattle.shim_process.specs.Ends.{went};
ghost use Rattle.shim_process.specs.Unwinding.{handling};
ghost use Rattle.shim_walk_frames.specs.FrameViews.{frame_of};
ghost use Rattle.shim_walk_frames.specs.Unwinding.{variable_of};
ghost use Rattle.shim_walk_frames.specs.Variables.{one_of, variables_of};
ghost use Rattle.shim_walk_frames.specs.Cursors.{IsCursor, IsRightCursor};
ghost use Rattle.shim_walk_frames.specs.Turns.{successor_of};
ghost use Rattle.shim_walk_frames.specs.Successors.{size_all};

use crate::cursor::{Cursor, advance, cursor_of, go_at};
use crate::handler::{Handler, copied};
use crate::successors::Successor;
use shim_base::NoMemory;
use shim_process::HandlerVariable;
use shim_units::UStmt;
use std::alloc::Global;
use std::marker::Model;

/// One unit that the process is in, at a statement of it.
#[derive(Drop)]
pub struct Frame {
    unit: u32,
    at: u32,
    outer: u32,
    halfway: bool,
    // It isn't known of a frame that was put at a statement by its number.
    cursor: Option<Cursor>,
    slots: Vec<usize>,
    labels: Vec<u32>,
    floor: usize,
    places: Vec<Handler>,
}

impl Model for Frame {
    ghost use Rattle.std.specs.Prelude.{◌<◌, ◌+◌, ◌^◌, length};
    ghost use Rattle.shim_walk_frames.specs.FrameViews.{FrameView};

    ghost Value = { FrameView };

    ghost view = { λ a. record { unit = a.unit; at = a.at; cursor = a.cursor; halfway = a.halfway; slots = a.slots.items; labels = a.labels.items; floor = a.floor; outer = a.outer; places = a.places.items } };

    ghost invariant = { λ a. a.outer + length a.places.items < 2 ^ 31 };
}

impl Frame {
    /// The frame of a unit at its first statement, with this cursor.
    pub fn enter(
        alloc: Global,
        unit: u32,
        cursor: Cursor,
        slots: Vec<usize>,
        labels: Vec<u32>,
        floor: usize,
        outer: u32,
    ) -> Frame
        requires { outer < 2 ^ 31 }
        ensures { result ≡ record { unit = unit; at = 0; cursor = Some cursor; halfway = false; slots = slots.items; labels = labels.items; floor = floor; outer = outer; places = [] } }
    {
        Frame {
            unit,
            at: 0,
            cursor: Some(cursor),
            halfway: false,
            slots,
            labels,
            floor,
            outer,
            places: Vec::new(alloc),
        }
    }

    /// The number of its unit.
    pub fn unit(&self) -> u32
        ensures { result ≡ self.now.unit }
    {
        self.unit
    }

    /// The number of the statement at which it stands.
    pub fn at(&self) -> u32
        ensures { result ≡ self.now.at }
    {
        self.at
    }

    /// The cursor of the number at which it stands, in this text, which is the unit's own list.
    pub fn cursor(&self, body: &[UStmt]) -> Cursor
        requires bound { size_all body.now < 2 ^ 32 }
        requires cursor { IsRightCursor body.now self.now.cursor self.now.at }
        ensures { IsCursor body.now result self.now.at }
    {
        match self.cursor {
            Some(cursor) => cursor,
            None => cursor_of(body, self.at),
        }
    }

    /// Whether the unit with this text is over.
    pub fn is_over(&self, body: &[UStmt]) -> bool
        requires bound { size_all body.now < 2 ^ 32 }
        requires cursor { IsRightCursor body.now self.now.cursor self.now.at }
        ensures { IsTrue result ↔ (size_all body.now ≤ self.now.at) }
    {
        self.cursor(body).index >= body.len()
    }

    /// Whether the first part of the statement at which it stands is done.
    pub fn halfway(&self) -> bool
        ensures { result ≡ self.now.halfway }
    {
        self.halfway
    }

    /// The numbers of its variables' locations.
    pub fn slots(&self) -> &[usize]
        ensures { result.now ≡ self.now.slots }
    {
        self.slots.as_slice()
    }

    /// The labels of the exceptions that it was given.
    pub fn labels(&self) -> &[u32]
        ensures { result.now ≡ self.now.labels }
    {
        self.labels.as_slice()
    }

    /// How many locations there were when it was entered.
    pub fn floor(&self) -> usize
        ensures { result ≡ self.now.floor }
    {
        self.floor
    }

    /// How many exception places of the process were in force when it was entered.
    pub fn outer(&self) -> u32
        ensures { result ≡ self.now.outer }
    {
        self.outer
    }

    /// Its exception places in force, the outermost first.
    pub fn places(&self) -> &[Handler]
        ensures value { result.now ≡ self.now.places }
        ensures bound { self.now.outer + length self.now.places < 2 ^ 31 }
    {
        self.places.as_slice()
    }

    /// How many exception places of the process are in force in this frame and in those that wait for it.
    pub fn handlers(&self) -> u32
        ensures value { result ≡ self.now.outer + length self.now.places }
        ensures bound { result < 2 ^ 31 }
    {
        self.outer + self.places.len() as u32
    }

    /// How many variables its handlers have.
    #[tactic(auto, using(crate::proofs::Counting::variables_few))]
    pub fn variables(&self) -> usize
        ensures value { result ≡ variables_of self.now.places }
        ensures bound { result < 2 ^ 31 }
    {
        let mut many = 0;
        let places = self.places.as_slice();
        for place in places {
            if place.variable.is_some() {
                many += 1;
            }
        }
        many
    }

    /// The first part of the statement at which it stands is done from now on.
    pub fn halve(&mut self)
        ensures { self.new ≡ record self.old { halfway = true } }
    {
        self.halfway = true;
    }

    /// The place of the exception's `try`, at which the unit stands, comes into force, with the variable
    /// of its handler. A refusal changes nothing.
    pub fn install(
        &mut self,
        exception: u32,
        name: u32,
        line: u32,
        variable: Option<HandlerVariable>,
    ) -> Result<(), NoMemory>
        ensures ok { OnOk result (self.new ≡ record self.old { places = self.old.places ++ record { exception = exception; name = name; line = line; at = self.old.at; variable = variable } ∷ [] }) }
        ensures err { OnErr result (self.new ≡ self.old) }
    {
        if self.outer as usize + self.places.len() >= 2_147_483_647 {
            return Err(NoMemory);
        }
        let at = self.at;
        self.places.push(Handler {
            exception,
            name,
            line,
            at,
            variable,
        })?;
        Ok(())
    }

    // `kept` of the outermost exception places stay. Most steps leave all of them in force, so what drops one is kept
    // out of their code.
    #[inline(never)]
    fn leave_places(&mut self, kept: usize)
        ensures { self.new ≡ record self.old { places = take kept self.old.places } }
    {
        self.places.truncate(kept);
    }

    /// Puts the frame at the statement of this number, or at its second part, with `kept` of its outermost exception
    /// places. The cursor is looked for only when a later call needs it.
    #[tactic(auto, using(crate::proofs::Unwinds::takes_none))]
    pub fn rest(&mut self, at: u32, halfway: bool, kept: usize)
        ensures { self.new ≡ record self.old { at = at; cursor = None; halfway = halfway; places = take kept self.old.places } }
    {
        self.at = at;
        self.cursor = None;
        self.halfway = halfway;
        if kept < self.places.len() {
            self.leave_places(kept);
        }
    }

    /// Another one of the same meaning.
    pub fn copy(&self) -> Result<Frame, NoMemory>
        ensures { IfOk result (λ copy. copy ≡ self.now) }
    {
        let alloc = *self.slots.allocator();
        Ok(Frame {
            unit: self.unit,
            at: self.at,
            cursor: self.cursor,
            halfway: self.halfway,
            slots: Vec::from_slice(alloc, self.slots.as_slice())?,
            labels: Vec::from_slice(alloc, self.labels.as_slice())?,
            floor: self.floor,
            outer: self.outer,
            places: copied(alloc, self.places.as_slice())?.into_vec(),
        })
    }

    /// One of its exception places in force, counted from the outermost.
    pub fn place(&self, index: usize) -> Option<&Handler>
        ensures { option_copied result ≡ slice_get self.now.places index }
    {
        self.places.get(index)
    }

    // Takes the place of this index out of force, with those inside it, and gives it. Where there is no such place
    // nothing changes.
    #[tactic(auto, using(crate::proofs::Unwinds::takes_none, crate::proofs::Unwinds::takes_last))]
    fn take_place(&mut self, index: usize) -> Option<Handler>
        ensures place { result ≡ slice_get self.old.places index }
        ensures others { self.new ≡ record self.old { places = take index self.old.places } }
    {
        if index >= self.places.len() {
            return None;
        }
        self.places.truncate(index + 1);
        self.places.pop()
    }

    /// The place goes out of force, with those inside it. Gives the variable of its handler.
    pub fn catch(&mut self, index: usize) -> Option<HandlerVariable>
        ensures variable { result ≡ variable_of (slice_get self.old.places index) }
        ensures others { self.new ≡ record self.old { places = take index self.old.places } }
        ensures fewer { one_of result + variables_of self.new.places ≤ variables_of self.old.places }
    {
        let Some(place) = self.take_place(index) else {
            return None;
        };
        let Handler { variable, .. } = place;
        variable
    }

    /// Goes on with the handler of the `try` of this place, which goes out of force, with those inside it. Gives the
    /// variable of that handler. Where there is no such place nothing changes.
    #[tactic(auto, using(crate::proofs::Unwinds::handles_none))]
    pub fn handle(&mut self, body: &[UStmt], index: usize) -> Option<HandlerVariable>
        requires bound { size_all body.now < 2 ^ 32 }
        requires cursor { IsRightCursor body.now self.old.cursor self.old.at }
        ensures value { frame_of body.now self.new ≡ handling (slice_get (frame_of body.now self.old).places index) index (frame_of body.now self.old) }
        ensures variable { result ≡ variable_of (slice_get self.old.places index) }
        ensures fewer { one_of result + variables_of self.new.places ≤ variables_of self.old.places }
        ensures unit { self.new.unit ≡ self.old.unit }
        ensures slots { self.new.slots ≡ self.old.slots }
        ensures cursor { IsRightCursor body.now self.new.cursor self.new.at }
    {
        let Some(place) = self.take_place(index) else {
            return None;
        };
        let Handler { at, variable, .. } = place;
        self.rest(at, false, index);
        self.go(body, Successor::Second);
        variable
    }

    /// Goes on from the statement at which it stands to this successor, and past the ends of `try` blocks that
    /// follow.
    pub fn go(&mut self, body: &[UStmt], successor: Successor)
        requires bound { size_all body.now < 2 ^ 32 }
        requires cursor { IsRightCursor body.now self.old.cursor self.old.at }
        ensures value { frame_of body.now self.new ≡ went (successor_of successor) (frame_of body.now self.old) }
        ensures fewer { variables_of self.new.places ≤ variables_of self.old.places }
        ensures unit { self.new.unit ≡ self.old.unit }
        ensures slots { self.new.slots ≡ self.old.slots }
        ensures cursor { IsRightCursor body.now self.new.cursor self.new.at }
    {
        let cursor = self.cursor(body);
        self.halfway = false;
        let Some(position) = go_at(body, cursor, successor, self.at) else {
            return;
        };
        self.at = position.at;
        self.cursor = Some(advance(body, cursor, position.at));
        let kept = self.places.len().saturating_sub(position.left as usize);
        self.places.truncate(kept);
    }
}
