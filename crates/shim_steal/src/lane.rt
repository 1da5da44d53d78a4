// A lane, and what it does.
ghost use Rattle.std.specs.Prelude.{◌≡◌, ◌≢◌, ◌≤◌, length};
ghost use Rattle.shim_steal.specs.Places.{deque_index};
ghost use Rattle.shim_steal.specs.Deques.{view_of};

use crate::other_deque::OtherDeque;
use crate::own_deque::OwnDeque;
use shim_base::NoMemory;
use std::sync::Wait;

/// A piece that was taken: the lane whose deque it stood in, the number under which it was pushed there,
/// and what was pushed.
#[derive(Drop)]
pub struct Piece<T> {
    pub home: u64,
    pub number: u64,
    pub value: T,
}

/// A lane: a deque of its own, and those of all other lanes, from which it may take pieces. It may go to another
/// thread.
#[derive(Drop)]
pub struct Lane<T> {
    pub(crate) home: u64,
    pub(crate) own: OwnDeque<T>,
    // those of the other lanes, in the order of these
    pub(crate) others: Vec<OtherDeque<T>>,
    ghost among: { home ≤ length others.items },
    ghost alone: { length others.items ≡ 0 → (view_of own).made ≡ 0 },
}

// The place of another lane's deque among those of all others.
fn place_of(home: u64, from: u64) -> usize
    requires { from ≢ home }
    ensures { result ≡ deque_index home from }
{
    if from < home {
        from as usize
    } else {
        from as usize - 1
    }
}

impl<T> Lane<T> {
    ghost use Rattle.std.specs.Prelude.{◌∷◌, [], ◌++◌, IfOk, IfErr, MatchOption, IsNone, ◌↔◌, ◌<◌};
    ghost use Rattle.shim_steal.specs.Lanes.{home_of, lanes_of, pushes_of, takes_of, IsOtherLane, IsSameLane, HasSamePushes, HasSameTakes, HasTakenOne, HasTakenAll, OwnMayBeEmpty, OtherMayBeEmpty};

    /// Its number.
    pub fn home(&self) -> u64
        ensures { result ≡ home_of self.now }
    {
        self.home
    }

    /// How many lanes there are.
    pub fn count(&self) -> u64
        ensures count { result ≡ lanes_of self.now }
        ensures among { home_of self.now < lanes_of self.now }
    {
        self.others.len() as u64 + 1
    }

    /// Pushes a value at the back of its own deque, and answers the number of the piece, counted from 0. A refused
    /// push changes nothing; the first 64 are never refused.
    pub fn push(&mut self, value: T) -> Result<u64, (NoMemory, T)>
        ensures same { IsSameLane self.old self.new × HasSameTakes self.old self.new }
        ensures pushed { IfOk result (λ number. (number ≡ length (pushes_of self.old)) × (pushes_of self.new ≡ pushes_of self.old ++ value ∷ [])) }
        ensures refused { IfErr result (λ back. (back.1 ≡ value) × HasSamePushes self.old self.new × (64 ≤ length (pushes_of self.old))) }
    {
        match self.own.push(value) {
            Ok(number) => Ok(number),
            Err(value) => Err((NoMemory, value)),
        }
    }

    /// Takes the first piece of its own deque. `None` comes only where that may be empty by what this lane did to it,
    /// and with one lane exactly where it took all that it pushed.
    pub fn pop(&mut self) -> Option<Piece<T>>
        ensures same { IsSameLane self.old self.new × HasSamePushes self.old self.new }
        ensures taken { MatchOption result (HasSameTakes self.old self.new × OwnMayBeEmpty self.old) (λ piece. (piece.home ≡ home_of self.old) × HasTakenOne self.old self.new piece.home piece.number piece.value) }
        ensures alone { lanes_of self.old ≡ 1 → IsNone result ↔ HasTakenAll self.old }
    {
        match self.own.pop() {
            Some((number, value)) => Some(Piece {
                home: self.home,
                number,
                value,
            }),
            None => None,
        }
    }

    /// Takes the first piece of another lane's deque. `None` comes only where that may be empty by what this lane
    /// took from it. Where the piece went to another lane meanwhile it tries again.
    pub fn steal<R: Wait>(&mut self, rt: &R, from: u64) -> Option<Piece<T>>
        requires from { IsOtherLane self.old from }
        ensures same { IsSameLane self.old self.new × HasSamePushes self.old self.new }
        ensures taken { MatchOption result (HasSameTakes self.old self.new × OtherMayBeEmpty self.old from) (λ piece. (piece.home ≡ from) × HasTakenOne self.old self.new from piece.number piece.value) }
    {
        let place = place_of(self.home, from);
        match self.others[place].take_first(rt) {
            Some((number, value)) => Some(Piece {
                home: from,
                number,
                value,
            }),
            None => None,
        }
    }
}
