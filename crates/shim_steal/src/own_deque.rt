// A lane's own deque.
ghost use Rattle.std.specs.Prelude.{◌≡◌, ◌≤◌, length};
ghost use Rattle.crossbeam_deque.specs.Handles.{worker_flavor, worker_port, worker_view, worker_capacity, worker_index};

use crate::other_deque::OtherDeque;
use crate::steps::{LaneRule, MakePass, Pop, Push};
use crate::view::View;
use crossbeam_deque::Worker;
use shim_base::NoMemory;
use std::alloc::Global;

/// A deque is made to hold so many pieces.
const PIECES: usize = 64;

/// A lane's own deque. Each piece in it has a number, counted from 0, and pieces leave it in the order of their
/// numbers.
#[derive(Drop)]
pub struct OwnDeque<T> {
    // the number of the next piece
    next: u64,
    pub(crate) deque: Worker<(u64, T), Global, View<T>, LaneRule>,
    ghost fifo: { worker_flavor deque ≡ 0 },
    ghost first: { worker_port deque ≡ 0 },
    ghost counted: { length (worker_view deque).pushed ≡ next },
    ghost room: { 64 ≤ worker_capacity deque },
    ghost index: { worker_index deque ≤ next },
}

impl<T> OwnDeque<T> {
    ghost use Rattle.std.specs.Prelude.{◌∷◌, [], IfOk, IfErr, MatchResult, MatchOption};
    ghost use Rattle.crossbeam_deque.specs.Handles.{view};
    ghost use Rattle.shim_steal.specs.Views.{fresh, after_push, after_pass};
    ghost use Rattle.shim_steal.specs.Steps.{HasPopped, MayBeEmptyAt};
    ghost use Rattle.shim_steal.specs.Deques.{view_of, IsSameDeque, IsSameAsOwn};

    /// An empty one.
    pub(crate) fn new(alloc: Global) -> Result<OwnDeque<T>, NoMemory>
    where
        T: Drop,
        ensures { IfOk result (λ d. view_of d ≡ fresh) }
    {
        let deque = Worker::fifo_as(alloc, PIECES)?;
        Ok(OwnDeque { next: 0, deque })
    }

    /// Pushes a value at the back, and answers its number. A refusal hands the value back; the first 64 are never
    /// refused.
    pub(crate) fn push(&mut self, value: T) -> Result<u64, T>
        ensures same { IsSameDeque self.old self.new }
        ensures pushed { IfOk result (λ number. (number ≡ length (view_of self.old).pushed) × (view_of self.new ≡ after_push (view_of self.old) ((number, value) ∷ []))) }
        ensures refused { IfErr result (λ back. (back ≡ value) × (view_of self.new ≡ view_of self.old) × (64 ≤ length (view_of self.old).pushed)) }
    {
        let number = self.next;
        if number == u64::MAX {
            return Err(value);
        }
        match self.deque.push_as::<Push>((number, value)) {
            Ok(()) => {
                self.next = number + 1;
                Ok(number)
            }
            Err((_number, value)) => Err(value),
        }
    }

    /// Takes the first piece.
    pub(crate) fn pop(&mut self) -> Option<(u64, T)>
        ensures same { IsSameDeque self.old self.new }
        ensures taken { MatchOption result ((view_of self.new ≡ view_of self.old) × MayBeEmptyAt 0 (view_of self.old)) (λ piece. HasPopped (view_of self.old) (piece ∷ []) (view_of self.new)) }
    {
        self.deque.pop_as::<Pop>()
    }

    /// Lets another lane take pieces from it, too.
    pub(crate) fn share(&mut self) -> Result<OtherDeque<T>, NoMemory>
        ensures same { IsSameDeque self.old self.new }
        ensures shared { MatchResult result (λ other. IsSameAsOwn other self.new × (view other.pass ≡ fresh) × (view_of self.new ≡ after_pass (view_of self.old))) (λ _. view_of self.new ≡ view_of self.old) }
    {
        let deque = self.deque.stealer()?;
        let pass = self.deque.another::<MakePass>();
        Ok(OtherDeque { deque, pass })
    }
}
