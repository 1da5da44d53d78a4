// The deque of another lane.
ghost use Rattle.std.specs.Prelude.{◌≡◌};
ghost use Rattle.crossbeam_deque.specs.Handles.{IsPassOf, view, stealer_deque, stealer_flavor};

use crate::steps::{LaneRule, TakeFirst};
use crate::view::View;
use crossbeam_deque::{Pass, Steal, Stealer};
use std::alloc::Global;
use std::sync::Wait;

/// The deque of another lane, as one sees it who may take pieces from it.
#[derive(Drop)]
pub struct OtherDeque<T> {
    pub(crate) deque: Stealer<(u64, T), Global, View<T>, LaneRule>,
    pub(crate) pass: Pass<(u64, T), View<T>>,
    ghost on: { IsPassOf (stealer_deque deque) pass },
    ghost fifo: { stealer_flavor deque ≡ 0 },
}

impl<T> OtherDeque<T> {
    ghost use Rattle.std.specs.Prelude.{◌∷◌, [], MatchOption};
    ghost use Rattle.shim_steal.specs.Views.{after_take};
    ghost use Rattle.shim_steal.specs.Steps.{MayBeEmpty};

    /// Takes the first piece. Where that went to another lane meanwhile it tries again.
    pub(crate) fn take_first<R: Wait>(&mut self, rt: &R) -> Option<(u64, T)>
        ensures same { stealer_deque self.new.deque ≡ stealer_deque self.old.deque }
        ensures taken { MatchOption result ((view self.new.pass ≡ view self.old.pass) × MayBeEmpty (view self.old.pass)) (λ piece. view self.new.pass ≡ after_take (view self.old.pass) (piece ∷ [])) }
    {
        for _ in rt.forever() {
            match self.deque.steal_as::<TakeFirst>(&mut self.pass) {
                Steal::Success(piece) => return Some(piece),
                Steal::Empty => return None,
                Steal::Retry => {}
            }
        }
        None
    }
}
