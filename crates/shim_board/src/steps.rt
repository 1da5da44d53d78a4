// The rule of the table, and what the call that does a step knows from it.
use crate::content::Content;
use crate::view::View;
use atomic_table::{Join, Play, Split, TableRule};
use shim_base::Named;
use std::snapshot::Snapshot;

/// What holds between any two steps.
pub struct BoardRule;

impl<T, N: Named> TableRule<Content<T, N>, View<N::Label>, Snapshot<N>> for BoardRule {
    ghost use Rattle.shim_board.specs.Kept.{Kept};
    ghost use Rattle.shim_board.specs.Views.{first_chair};

    ghost holds = { λ key. Kept N.name (N.name key.value) };

    ghost first = { λ key. first_chair (N.name key.value) };
}

/// A load at a slot.
pub(crate) struct Look;

impl<T, N: Named> Play<Content<T, N>, View<N::Label>> for Look {
    ghost use Rattle.shim_board.specs.Steps.{HasLookedOnce};

    ghost then = { HasLookedOnce };
}

/// A load at a noted slot, which takes it in hand.
pub(crate) struct HoldEmpty;

impl<T, N: Named> Play<Content<T, N>, View<N::Label>> for HoldEmpty {
    ghost use Rattle.shim_board.specs.Steps.{HoldsEmpty};

    ghost then = { HoldsEmpty };
}

/// A load at a slot, which takes it in hand where it is BACK.
pub(crate) struct HoldBack;

impl<T, N: Named> Play<Content<T, N>, View<N::Label>> for HoldBack {
    ghost use Rattle.shim_board.specs.Steps.{HoldsBack};

    ghost then = { HoldsBack };
}

/// EMPTY to FULL.
pub(crate) struct Put;

impl<T, N: Named> Play<Content<T, N>, View<N::Label>> for Put {
    ghost use Rattle.shim_board.specs.Steps.{HasPut};

    ghost then = { HasPut };
}

/// FULL to TAKEN, where the word is still the one expected; else a look.
pub(crate) struct Claim;

impl<T, N: Named> Play<Content<T, N>, View<N::Label>> for Claim {
    ghost use Rattle.shim_board.specs.Steps.{HasClaimedOrLooked};

    ghost then = { HasClaimedOrLooked };
}

/// TAKEN to BACK.
pub(crate) struct Give;

impl<T, N: Named> Play<Content<T, N>, View<N::Label>> for Give {
    ghost use Rattle.shim_board.specs.Steps.{HasGiven};

    ghost then = { HasGiven };
}

/// BACK to EMPTY of the next round.
pub(crate) struct Collect;

impl<T, N: Named> Play<Content<T, N>, View<N::Label>> for Collect {
    ghost use Rattle.shim_board.specs.Steps.{HasCollected};

    ghost then = { HasCollected };
}

/// FREE to HELD, where the turn is free; else a look at its word.
pub(crate) struct TakeTurn;

impl<T, N: Named> Play<Content<T, N>, View<N::Label>> for TakeTurn {
    ghost use Rattle.shim_board.specs.Steps.{HasTakenOrLooked};

    ghost then = { HasTakenOrLooked N.name };
}

/// HELD to FREE.
pub(crate) struct LeaveTurn;

impl<T, N: Named> Play<Content<T, N>, View<N::Label>> for LeaveTurn {
    ghost use Rattle.shim_board.specs.Steps.{HasLeftTurn};

    ghost then = { HasLeftTurn };
}

/// One more chair, beside chair 0.
pub(crate) struct SplitChair;

impl<M> Split<View<M>> for SplitChair {
    ghost use Rattle.shim_board.specs.Views.{after_split, split_off};

    ghost left = { after_split };

    ghost right = { split_off };
}

/// Chair 0 takes in another chair, which is spent from then on.
pub(crate) struct JoinChair;

impl<M> Join<View<M>> for JoinChair {
    ghost use Rattle.shim_board.specs.Views.{after_join, spent};

    ghost both = { after_join };

    ghost spent = { spent };
}
