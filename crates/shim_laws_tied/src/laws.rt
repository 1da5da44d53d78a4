// The law of tied kinds of process.
ghost use Rattle.shim_laws_tied.specs.Ties.{KeepsTied};
ghost use Rattle.shim_laws_tied.specs.Laws.{SameEnabled, SameWalks, StayTied, SameEnded, SameRuns, SameMeanings};

use shim_local::Local;

/// Two kinds of process, tied by a relation between their states.
///
/// The trait has no call and one meaning, the relation. An implementation proves that every method of
/// `Local` keeps it: wherever a method may be called of two tied processes, it answers the same of both and
/// leaves them tied, as it does the children of a fork, one by one. Nothing is asked of `hand_over_cost`, nor of
/// `same`, which compares processes of one kind: tied ones may differ in what no method shows. One of the two alone
/// may run out of memory.
pub trait Tie {
    type One: Local;

    type Other: Local;

    /// Which states are tied.
    ghost tied: { Self.One → Self.Other → Type 0 };

    /// Each call of two tied states leaves them tied and answers the same of both (`KeepsTied`).
    ghost kept: { KeepsTied Self.One.ops Self.Other.ops tied };
}

/// Of two tied trees that are sound, each does what the other does: an event is enabled in one exactly where
/// it is in the other, and the walks list the same events in the same order. After each event that is
/// enabled they are sound and tied again, and the same is read off both. Each run of the first is a run of the
/// second. The meanings of two tied sound processes come to the same within every budget, if the first shares only
/// channels that it declared.
pub fn lift<T: Tie>()
    ensures enabled { SameEnabled T.One.ops T.Other.ops T.tied }
    ensures listed { SameWalks T.One.ops T.Other.ops T.tied }
    ensures after { StayTied T.One.ops T.Other.ops T.tied }
    ensures ended { SameEnded T.One.ops T.Other.ops T.tied }
    ensures runs { SameRuns T.One.ops T.Other.ops T.tied }
    ensures meanings { SameMeanings T.One.ops T.Other.ops T.tied }
{}
