// Work on one process that is handed over, and what comes back of it.
ghost use Rattle.std.specs.Prelude.{◌≡◌, ◌≤◌};
ghost use Rattle.shim_local.specs.Quiets.{QuietSteps};
ghost use Rattle.shim_local.specs.Pieces.{FewerWithCause};

use crate::local::Local;

/// Work that was granted and not done yet: a process, and how many quiet steps it may take.
///
/// The three numbers are for whoever granted it: `pid` numbers the process there, `slot` and `round` the
/// piece. Nothing here reads them.
#[derive(Drop)]
pub struct Parcel<L: Local> {
    pub slot: u64,
    pub round: u64,
    pub pid: u64,
    /// The process as it was when the piece was granted.
    pub start: L,
    /// Another value of that state, which takes the steps.
    pub work: L,
    /// The most steps.
    pub grant: u64,
    ghost fresh: { work ≡ start },
}

/// Work that was done: `used` quiet steps lead from `start` to `last`, and `grant` isn't passed.
///
/// All but `used`, `short` and `last` is as in the parcel.
#[derive(Drop)]
pub struct Finished<L: Local> {
    pub slot: u64,
    pub round: u64,
    pub pid: u64,
    pub start: L,
    pub grant: u64,
    /// How many steps were taken. Without `short` there are fewer than `grant` only where the process came
    /// to another stop.
    pub used: u64,
    /// Memory was refused for a further step.
    pub short: bool,
    pub last: L,
    ghost steps: { QuietSteps L.ops used start last },
    ghost most: { used ≤ grant },
    ghost fewer: { FewerWithCause L.ops used grant short last },
}

/// Does the steps of a piece of work: all that were granted, and fewer only where the process comes to
/// another stop, or memory is wanted, which is `short`. What was done before that stays.
pub fn work<L: Local>(parcel: Parcel<L>) -> Finished<L>
    ensures slot { result.slot ≡ parcel.slot }
    ensures round { result.round ≡ parcel.round }
    ensures pid { result.pid ≡ parcel.pid }
    ensures start { result.start ≡ parcel.start }
    ensures grant { result.grant ≡ parcel.grant }
{
    let Parcel {
        slot,
        round,
        pid,
        start,
        mut work,
        grant,
    } = parcel;
    let quiet = work.quiet(grant);
    Finished {
        slot,
        round,
        pid,
        start,
        grant,
        used: quiet.taken,
        short: quiet.short,
        last: work,
    }
}
