// How long pieces are.
ghost use Rattle.std.specs.Prelude.{◌≡◌, ◌≤◌, ◌<◌, ◌*◌, min};

/// The most steps that a piece has which is done where its process stands.
pub(crate) const LONGEST: u64 = 10_000;

/// The most steps that a piece has which is handed out. To take one in may cost as much as 139,414 steps, where a
/// program's text and its input are as long as they may be.
pub(crate) const LONGEST_OUT: u64 = 262_144;

/// The fewest steps that a process is tried for in place where others can go on beside it.
const FEWEST_IN_PLACE: u64 = 64;

/// How many steps the next piece of a process has that used up one of so many: what a piece costs beside its steps
/// is the same, however long it is.
pub(crate) fn longer(used: u64) -> u64
    ensures within { (1 ≤ result) × (result ≤ 10000) }
    ensures grown { 1 ≤ used → result ≡ min (used * 2) 10000 }
{
    used.saturating_mul(2).clamp(1, LONGEST)
}

/// How many steps the next piece has that is handed out of a process which used up one of so many: handing a piece
/// over costs more than doing it in place, and these pieces grow faster.
pub(crate) fn longer_out(used: u64) -> u64
    ensures within { (1 ≤ result) × (result ≤ 262144) }
    ensures grown { 1 ≤ used → result ≡ min (used * 8) 262144 }
{
    used.saturating_mul(8).clamp(1, LONGEST_OUT)
}

/// How long the pieces of a run are.
#[derive(Drop)]
pub(crate) struct Lengths {
    first: u64,
    in_place: u64,
    ghost some: { 1 ≤ first },
}

impl Lengths {
    /// Those of a run whose first pieces have so many steps, and where handing a process over takes as long as
    /// so many steps.
    pub(crate) fn new(first: u64, hand_over_cost: u64) -> Lengths
        requires { 1 ≤ first }
    {
        Lengths {
            first,
            in_place: hand_over_cost.max(FEWEST_IN_PLACE),
        }
    }

    /// How many steps the first piece of a process has at most, in place or not.
    pub(crate) fn first(&self) -> u64
        ensures { 1 ≤ result }
    {
        self.first
    }

    /// How many steps a process does in place before it is handed out, in pieces that grow: about as long as
    /// handing it over takes, so that those that stop soon never cost that.
    pub(crate) fn in_place(&self) -> u64 {
        self.in_place
    }

    /// How many steps the first piece has that is handed out of a process which did as many in place as `in_place`
    /// says.
    pub(crate) fn after_those(&self) -> u64
        ensures { 1 ≤ result }
    {
        self.first.max(longer_out(self.in_place))
    }
}
