// What a location is to its channel.
ghost use Rattle.std.specs.Prelude.{◌≡◌};
ghost use Rattle.shim_process.specs.Locations.{is_own, kept, moved, restored};
ghost use Rattle.shim_locations.specs.Ownerships.{ownership_of};

/// What a location is to its channel.
#[derive(Clone, Copy, Debug, PartialEq, Eq)]
pub enum Ownership {
    /// The channel's own variable, whose value a rendezvous gives to each process that waits at a `next` of it.
    Own,
    /// The channel's own variable, but it is with a child of the fork at which the process stands.
    Lent,
    Copy,
}

/// Whether it is that of the channel's own variable, which isn't with a child.
pub fn is_own(ownership: Ownership) -> bool
    ensures { result ≡ is_own (ownership_of ownership) }
{
    match ownership {
        Ownership::Own => true,
        Ownership::Lent => false,
        Ownership::Copy => false,
    }
}

/// What a process keeps of the ownership of a location that a branch takes by reference.
pub fn kept(ownership: Ownership) -> Ownership
    ensures { ownership_of result ≡ kept (ownership_of ownership) }
{
    match ownership {
        Ownership::Own => Ownership::Lent,
        Ownership::Lent => Ownership::Lent,
        Ownership::Copy => Ownership::Copy,
    }
}

/// The ownership that the child's location has if a branch takes a location of this ownership by reference.
pub fn moved(ownership: Ownership) -> Ownership
    ensures { ownership_of result ≡ moved (ownership_of ownership) }
{
    match ownership {
        Ownership::Own => Ownership::Own,
        Ownership::Lent => Ownership::Copy,
        Ownership::Copy => Ownership::Copy,
    }
}

/// The ownership afterwards of what a branch took by reference, from that of the child's location and that which
/// was kept: what was lent is the channel's own variable again, where the child's location is that still.
pub fn restored(back: Ownership, kept: Ownership) -> Ownership
    ensures { ownership_of result ≡ restored (ownership_of back) (ownership_of kept) }
{
    match back {
        Ownership::Own => match kept {
            Ownership::Own => Ownership::Own,
            Ownership::Lent => Ownership::Own,
            Ownership::Copy => Ownership::Copy,
        },
        Ownership::Lent => kept,
        Ownership::Copy => kept,
    }
}
