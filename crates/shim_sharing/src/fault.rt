// Why a program is refused.
ghost use Rattle.std.specs.Prelude.{◌≡◌};
ghost use Rattle.shim_sharing.specs.declared.fault.ShareFault.TheVariants as v;

use shim_base::Name;

/// Why a program's variables are shared in a way that is refused.
#[derive(Debug, Drop, PartialEq, Eq)]
pub enum ShareFault {
    /// Two branches of a fork take one variable or stream by reference. Of all pairs that do, this pair is
    /// the least, counted from 0. The name is that of the first declared that both take by reference. The
    /// line is where the fork begins.
    TwoWriters {
        line: u32,
        name: Name,
        first: u32,
        second: u32,
    },
    /// A call gives a variable or a stream by reference that is another bare argument of the call. Of
    /// several arguments the leftmost by reference counts. The line is that of the call or of the branch.
    Alias {
        line: u32,
        name: Name,
    },
    /// No memory was found. This alone may come in place of any other answer.
    NoMemory,
}

impl From<shim_base::NoMemory> for ShareFault {
    ghost from_gives = { λ _ e. e ≡ v.NoMemory };

    fn from(_error: shim_base::NoMemory) -> ShareFault {
        ShareFault::NoMemory
    }
}
