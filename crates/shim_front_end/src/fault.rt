// Why a source is refused.
ghost use Rattle.std.specs.Prelude.{◌≡◌};
ghost use Rattle.shim_front_end.specs.declared.fault.SourceFault.TheVariants as v;

use shim_parser::ParseFault;
use shim_scopes::ScopeFault;
use shim_sharing::ShareFault;

/// Why a source is refused. Each kind of fault has a `NoMemory`, too, which says nothing of the source.
#[derive(Debug, Drop, PartialEq, Eq)]
pub enum SourceFault {
    /// It is the text of no program.
    Parse(ParseFault),
    /// It is the text of a program that has no resolved form.
    Scope(ScopeFault),
    /// It is the text of a program whose variables are shared in a way that is refused.
    Share(ShareFault),
}

impl From<ParseFault> for SourceFault {
    ghost from_gives = { λ fault e. e ≡ v.Parse fault };

    fn from(fault: ParseFault) -> SourceFault {
        SourceFault::Parse(fault)
    }
}

impl From<ScopeFault> for SourceFault {
    ghost from_gives = { λ fault e. e ≡ v.Scope fault };

    fn from(fault: ScopeFault) -> SourceFault {
        SourceFault::Scope(fault)
    }
}

impl From<ShareFault> for SourceFault {
    ghost from_gives = { λ fault e. e ≡ v.Share fault };

    fn from(fault: ShareFault) -> SourceFault {
        SourceFault::Share(fault)
    }
}
