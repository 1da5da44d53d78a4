// Why a text isn't read as a case.
use shim_base::NoMemory;
use std::alloc::{AllocError, AllocFailed};
use std::fmt;

#[derive(Clone, Copy)]
pub enum CaseFault {
    LikeHeading,
    Control,
    Unknown,
    OutsideCase,
    BelongsToNothing,
    Unended,
    Unnamed,
    SameTitle,
    Repeated,
    BadNumber,
    BadName,
    BadHex,
    BadWords,
    BadRepeat,
    ManyCalls,
    NoWords,
    NoStatus,
    NoText,
    NoCase,
    NotCases,
    NotRead,
    NoMemory,
}

impl CaseFault {
    fn text(self) -> &'static str {
        match self {
            CaseFault::LikeHeading =>
                "begins like a heading, but is none; in a file write it in hex",
            CaseFault::Control => "a heading with a control character, such as a carriage return",
            CaseFault::Unknown => "unknown heading",
            CaseFault::OutsideCase => "stands in no case; a remark begins with '#'",
            CaseFault::BelongsToNothing => "text that belongs to no file and to no expected text",
            CaseFault::Unended => "the case before has no '=== end'",
            CaseFault::Unnamed => "the case has no title",
            CaseFault::SameTitle => "another case has this title",
            CaseFault::Repeated => "the case has this heading already",
            CaseFault::BadNumber => "no number, or one that is too big or too small here",
            CaseFault::BadName => "a file's name has 1 to 64 bytes and no space",
            CaseFault::BadHex => "the part above has more than pairs of hex digits",
            CaseFault::BadWords =>
                "the words have two spaces, or a brace that is not at both ends of a word",
            CaseFault::BadRepeat => "no 'repeat COUNT TEXT' of at most 32 MiB in a file or a text",
            CaseFault::ManyCalls => "the words give more than 1000 calls",
            CaseFault::NoWords => "the case has no '=== words'",
            CaseFault::NoStatus => "the case has no '=== status'",
            CaseFault::NoText => "the case has no '=== text'",
            CaseFault::NoCase => "the file has no case",
            CaseFault::NotCases => "the name does not end in .cases or .faults",
            CaseFault::NotRead => "the file could not be read as UTF-8",
            CaseFault::NoMemory => "no memory",
        }
    }
}

impl fmt::Display for CaseFault {
    fn fmt<W: fmt::Write>(&self, f: &mut fmt::Formatter<W>) -> fmt::Result {
        f.write_str(self.text())
    }
}

impl From<AllocError> for CaseFault {
    fn from(_error: AllocError) -> CaseFault {
        CaseFault::NoMemory
    }
}

impl<T: Drop> From<AllocFailed<T>> for CaseFault {
    fn from(_error: AllocFailed<T>) -> CaseFault {
        CaseFault::NoMemory
    }
}

impl From<NoMemory> for CaseFault {
    fn from(_error: NoMemory) -> CaseFault {
        CaseFault::NoMemory
    }
}
