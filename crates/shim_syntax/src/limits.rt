// What a source may have too many of.
ghost use Rattle.std.specs.Prelude.{◌≡◌};
ghost use Rattle.shim_syntax.specs.Limits as limits;

/// What is counted as a source is read.
#[derive(Clone, Copy, Debug, PartialEq, Eq)]
pub enum Many {
    /// Functions of the source.
    Functions,
    /// Parameters of one function.
    Parameters,
    /// Arguments of one call.
    Arguments,
    /// Names in one `throws`.
    Throws,
    /// Declarations in one function's text.
    Locals,
    /// Branches of one fork.
    Branches,
    /// Operators of one expression, those with one operand and those with two.
    Operators,
}

/// How deep statements, parentheses and operands may stand in each other.
pub const MOST_NESTING: u16 = 64;

impl Many {
    /// The greatest number that is taken.
    pub const fn most(self) -> u16
        ensures { result ≡ limits.most_of self }
    {
        match self {
            Many::Functions => 1024,
            Many::Parameters => 32,
            Many::Arguments => 32,
            Many::Throws => 16,
            Many::Locals => 64,
            Many::Branches => 64,
            Many::Operators => 256,
        }
    }
}
