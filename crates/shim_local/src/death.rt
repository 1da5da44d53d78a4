// How a process died.
ghost use Rattle.std.specs.Prelude.{◌≡◌};
ghost use Rattle.shim_local.specs.Deaths.{handed, outermost};

/// The exception of which a process died: its label, and the number with which it was thrown. A trap has 0.
/// A poisoned process has none. A process that died at the close of its fork has none if no child that died of
/// the prevailing label has one.
#[derive(Clone, Copy, Debug, PartialEq, Eq)]
pub struct Death {
    pub label: u32,
    pub given: Option<i64>,
}

impl Death {
    /// The number that a handler is given, which is 0 where there is none.
    pub fn handed(self) -> i64
        ensures { result ≡ handed self.given }
    {
        self.given.unwrap_or(0)
    }

    /// The outermost of two deaths. Where they have one label, the number is that of the first which has one.
    pub fn outermost(self, other: Death) -> Death
        ensures { result ≡ outermost self other }
    {
        if self.label < other.label {
            return self;
        }
        if other.label < self.label {
            return other;
        }
        Death {
            label: self.label,
            given: self.given.or(other.given),
        }
    }
}
