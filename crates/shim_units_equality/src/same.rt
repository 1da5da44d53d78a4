// When two values are the same as contracts see them.
ghost use Rattle.std.specs.Prelude.{◌≡◌, ◌↔◌, IsTrue};

use shim_base::Name;

/// What can be compared. Unlike `==` it distinguishes all that contracts distinguish.
pub trait Same {
    /// Whether it is the same as the other one.
    fn same(&self, other: &Self) -> bool
        ensures { IsTrue result ↔ (self.now ≡ other.now) };
}

/// Whether two lists are the same.
pub fn same_all<T: Same>(one: &[T], other: &[T]) -> bool
    ensures { IsTrue result ↔ (one.now ≡ other.now) }
{
    let mut left = other;
    for element in one {
        let Some((first, rest)) = left.split_first() else {
            return false;
        };
        if !element.same(first) {
            return false;
        }
        left = rest;
    }
    left.is_empty()
}

impl Same for u8 {
    fn same(&self, other: &u8) -> bool {
        *self == *other
    }
}

impl Same for u32 {
    fn same(&self, other: &u32) -> bool {
        *self == *other
    }
}

impl Same for usize {
    fn same(&self, other: &usize) -> bool {
        *self == *other
    }
}

impl Same for Name {
    fn same(&self, other: &Name) -> bool {
        same_all(self.as_bytes(), other.as_bytes())
    }
}
