// When two channels, or two paths, are the same.
use crate::same::{Same, same_all};
use shim_base::{Chan, Path};

impl Same for (u32, u32) {
    fn same(&self, other: &(u32, u32)) -> bool {
        self.0 == other.0 && self.1 == other.1
    }
}

impl Same for Path {
    fn same(&self, other: &Path) -> bool {
        same_all(self.pairs(), other.pairs())
    }
}

impl Same for Chan {
    fn same(&self, other: &Chan) -> bool {
        self.home().same(other.home())
            && self.serial() == other.serial()
            && self.name() == other.name()
    }
}
