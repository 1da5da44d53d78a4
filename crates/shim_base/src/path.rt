// Where a process stands in the tree of processes.
ghost use Rattle.std.specs.Prelude.{◌≡◌, [], ◌∷◌, ◌++◌, IfOk};

use crate::{List, NoMemory, Shared};
use std::alloc::Global;
use std::cmp::Ordering;
use std::marker::Model;

/// How a process is reached from the root: for each fork on the way the fork's number at its process
/// and the branch's number, both counted from 0. Contracts see a list of pairs. Copies of a path share the pairs:
/// a copy adds to a count and copies no pair.
#[derive(Drop)]
pub struct Path {
    alloc: Global,
    // `None` for the root, whose path has no pairs
    pairs: Option<Shared<List<(u32, u32)>>>,
}

impl Model for Path {
    ghost use Rattle.shim_base.specs.Paths.{Path as PathOf};
    ghost use Rattle.shim_base.specs.SharedPaths.{pairs_of};

    ghost Value = { PathOf };

    ghost view = { λ path. pairs_of path.pairs };
}

impl Path {
    /// The path of the root, which takes no memory.
    pub fn root(alloc: Global) -> Path
        ensures { result ≡ [] }
    {
        Path { alloc, pairs: None }
    }

    /// The path of a child of the process of this path: the child in that branch of the fork of that number.
    pub fn child(&self, fork: u32, branch: u32) -> Result<Path, NoMemory>
        ensures { IfOk result (λ path. path ≡ self.now ++ (fork, branch) ∷ []) }
    {
        let many = self.pairs().len().checked_add(1).ok_or(NoMemory)?;
        let mut pairs = List::with_capacity(self.alloc, many)?;
        pairs.extend_from_slice(self.pairs())?;
        pairs.push((fork, branch))?;
        Ok(Path {
            alloc: self.alloc,
            pairs: Some(Shared::new(self.alloc, pairs)?),
        })
    }

    /// The pairs of a fork's and a branch's number, from the root on.
    pub fn pairs(&self) -> &[(u32, u32)]
        ensures { result.now ≡ self.now }
    {
        match &self.pairs {
            None => &[],
            Some(pairs) => pairs.as_slice(),
        }
    }

    /// Another path of the same pairs.
    pub fn copy(&self) -> Result<Path, NoMemory>
        ensures { IfOk result (λ path. path ≡ self.now) }
    {
        let pairs = match &self.pairs {
            None => None,
            Some(pairs) => Some(pairs.share()?),
        };
        Ok(Path {
            alloc: self.alloc,
            pairs,
        })
    }
}

impl PartialEq for Path {
    ghost use Rattle.shim_base.specs.Paths.{same_path};
    ghost use Rattle.shim_base.specs.PathLaws.{same_path_laws};

    ghost eq = { same_path };

    ghost laws = { same_path_laws };

    fn eq(&self, other: &Path) -> bool {
        self.pairs() == other.pairs()
    }
}

impl Eq for Path {
    ghost use Rattle.shim_base.specs.PathLaws.{same_path_equivalence};

    ghost laws = { same_path_equivalence };
}

impl PartialOrd for Path {
    ghost use Rattle.std.specs.Prelude.{Some};
    ghost use Rattle.shim_base.specs.Paths.{path_order};
    ghost use Rattle.shim_base.specs.PathLaws.{path_order_partial};

    ghost partial_cmp = { λ a b. Some (path_order a b) };

    ghost laws = { path_order_partial };

    fn partial_cmp(&self, other: &Path) -> Option<Ordering> {
        Some(self.cmp(other))
    }
}

impl Ord for Path {
    ghost use Rattle.shim_base.specs.Paths.{path_order};
    ghost use Rattle.shim_base.specs.PathLaws.{path_order_total, same_path_ties};
    ghost use Rattle.std.specs.Prelude.{refl};

    ghost cmp = { path_order };

    ghost total = { path_order_total };

    ghost matches_partial_cmp = { λ a b. refl };

    ghost matches_eq = { same_path_ties };

    fn cmp(&self, other: &Path) -> Ordering {
        self.pairs().cmp(other.pairs())
    }
}
