// The processes that wait, by path.
ghost use Rattle.std.specs.Prelude.{◌≡◌, OnErr, OnOk, IfOk, map};
ghost use Rattle.std.specs.FinMap as finite;
ghost use Rattle.shim_semantics.specs.Endings.{wait_at};
ghost use Rattle.shim_run_log.specs.Waits.{with_wait};

use shim_base::{Chan, List, NoMemory, Path};
use shim_local::WaitAt;
use std::alloc::Global;
use std::collections::BTreeMap;
use std::marker::Model;

/// For each process that waits, the channel at which it is.
#[derive(Drop)]
pub struct Waits {
    kept: BTreeMap<Path, Chan, Global>,
}

impl Model for Waits {
    ghost use Rattle.std.specs.FinMap as finite;
    ghost use Rattle.shim_base.specs.Paths.{NamedChannel, path_order};
    ghost use Rattle.shim_run_log.specs.Maps.{waits_in};
    ghost use Rattle.shim_semantics.proofs.Codes.{waits_code};

    ghost Value = { finite.FinMap path_order NamedChannel };

    ghost coded = { waits_code };

    ghost view = { λ w. waits_in w.kept };
}

impl Waits {
    /// No waits, which takes no memory.
    pub fn new(alloc: Global) -> Waits
        ensures { result ≡ finite.empty }
    {
        Waits {
            kept: BTreeMap::new(alloc),
        }
    }

    /// The process of this path waits at the channel. Of one path the first channel stays. A refusal changes nothing.
    pub fn add(&mut self, path: &Path, chan: &Chan) -> Result<(), NoMemory>
        ensures ok { OnOk result (self.new ≡ with_wait self.old path.now chan.now) }
        ensures err { OnErr result (self.new ≡ self.old) }
    {
        if self.kept.contains_key(path) {
            return Ok(());
        }
        self.kept.insert(path.copy()?, chan.copy()?)?;
        Ok(())
    }

    /// Each process that waits, by path.
    pub fn list(&self, alloc: Global) -> Result<List<WaitAt>, NoMemory>
        ensures { IfOk result (λ list. list ≡ map wait_at (finite.entries self.now)) }
    {
        let mut list = List::new(alloc);
        for (path, chan) in self.kept.iter() {
            list.push(WaitAt {
                path: path.copy()?,
                chan: chan.copy()?,
            })?;
        }
        Ok(list)
    }
}
