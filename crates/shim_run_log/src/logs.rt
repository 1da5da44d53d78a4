// What was logged of each process.
ghost use Rattle.std.specs.Prelude.{◌≡◌, OnOk, OnErr, IfOk, [], ◌∷◌, ◌++◌, map};
ghost use Rattle.std.specs.FinMap as finite;
ghost use Rattle.shim_semantics.specs.Trees.{with_logs};
ghost use Rattle.shim_semantics.specs.Endings.{all_logs, log_at};
ghost use Rattle.shim_run_log.specs.Logged.{logged};

use shim_base::{List, NoMemory, Path};
use shim_local::{Log, LogWhat};
use std::alloc::Global;
use std::collections::BTreeMap;
use std::marker::Model;

/// For each process of which something was logged, what that was, in order.
#[derive(Drop)]
pub(crate) struct Logs {
    kept: BTreeMap<Path, List<LogWhat>, Global>,
    alloc: Global,
}

impl Model for Logs {
    ghost use Rattle.std.specs.FinMap as finite;
    ghost use Rattle.std.specs.Prelude.{List};
    ghost use Rattle.shim_base.specs.Paths.{path_order};
    ghost use Rattle.shim_local.specs.declared.LogWhat.{LogWhat};
    ghost use Rattle.shim_semantics.proofs.Codes.{logs_code};
    ghost use Rattle.shim_run_log.specs.Maps.{logs_in};

    ghost Value = { finite.FinMap path_order (List LogWhat) };

    ghost coded = { logs_code };

    ghost view = { λ l. logs_in l.kept };
}

impl Logs {
    /// No logs, which takes no memory.
    pub(crate) fn new(alloc: Global) -> Logs
        ensures { result ≡ finite.empty }
    {
        Logs {
            kept: BTreeMap::new(alloc),
            alloc,
        }
    }

    /// Logs this of the process of the path, after what was logged of that process before.
    pub(crate) fn add(&mut self, path: &Path, what: LogWhat) -> Result<(), NoMemory>
        ensures ok { OnOk result (self.new ≡ with_logs self.old path.now (what ∷ [])) }
        ensures err { OnErr result (self.new ≡ self.old) }
    {
        if let Some(logged) = self.kept.get_mut(path) {
            return logged.push(what);
        }
        let mut logged = List::new(self.alloc);
        logged.push(what)?;
        self.kept.insert(path.copy()?, logged)?;
        Ok(())
    }

    /// All that was logged, by path.
    pub(crate) fn list(&self, alloc: Global) -> Result<List<Log>, NoMemory>
        ensures { IfOk result (λ list. list ≡ all_logs (finite.entries self.now)) }
    {
        let mut list = List::new(alloc);
        for (path, logged) in self.kept.iter() {
            add_logs(path, logged.as_slice(), &mut list)?;
        }
        Ok(list)
    }
}

// Adds to the list what was logged of the process of this path.
fn add_logs(path: &Path, logged: &[LogWhat], list: &mut List<Log>) -> Result<(), NoMemory>
    ensures { OnOk result (list.new ≡ list.old ++ map (log_at path.now) logged.now) }
{
    for what in logged.iter() {
        list.push(Log {
            path: path.copy()?,
            what: *what,
        })?;
    }
    Ok(())
}

/// These logs by path. The logs of one path keep the order that they have among the given ones.
pub fn logs_by_path(alloc: Global, logs: &[Log]) -> Result<List<Log>, NoMemory>
    ensures { IfOk result (λ list. list ≡ all_logs (finite.entries (logged logs.now))) }
{
    let mut by_path = Logs::new(alloc);
    for log in logs.iter() {
        by_path.add(&log.path, log.what)?;
    }
    by_path.list(alloc)
}
