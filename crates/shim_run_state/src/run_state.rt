// A tree of processes kept as states and records.
ghost use Rattle.std.specs.Prelude.{◌≡◌, ◌≢◌, ◌↔◌, [], IfOk, IfSome};
ghost use Rattle.std.specs.Option.{option_copied};
ghost use Rattle.shim_semantics.specs.Trees as trees;
ghost use Rattle.shim_semantics.specs.Endings as endings;
ghost use Rattle.shim_semantics.specs.Sound.{SharesItsOwn};
ghost use Rattle.shim_run_state.specs.RunStates.{tree_in, RunStateInvariant};
ghost use Rattle.shim_run_state.specs.CheckingOut.{NoneCheckedOut};

use crate::process_lists::ProcessLists;
use shim_base::{Chan, NoMemory, Path};
use shim_local::{Local, Log};
use shim_process_table::{FoundProcesses, ProcessTable};
use shim_run_log::Histories;
use std::alloc::Global;
use std::marker::Model;
use std::snapshot::Snapshot;

/// How many steps of its own a process did that is gone, since the fork that made it has closed.
#[derive(Drop)]
pub(crate) struct PastSteps {
    pub(crate) path: Path,
    pub(crate) count: u64,
}

/// A tree of processes, as `shim_tree::Tree` is one, kept as states and records. What can happen next is
/// listed by the numbers of processes, and a process that is before a quiet step can be checked out: it then
/// does nothing until it is checked in. Contracts see the tree (`tree_in`) and who is checked out.
#[derive(Drop)]
pub struct RunState<L: Local> {
    pub(crate) begun: Snapshot<L>,
    pub(crate) table: ProcessTable<L>,
    pub(crate) output: Vec<u8>,
    pub(crate) histories: Histories,
    /// In the order of the events.
    pub(crate) logs: Vec<Log>,
    pub(crate) process_lists: ProcessLists,
    pub(crate) past: Vec<PastSteps>,
    pub(crate) events: u64,
    pub(crate) taken: u64,
    /// The numbers of processes that a rendezvous or a poison may concern. Their room is used again.
    pub(crate) sharers: FoundProcesses,
}

impl<L: Local> Model for RunState<L> {
    ghost use Rattle.shim_run_log.specs.Logged.{logged};
    ghost use Rattle.shim_run_state.specs.RunStates.{RunStateView, CountedInvariant};
    ghost use Rattle.shim_run_state.specs.Fields.{view_of};
    ghost use Rattle.shim_semantics.proofs.Codes.{histories_code, logs_code};
    ghost use Rattle.std.specs.Coded.{codes};

    ghost Value = { RunStateView L };

    ghost coded = { Prim.hlevel (codes, histories_code, logs_code) };

    ghost view = { λ t. view_of t.begun.value t.table t.output.items t.histories (logged t.logs.items) t.process_lists t.past.items t.events };

    ghost invariant = { λ t. CountedInvariant L.ops (view_of t.begun.value t.table t.output.items t.histories (logged t.logs.items) t.process_lists t.past.items t.events) t.taken };
}

impl<L: Local> RunState<L> {
    /// The tree of this one live process, to which nothing has happened. It has the path of a root, and
    /// shares channels of its own alone.
    pub fn start(alloc: Global, root: L) -> Result<RunState<L>, NoMemory>
        requires path { L.ops.path root ≡ [] }
        requires own { SharesItsOwn L.ops root }
        ensures tree { IfOk result (λ tree. tree_in L.ops tree ≡ trees.start root) }
        ensures checked_out { IfOk result (λ tree. NoneCheckedOut L.ops tree) }
    {
        let begun = Snapshot::of(&root);
        let table = ProcessTable::start(alloc, root)?;
        let process_lists = ProcessLists::first(alloc)?;
        Ok(RunState {
            begun,
            table,
            output: Vec::new(alloc),
            histories: Histories::new(alloc),
            logs: Vec::new(alloc),
            process_lists,
            past: Vec::new(alloc),
            events: 0,
            taken: 0,
            sharers: FoundProcesses::new(alloc),
        })
    }

    /// How many events led to the tree. Its clauses say, too, what its type keeps.
    pub fn steps(&self) -> u64
        ensures steps { result ≡ trees.steps (tree_in L.ops self.now) }
        ensures keeps { RunStateInvariant L.ops self.now }
    {
        self.taken
    }

    /// The values that the rendezvous on the channel gave, if it had one; it lends no empty list.
    pub fn history(&self, c: &Chan) -> Option<&[i64]>
        ensures values { option_copied result ≡ endings.history_at c.now.channel (tree_in L.ops self.now) }
        ensures none { (option_copied result ≡ None) ↔ (endings.values_on c.now.channel (tree_in L.ops self.now) ≡ []) }
        ensures some { IfSome (option_copied result) (λ values. values ≢ []) }
    {
        self.histories.get(c)
    }
}
