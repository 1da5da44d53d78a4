// A tree of processes.
ghost use Rattle.std.specs.Prelude.{◌≡◌, ◌≢◌, ◌<◌, ◌≤◌, ◌+◌, ◌^◌, ◌↔◌, ◌⊎◌, true, Some, None, IfOk, OnOk, OnErr, IfSome, IsTrue, map, []};
ghost use Rattle.std.specs.Option.{option_map, option_copied};
ghost use Rattle.shim_semantics.specs.Trees as trees;
ghost use Rattle.shim_semantics.specs.Trees.{after, steps, IsQuiescent, sum, count_own, count_event, change_nodes, poisons, met};
ghost use Rattle.shim_semantics.specs.Walks as walks;
ghost use Rattle.shim_semantics.specs.Endings as endings;
ghost use Rattle.shim_semantics.specs.Sound.{SharesItsOwn, IsSound};
ghost use Rattle.shim_semantics.specs.Listing.{AreEnabled};
ghost use Rattle.shim_laws_schedules.specs.ListedOnce.{StandOnce};
ghost use Rattle.shim_run_log.specs.Events.{event_of};
ghost use Rattle.shim_semantics.specs.Nodes.{source, value_of};
ghost use Rattle.shim_semantics.specs.Places.{led_to, has_path};
ghost use Rattle.shim_tree.specs.Acting.{acted_on};
ghost use Rattle.shim_semantics.specs.Quiets.{quiet_at, StandsQuiet, ComesBy, Advances};
ghost use Rattle.shim_semantics.specs.Nodes.{Live};
ghost use Rattle.shim_semantics.specs.Places.{StandsAt};
ghost use Rattle.shim_tree.specs.ByPath.{its_node};
ghost use Rattle.shim_tree.specs.Views.{node_view, viewed};
ghost use Rattle.shim_tree.specs.Stepping.{QuietStepsOn, DoesSome, DoesQuietSteps};
ghost use Rattle.shim_local.specs.declared.Outcome.TheVariants.{Spent};
ghost use Rattle.std.specs.FinMap as finite;

use crate::advance::swap_on;
use crate::by_path::{can_happen, found_by};
use crate::fill::behind;
use crate::in_place::go_quietly_at;
use crate::listing;
use crate::node_ref::{NodeRef, lend_process};
use crate::node_status::NodeStatus;
use crate::own_step::own_step;
use crate::poison::poison_on;
use crate::quiet::quiet_from;
use crate::reading::{outcome_of, waits_of};
use crate::receive::{name_met, receive_at, value_met};
use crate::seek::{found_first, is_quiescent};
use crate::standing::{live_of, stands_quiet};
use crate::view::ProcessView;
use shim_base::{Chan, List, NoMemory, Path};
use shim_local::{Ended, Local, Log, Quiet};
use shim_run_log::{Event, Histories, StepCounts, logs_by_path};
use std::alloc::Global;
use std::marker::Model;

/// A tree of processes: the root with those below it, the bytes that were put, the values that the
/// rendezvous on each channel gave, what was logged, how many steps of its own each process did, and how
/// many events were no process's own. Contracts see that, and its type keeps that the tree is sound.
#[derive(Drop)]
pub struct Tree<L: Local> {
    pub(crate) root: L,
    pub(crate) status: NodeStatus<L>,
    pub(crate) output: Vec<u8>,
    pub(crate) histories: Histories,
    /// In the order of the events.
    pub(crate) logs: Vec<Log>,
    pub(crate) counts: StepCounts,
    pub(crate) events: u64,
}

impl<L: Local> Model for Tree<L> {
    ghost use Rattle.shim_semantics.specs.Trees as trees;
    ghost use Rattle.shim_semantics.proofs.Codes.{tree_code};
    ghost use Rattle.shim_tree.specs.NodeStatus.{node};
    ghost use Rattle.shim_semantics.specs.Sound.{IsSound};
    ghost use Rattle.shim_tree.specs.Advancing.{AllHaveCounts};
    ghost use Rattle.shim_run_log.specs.Reserved.{stepped};
    ghost use Rattle.shim_run_log.specs.Logged.{logged};

    ghost Value = { trees.Tree L };

    ghost coded = { tree_code L.code };

    ghost view = { λ t. record { root = node t.root t.status; output = t.output.items; histories = t.histories; logs = logged t.logs.items; counts = stepped t.counts; events = t.events } };

    ghost invariant = { λ t. IsSound L.ops (node t.root t.status) × AllHaveCounts L.ops t.counts (node t.root t.status) };
}

impl<L: Local> Tree<L> {
    /// The tree of this one live process, to which nothing has happened.
    pub fn start(alloc: Global, root: L) -> Result<Tree<L>, NoMemory>
        requires own { SharesItsOwn L.ops root }
        ensures tree { IfOk result (λ tree. tree ≡ trees.start root) }
        ensures fresh { IfOk result (λ tree. steps tree ≡ 0) }
    {
        let mut counts = StepCounts::new(alloc);
        counts.reserve(root.path())?;
        Ok(Tree {
            root,
            status: NodeStatus::Live,
            output: Vec::new(alloc),
            histories: Histories::new(alloc),
            logs: Vec::new(alloc),
            counts,
            events: 0,
        })
    }

    /// All enabled events, each once, in the order of the walk from the root.
    pub fn enabled(&self) -> Result<List<Event>, NoMemory>
        ensures walk { IfOk result (λ events. map event_of events ≡ walks.walk L.ops self.now.root) }
        ensures exactly { IfOk result (λ events. AreEnabled L.ops self.now (map event_of events)) }
        ensures once { IfOk result (λ events. StandOnce (map event_of events)) }
    {
        listing::enabled(*self.output.allocator(), &self.root, &self.status)
    }

    /// The first enabled event in the order of the walk from the root. `None` exactly where no event is enabled.
    pub fn first(&self) -> Result<Option<Event>, NoMemory>
        ensures first { IfOk result (λ event. option_map event_of event ≡ walks.first_event L.ops self.now) }
        ensures none { IfOk result (λ event. (event ≡ None) ↔ IsQuiescent L.ops self.now) }
        ensures enabled { IfOk result (λ event. IfSome event (λ e. after L.ops (event_of e) self.now ≢ None)) }
    {
        match found_first(&self.root, &self.status) {
            None => Ok(None),
            Some(found) => {
                let event = found.to_event()?;
                Ok(Some(event))
            }
        }
    }

    /// An enabled event happens, and counts one step. Running out of memory leaves the tree as it was.
    pub fn do_event(&mut self, event: &Event) -> Result<(), NoMemory>
        requires enabled { after L.ops (event_of event.now) self.old ≢ None }
        requires few { steps self.old < 4000000 }
        ensures ok { OnOk result (after L.ops (event_of event.now) self.old ≡ Some self.new) }
        ensures counted { OnOk result (steps self.new ≡ steps self.old + 1) }
        ensures err { OnErr result (self.new ≡ self.old) }
    {
        self.happen(event)
    }

    /// Whether no event is enabled. It takes no memory. Its clauses say, too, that the tree is sound,
    /// which its type keeps.
    pub fn quiescent(&self) -> bool
        ensures rests { IsTrue result ↔ IsQuiescent L.ops self.now }
        ensures sound { IsSound L.ops self.now.root }
    {
        is_quiescent(&self.root, &self.status)
    }

    /// The live process that has this number, from 0, among those that stand before a quiet step, from
    /// the root with leftmost children first. It takes no memory.
    pub fn at_quiet(&self, at: usize) -> Option<&L>
        ensures { option_copied result ≡ quiet_at L.ops at self.now }
    {
        quiet_from(&self.root, &self.status, at)
    }

    /// Whether the process of this path lives and stands before a quiet step. It takes no memory.
    pub fn is_before_quiet(&self, path: &Path) -> bool
        ensures { IsTrue result ↔ StandsQuiet L.ops self.now path.now }
    {
        match live_of(&self.root, &self.status, path) {
            Some(process) => stands_quiet(process),
            None => false,
        }
    }

    /// So many quiet steps of one process happen at once; `last` is its state after them. With the steps so far they
    /// come to 4,000,000 at most. It takes no memory.
    pub fn advance(&mut self, last: L, steps: u64)
        requires comes { ComesBy L.ops self.old steps last }
        requires few { trees.steps self.old + steps ≤ 4000000 }
        ensures { Advances L.ops (L.ops.path last) steps self.old self.new }
    {
        let mut state = last;
        self.counts.add(state.path(), steps);
        swap_on(&mut self.root, &mut self.status, &mut state);
    }

    /// Does so many quiet steps of the process of this path, in place. `true` where there are none to do, or it lives
    /// and each of them is a quiet step of it; `false` where one isn't. With `false`, and where memory runs out, as
    /// many of them were done as could be, and nothing else.
    pub fn step_on(&mut self, path: &Path, steps: u64) -> Result<bool, NoMemory>
        requires few { trees.steps self.old + steps ≤ 4000000 }
        ensures done { IfOk result (λ done. QuietStepsOn L.ops path.now steps self.old self.new done) }
        ensures part { DoesSome L.ops path.now steps self.old self.new }
    {
        if steps == 0 {
            return Ok(true);
        }
        if live_of(&self.root, &self.status, path).is_none() {
            return Ok(false);
        }
        let quiet = self.go_quietly(path, steps);
        if quiet.taken == steps {
            return Ok(true);
        }
        if quiet.short {
            return Err(NoMemory);
        }
        Ok(false)
    }

    /// The root, with all that stand below it.
    pub fn root(&self) -> NodeRef<'_, L>
        ensures { result ≡ self.now.root }
    {
        lend_process(&self.root, &self.status)
    }

    /// What came of the process of this path; `None` exactly where no process has it. It takes no memory.
    pub fn view(&self, path: &Path) -> Option<ProcessView<'_, L>>
        ensures { option_map viewed result ≡ option_map (node_view L.ops) (its_node L.ops self.now.root path.now) }
    {
        let root = lend_process(&self.root, &self.status);
        match found_by(&root, path) {
            None => None,
            Some(node) => Some(node.view()),
        }
    }

    /// Whether the event is enabled, so that `do_event` may be called with it. It takes no memory.
    pub fn is_enabled(&self, event: &Event) -> bool
        ensures { IsTrue result ↔ (after L.ops (event_of event.now) self.now ≢ None) }
    {
        let root = lend_process(&self.root, &self.status);
        can_happen(&root, event)
    }

    /// The values that the rendezvous on the channel gave, if it had one; it lends no empty list. It takes
    /// no memory.
    pub fn history(&self, c: &Chan) -> Option<&[i64]>
        ensures values { option_copied result ≡ endings.history_at c.now.channel self.now }
        ensures none { (option_copied result ≡ None) ↔ (endings.values_on c.now.channel self.now ≡ []) }
        ensures some { IfSome (option_copied result) (λ values. values ≢ []) }
    {
        self.histories.get(c)
    }

    /// What is read off a tree in which nothing can happen, or in which the budget's steps were taken.
    pub fn ended(&self, budget: u64) -> Result<Ended, NoMemory>
        requires { ((steps self.now ≤ budget) × IsQuiescent L.ops self.now) ⊎ (steps self.now ≡ budget) }
        ensures ended { IfOk result (λ ended. ended ≡ endings.ended L.ops self.now) }
        ensures spent { IfOk result (λ ended. (ended.outcome ≡ Spent) ↔ (IsQuiescent L.ops self.now → ⊥)) }
    {
        self.ended_of(is_quiescent(&self.root, &self.status))
    }

    // What is read off a tree that is quiescent or not.
    fn ended_of(&self, quiescent: bool) -> Result<Ended, NoMemory>
        requires fits { steps self.now < 2 ^ 64 }
        requires quiescent { quiescent ≡ endings.is_empty (walks.walk L.ops self.now.root) }
        ensures { IfOk result (λ ended. ended ≡ endings.ended L.ops self.now) }
    {
        let alloc = *self.output.allocator();
        let outcome = outcome_of(&self.status, quiescent);
        Ok(Ended {
            output: List::from_slice(alloc, self.output.as_slice())?,
            histories: self.histories.list(alloc)?,
            logs: logs_by_path(alloc, self.logs.as_slice())?,
            waits: waits_of(alloc, &self.root, &self.status, outcome)?,
            own: self.counts.list(alloc)?,
            events: self.events,
            steps: self.counts.total() + self.events,
            outcome,
        })
    }

    // The event happens.
    fn happen(&mut self, event: &Event) -> Result<(), NoMemory>
        requires enabled { after L.ops (event_of event.now) self.old ≢ None }
        requires few { steps self.old < 4000000 }
        ensures ok { OnOk result (after L.ops (event_of event.now) self.old ≡ Some self.new) }
        ensures err { OnErr result (self.new ≡ self.old) }
    {
        match event {
            Event::Own(path) => self.step(path),
            Event::Meet(chan) => self.meet(chan),
            Event::Poison(path, chan) => self.poison(path, chan),
            Event::Close(path) | Event::End(path) => self.change(path),
        }
    }

    // Up to so many quiet steps of the process of this path, which lives, in place.
    fn go_quietly(&mut self, path: &Path, most: u64) -> Quiet
        requires lives { (first : L) × StandsAt L.ops self.old.root path.now (Live first) }
        requires few { trees.steps self.old + most ≤ 4000000 }
        ensures { DoesQuietSteps L.ops path.now most result self.old self.new }
    {
        let front = self.root.path().pairs().len();
        let quiet = go_quietly_at(
            &mut self.root,
            &mut self.status,
            behind(path.pairs(), front),
            most,
        );
        self.counts.add(path, quiet.taken);
        quiet
    }

    // The process of this path does a step of its own.
    fn step(&mut self, path: &Path) -> Result<(), NoMemory>
        requires acts { acted_on L.ops path.now self.old.root ≢ None }
        requires its { has_path L.ops path.now (led_to L.ops self.old.root path.now) ≡ true }
        requires few { sum (finite.values self.old.counts) < 4000000 }
        ensures ok { OnOk result (count_own path.now self.old (acted_on L.ops path.now self.old.root) ≡ Some self.new) }
        ensures err { OnErr result (self.new ≡ self.old) }
    {
        own_step(
            &mut self.root,
            &mut self.status,
            &mut self.output,
            &mut self.logs,
            &mut self.counts,
            path,
        )?;
        self.counts.add(path, 1);
        Ok(())
    }

    // The fork of the process of this path closes, or the process ends.
    fn change(&mut self, path: &Path) -> Result<(), NoMemory>
        requires acts { acted_on L.ops path.now self.old.root ≢ None }
        requires few { self.old.events < 4000000 }
        ensures ok { OnOk result (count_event path.now self.old (acted_on L.ops path.now self.old.root) ≡ Some self.new) }
        ensures err { OnErr result (self.new ≡ self.old) }
    {
        own_step(
            &mut self.root,
            &mut self.status,
            &mut self.output,
            &mut self.logs,
            &mut self.counts,
            path,
        )?;
        self.events += 1;
        Ok(())
    }

    // Each live process that waits at the channel receives the value of its source, which the history gets, too.
    fn meet(&mut self, chan: &Chan) -> Result<(), NoMemory>
        requires few { self.old.events < 4000000 }
        ensures ok { OnOk result (self.new ≡ met L.ops chan.now.channel (value_of L.ops chan.now.channel (source L.ops chan.now.channel self.old.root)) self.old) }
        ensures err { OnErr result (self.new ≡ self.old) }
    {
        let value = value_met(&self.root, &self.status, chan);
        let name = name_met(&self.root, &self.status, chan);
        self.histories.record(chan, name, value)?;
        receive_at(&mut self.root, &mut self.status, chan, value);
        self.events += 1;
        Ok(())
    }

    // The child of this path is poisoned on the channel.
    fn poison(&mut self, path: &Path, chan: &Chan) -> Result<(), NoMemory>
        requires enabled { poisons L.ops path.now chan.now.channel self.old.root ≢ None }
        requires few { self.old.events < 4000000 }
        ensures ok { OnOk result (change_nodes self.old (poisons L.ops path.now chan.now.channel self.old.root) ≡ Some self.new) }
        ensures err { OnErr result (self.new ≡ self.old) }
    {
        poison_on(&self.root, &mut self.status, path, chan)?;
        self.events += 1;
        Ok(())
    }
}
