// One process as a value.
ghost use Rattle.std.specs.Prelude.{◌≡◌, ◌≢◌, ◌<◌, ◌≤◌, ◌↔◌, ◌+◌, ◌^◌, IsTrue, true, false, [], length, map, ℤ, Some, IfOk, OnOk, OnErr, slice_get, slice_set, take};
ghost use Rattle.std.specs.Option.{option_copied};
ghost use Rattle.shim_local.specs.Process.{AtQuiet};
ghost use Rattle.shim_local.specs.Views.{stop_view};
ghost use Rattle.shim_units.specs.OfText.{IsAcceptedForm};
ghost use Rattle.shim_process.specs.Ends.{gone, settled};
ghost use Rattle.shim_process.specs.Forks.{all_back, all_lending, new_child, fork, input_back, is_far, item_branches, join, joined, lending, lending_given, output_back, root, some_or};
ghost use Rattle.shim_process.specs.Arguments.{arguments};
ghost use Rattle.shim_process.specs.LocalState.{handlers, is_deep, is_full, number_of, trapped, unit_at};
ghost use Rattle.shim_process.specs.Locations.{at_number, with_back};
ghost use Rattle.shim_process.specs.StatementViews.{passed_labels, statement_view};
ghost use Rattle.shim_process.specs.Steps.{installing, called, done, half, line_of, made_in, next_action, pushed, quiet, read_in, stored_in, variable_in};
ghost use Rattle.shim_process.specs.Stops.{byte, put, put_value, receive, stop, throw_evaluated, thrown_number, thrown_value};
ghost use Rattle.shim_process.specs.Sharers.{carries, given_at, shares, channel_value};
ghost use Rattle.shim_process.specs.Todo.{next_stmt};
ghost use Rattle.shim_process.specs.Unwinding.{catching, handler, unwind};
ghost use Rattle.shim_walk.specs.Receivers.{received};
ghost use Rattle.shim_walk.specs.States.{trapped_at_of};
ghost use Rattle.shim_walk.specs.ChildrenMade.{MakesChildren, children_made};
ghost use Rattle.shim_locations.specs.Given.{arguments_of};
ghost use Rattle.shim_walk.specs.Actions.{action_of};
ghost use Rattle.shim_locations.specs.ArgumentFaults.{Gives};
ghost use Rattle.shim_locations.specs.Lendings.{remainder_of};
ghost use Rattle.shim_walk.specs.ForkResults.{IsForkResult};
ghost use Rattle.shim_walk.specs.StatementContexts.{context_view};
ghost use Rattle.shim_walk_frames.specs.Turns.{successor_of};
ghost use Rattle.shim_walk.specs.Returning.{HasExitedFrame, resting};

use crate::action::Action;
use crate::count::one_more;
use crate::depth::{go_on, keep, settle, unwind_to};
use crate::entry::{EnteredUnit, make_entry};
use crate::has_process::HasProcess;
use crate::initial_frame::{branches_of, first_frame, labels_from};
use crate::input::{next_byte, read_on};
use crate::labels::labels_for;
use crate::next_action::{StatementContext, next_action};
use crate::put::{low_bits, stmt_put};
use crate::receiver::{Receiver, receiver_at};
use crate::same_frames::{same_call_stack, same_frame};
use crate::same_locations::same_locations;
use crate::same_runs::same_runs;
use crate::same_stands::{same_input, same_trap};
use crate::stop::{at_trap, stop_at};
use crate::throw_number::stmt_thrown;
use crate::trapped_at::TrappedAt;
use shim_base::{Chan, List, NoMemory, Path, Shared, Trap, Ty};
use shim_local::Stop;
use shim_locations::argument::Argument;
use shim_locations::argument_fault::ArgumentFault;
use shim_locations::arguments::arguments;
use shim_locations::location::Location;
use shim_locations::locations::{Locations, location_at, number_of};
use shim_locations::passing::{branch_locations, channels_of, copy_channels, fresh, with_empties};
use shim_locations::remainder::{Remainder, lend, lend_given};
use shim_locations::serial_runs::SerialRuns;
use shim_locations::sharers::{declared, is_among, own_of};
use shim_locations::streams::{input_for, output_for, takes_output};
use shim_process::HandlerVariable;
use shim_units::{Accepted, UBranch, UStmt};
use shim_units_equality::{Same, same_all, same_program};
use shim_walk_frames::call_stack::{CallStack, handler_in, variables_in};
use shim_walk_frames::frame::Frame;
use shim_walk_frames::handler::name_and_line;
use shim_walk_frames::successors::Successor;
use shim_walk_frames::text::{declared_of, line_of, params_of, slot_name, slots_of, stmt_in};
use std::alloc::Global;
use std::marker::Model;
use std::mem::replace;
use std::sync::Arc;

/// What a fork comes to.
#[derive(Drop)]
pub enum ForkedProcess {
    /// The children, in the order of the branches, and what they leave of the process.
    Children(List<Process>, Remainder),
    /// An argument traps, or a limit is passed.
    Trapped(Trap),
}

/// A process in the units of a program. `Walk` steps it over their syntax, and so may another kind by other
/// means.
#[derive(Drop)]
pub struct Process {
    path: Arc<Path>,
    base: u32,
    made: u32,
    forks: u32,
    untaken: SerialRuns,
    given: List<Chan>,
    top: Frame,
    callers: CallStack,
    locations: Locations,
    input_at: Option<usize>,
    holds_output: bool,
    trap: Option<TrappedAt>,
    program: Shared<Accepted>,
    input: Shared<List<u8>>,
}

impl Model for Process {
    ghost use Rattle.std.specs.Prelude.{◌<◌, ◌≤◌, ◌^◌, ◌∷◌};
    ghost use Rattle.std.specs.Arc.{arc_value};
    ghost use Rattle.std.specs.Coded.{codes};
    ghost use Rattle.shim_process.specs.LocalState.{LocalState};
    ghost use Rattle.shim_units.specs.contracts.unit.Unit as unit;
    ghost use Rattle.shim_units.specs.contracts.unit.UWhat as what;

    ghost Value = { LocalState };

    ghost coded = { Prim.hlevel (codes, unit.the_row.coded, what.the_row.coded) };

    ghost use Rattle.shim_walk.specs.States.{state_of};
    ghost use Rattle.shim_walk_frames.specs.Depths.{AllFit};
    ghost use Rattle.shim_walk_frames.specs.Cursors.{AllHaveOwnCursors};
    ghost use Rattle.shim_walk_frames.specs.Variables.{variables_in};
    ghost use Rattle.shim_locations.specs.Runs.{AreBelow};

    ghost view = { λ p. state_of (arc_value p.path) p.base p.made p.forks p.untaken.runs p.given p.top p.callers p.locations p.input_at p.holds_output p.trap p.program p.input };

    ghost invariant = { λ p. (p.base < 2 ^ 31) × AllFit p.program.units × AllHaveOwnCursors p.program.units (p.top ∷ p.callers) × (variables_in (p.top ∷ p.callers) ≤ p.untaken.room) × AreBelow p.made p.untaken.runs };
}

impl Process {
    /// The process that runs `main`.
    #[tactic(auto, using(shim_walk_frames::proofs::Fitting::all_fit))]
    pub fn main(
        alloc: Global,
        program: Shared<Accepted>,
        input: Shared<List<u8>>,
    ) -> Result<Process, NoMemory>
        ensures value { IfOk result (λ process. process ≡ root program input) }
        ensures accepted { IfOk result (λ process. IsAcceptedForm process.program) }
    {
        let units = program.units();
        let unit = program.main();
        let names = program.main_throws();
        let base = names.len() as u32 + 1;
        let labels = labels_from(alloc, 1, names)?;
        let top = first_frame(alloc, units, unit, labels)?;
        let locations = with_empties(List::new(alloc), slots_of(units, unit))?;
        let input_at = input_for(params_of(units, unit), Some(0));
        let holds_output = takes_output(params_of(units, unit));
        Ok(Process {
            path: Arc::new(alloc, Path::root(alloc))?,
            base,
            made: 0,
            forks: 0,
            untaken: SerialRuns::new(alloc),
            given: List::new(alloc),
            top,
            callers: CallStack::new(alloc),
            locations: Locations::from_list(locations),
            input_at,
            holds_output,
            trap: None,
            program,
            input,
        })
    }

    /// How many exception places are in force, with those around the process.
    pub fn handlers(&self) -> u32
        ensures { result ≡ handlers self.now }
    {
        self.base + self.top.handlers()
    }

    /// It can make no more channels and do no more forks.
    pub fn is_full(&self) -> bool
        ensures { result ≡ is_full self.now }
    {
        self.made >= 4_000_000_000 || self.forks >= 4_000_000_000
    }

    /// No more calls can be in force.
    pub fn is_deep(&self) -> bool
        ensures { result ≡ is_deep self.now }
    {
        self.callers.len() >= 200
    }

    /// What the statement at which it stands sees.
    pub fn context(&self) -> StatementContext<'_>
        ensures value { context_view result ≡ statement_view self.now }
        ensures bound { result.first + length result.places.now < 2 ^ 32 }
    {
        StatementContext {
            locations: self.locations.as_slice(),
            slots: self.top.slots(),
            labels: self.top.labels(),
            places: self.top.places(),
            first: self.base + self.top.outer(),
            units: self.program.units(),
            unit: self.top.unit(),
            halfway: self.top.halfway(),
            full: self.is_full(),
            deep: self.is_deep(),
            holds_output: self.holds_output,
        }
    }

    // The statement at which it stands.
    fn stmt(&self) -> Option<&UStmt>
        ensures { option_copied result ≡ next_stmt self.now.frame.todo }
    {
        stmt_in(self.program.units(), &self.top)
    }

    // What the statement at which it stands asks for.
    fn action(&self) -> Result<Action, NoMemory>
        ensures { IfOk result (λ d. action_of d ≡ next_action self.now) }
    {
        next_action(self.given.allocator(), self.stmt(), &self.context())
    }

    // The line of the statement at which it stands.
    fn line(&self) -> u32
        ensures { result ≡ line_of self.now.frame.todo }
    {
        line_of(self.stmt())
    }

    /// The unit that it is in.
    pub fn unit(&self) -> u32
        ensures { result ≡ self.now.frame.unit }
    {
        self.top.unit()
    }

    /// The numbers of the locations of the innermost unit's variables.
    pub fn slots(&self) -> &[usize]
        ensures { result.now ≡ self.now.frame.slots }
    {
        self.top.slots()
    }

    /// How many exception places of the process were in force when the innermost unit was entered.
    pub fn outer(&self) -> u32
        ensures { result ≡ self.now.frame.outer }
    {
        self.top.outer()
    }

    /// How many exception places of the innermost unit are in force.
    pub fn places(&self) -> usize
        ensures { result ≡ length self.now.frame.places }
    {
        self.top.places().len()
    }

    /// Puts the process at the statement of this number in its innermost unit, or at its second part, with `kept` of
    /// the unit's outermost exception places.
    pub fn rest(&mut self, number: u32, halfway: bool, kept: usize)
        ensures { self.new ≡ resting number halfway kept self.old }
    {
        self.top.rest(number, halfway, kept);
    }

    /// The innermost unit is left, with its locations, and its caller is at its call. False where
    /// there is no caller; then nothing changes.
    pub fn exit_frame(&mut self) -> bool
        ensures left { result ≡ true → HasExitedFrame self.old self.new }
        ensures last { result ≡ false → (self.old.callers ≡ []) × (self.new ≡ self.old) }
    {
        let Some(caller) = self.callers.pop() else {
            return false;
        };
        self.locations.truncate(self.top.floor());
        self.top = caller;
        true
    }

    /// The value is stored in the slot's location.
    pub fn store(&mut self, slot: u32, value: i64)
        ensures { self.new ≡ stored_in slot value self.old }
    {
        let number = number_of(self.top.slots(), slot);
        self.locations.store(number, value);
    }

    // The second part of the statement comes next.
    fn halve(&mut self)
        ensures { self.new ≡ record self.old { frame = half self.old.frame } }
    {
        self.top.halve();
    }

    /// It stands trapped from now on, at the statement at which it stands.
    pub fn trap(&mut self, kind: Trap)
        ensures { self.new ≡ trapped kind (line_of self.old.frame.todo) self.old }
    {
        let line = self.line();
        self.trap_at(kind, line);
    }

    /// It stands trapped from now on, at a statement of this line.
    pub fn trap_at(&mut self, kind: Trap, line: u32)
        ensures { self.new ≡ trapped kind line self.old }
    {
        self.trap = Some(TrappedAt { kind, line });
    }

    /// The next byte of the input is stored in the slot's location.
    pub fn read(&mut self, slot: u32)
        ensures { self.new ≡ read_in slot self.old }
    {
        let value = next_byte(self.input_at, self.input.as_slice());
        let number = number_of(self.top.slots(), slot);
        self.locations.store(number, value);
        self.input_at = read_on(self.input_at, self.input.as_slice());
    }

    /// The slot gets a new location, on a new channel, in which this value is stored. A refusal changes nothing.
    #[tactic(auto, unfolding(shim_process::specs::LocalState::unit_at))]
    pub fn make(&mut self, ty: Ty, slot: u32, value: i64) -> Result<(), NoMemory>
        ensures ok { OnOk result (self.new ≡ made_in ty slot value self.old) }
        ensures err { OnErr result (self.new ≡ self.old) }
    {
        let name = slot_name(self.program.units(), self.top.unit(), slot);
        let location = fresh(&self.path, self.made, name, ty, value)?;
        let made = one_more(self.made)?;
        let number = number_of(self.top.slots(), slot);
        self.locations.put(number, location);
        self.made = made;
        Ok(())
    }

    // The variable of a handler in this slot, on the channel that the process would make next.
    #[tactic(auto, unfolding(shim_process::specs::LocalState::unit_at))]
    fn variable_in(&self, slot: u32) -> Result<HandlerVariable, NoMemory>
        ensures { IfOk result (λ variable. variable ≡ variable_in slot self.now) }
    {
        let name = slot_name(self.program.units(), self.top.unit(), slot);
        let channel = Chan::new(Arc::try_clone(&self.path)?, self.made, name);
        Ok(HandlerVariable { slot, channel })
    }

    // The exception comes into force, and the variable of its handler, in this slot, gets a new channel. A
    // refusal changes nothing.
    fn install_variable(
        &mut self,
        exception: u32,
        name: u32,
        line: u32,
        slot: u32,
    ) -> Result<(), NoMemory>
        requires { line ≡ line_of self.old.frame.todo }
        ensures ok { OnOk result (self.new ≡ installing exception name (Some slot) self.old) }
        ensures err { OnErr result (self.new ≡ self.old) }
    {
        let serial = self.made;
        let made = one_more(serial)?;
        let many = variables_in(&self.top, &self.callers)?;
        let room = many.checked_add(2).ok_or(NoMemory)?;
        let variable = self.variable_in(slot)?;
        self.untaken.reserve(room)?;
        self.top.install(exception, name, line, Some(variable))?;
        self.untaken.add(serial);
        self.made = made;
        Ok(())
    }

    /// The exception comes into force, by this name, at the line of the statement, with the variable of its
    /// handler in this slot, where it has one. A refusal changes nothing.
    pub fn install(
        &mut self,
        exception: u32,
        name: u32,
        line: u32,
        slot: Option<u32>,
    ) -> Result<(), NoMemory>
        requires { line ≡ line_of self.old.frame.todo }
        ensures ok { OnOk result (self.new ≡ installing exception name slot self.old) }
        ensures err { OnErr result (self.new ≡ self.old) }
    {
        match slot {
            None => self.top.install(exception, name, line, None),
            Some(slot) => self.install_variable(exception, name, line, slot),
        }
    }

    /// The frame of the unit is the innermost from now on. A refusal changes nothing.
    pub fn push_frame(
        &mut self,
        unit: u32,
        given: &[Argument],
        labels: List<u32>,
    ) -> Result<(), NoMemory>
        ensures ok { OnOk result (self.new ≡ pushed unit (arguments_of given.now) labels self.old) }
        ensures err { OnErr result (self.new ≡ self.old) }
    {
        let first = self.locations.len();
        let entered = make_entry(
            self.given.allocator(),
            self.program.units(),
            unit,
            &self.path,
            self.locations.as_slice(),
            self.made,
            self.top.handlers(),
            given,
            labels,
        )?;
        let EnteredUnit {
            top,
            locations,
            made,
        } = entered;
        self.locations.append(locations)?;
        let caller = replace(&mut self.top, top);
        match self.callers.push(caller) {
            Ok(()) => {
                self.made = made;
                Ok(())
            }
            Err(failed) => {
                self.top = failed.value;
                self.locations.truncate(first);
                Err(NoMemory)
            }
        }
    }

    // Goes past the ends of called units.
    fn settle(&mut self)
        ensures { self.new ≡ settled self.old.callers self.old.frame self.old }
    {
        settle(
            self.program.units(),
            &mut self.top,
            &mut self.callers,
            &mut self.locations,
        );
    }

    // The unit is called with these arguments. A refusal changes nothing.
    #[tactic(auto, using(crate::proofs::Entering::called_by))]
    fn enter(&mut self, unit: u32, given: &[Argument], labels: List<u32>) -> Result<(), NoMemory>
        ensures ok { OnOk result (self.new ≡ called unit (arguments_of given.now) labels self.old) }
        ensures err { OnErr result (self.new ≡ self.old) }
    {
        self.push_frame(unit, given, labels)?;
        self.settle();
        Ok(())
    }

    // What the statement asked for is done. A refusal changes nothing.
    fn act(&mut self, action: Action) -> Result<(), NoMemory>
        ensures ok { OnOk result (self.new ≡ done (action_of action) self.old) }
        ensures err { OnErr result (self.new ≡ self.old) }
    {
        match action {
            Action::Go(successor) => self.go(successor),
            Action::Store(slot, value) => {
                self.store(slot, value);
                self.go(Successor::On);
            }
            Action::StoreFirst(slot, value) => {
                self.store(slot, value);
                self.halve();
            }
            Action::Make(ty, slot, value) => {
                self.make(ty, slot, value)?;
                self.go(Successor::On);
            }
            Action::Read(slot) => {
                self.read(slot);
                self.go(Successor::On);
            }
            Action::Enter(unit, given, labels) => self.enter(unit, given.as_slice(), labels)?,
            Action::Install(exception, name, slot) => {
                self.install(exception, name, self.line(), slot)?;
                self.go(Successor::First);
            }
            Action::Trapped(trap) => self.trap(trap),
            Action::Wait => {}
        }
        Ok(())
    }

    /// One quiet step. A refusal changes nothing.
    #[tactic(auto, unfolding(shim_process::specs::Steps::quiet))]
    pub fn step(&mut self) -> Result<(), NoMemory>
        ensures ok { OnOk result (self.new ≡ quiet self.old) }
        ensures err { OnErr result (self.new ≡ self.old) }
    {
        let action = self.action()?;
        self.act(action)
    }

    /// Why it stands trapped, where it does.
    pub fn trapped_at(&self) -> Option<TrappedAt>
        ensures { trapped_at_of result ≡ self.now.trap }
    {
        self.trap
    }

    /// At what it stands.
    pub fn stop(&self) -> Stop<'_>
        ensures { stop_view result ≡ stop self.now }
    {
        match self.trap {
            Some(trap) => at_trap(trap),
            None => stop_at(self.stmt(), &self.context()),
        }
    }

    /// The number that the `put` at which it stands puts, or the trap.
    pub fn put_value(&self) -> Result<i64, Trap>
        ensures { result ≡ put_value self.now }
    {
        stmt_put(self.stmt(), &self.context())
    }

    /// The byte of the `put` at which it stands, which is then done. Where the expression traps, there is
    /// none, and the process stands trapped.
    #[tactic(auto, unfolding(shim_process::specs::Stops::put, shim_process::specs::Stops::byte))]
    pub fn put(&mut self) -> Option<u8>
        ensures byte { result ≡ byte self.old }
        ensures after { self.new ≡ put self.old }
    {
        match self.put_value() {
            Ok(value) => {
                self.go(Successor::On);
                Some(low_bits(value))
            }
            Err(trap) => {
                self.trap(trap);
                None
            }
        }
    }

    /// The number of the throw at which it stands, or the trap.
    pub fn thrown_value(&self) -> Result<i64, Trap>
        ensures { result ≡ thrown_value self.now }
    {
        stmt_thrown(self.stmt(), &self.context())
    }

    /// The number of the throw at which it stands; it stays at the throw. Where the expression traps, there is no
    /// number, and the process stands trapped.
    #[tactic(auto, unfolding(shim_process::specs::Stops::throw_evaluated, shim_process::specs::Stops::thrown_number))]
    pub fn thrown(&mut self) -> Option<i64>
        ensures number { result ≡ thrown_number self.old }
        ensures after { self.new ≡ throw_evaluated self.old }
    {
        match self.thrown_value() {
            Ok(value) => Some(value),
            Err(trap) => {
                self.trap(trap);
                None
            }
        }
    }

    // Where the value of the rendezvous at which it stands goes.
    fn receiver(&self) -> Receiver
        ensures { (v : ℤ) → received result v self.now ≡ receive self.now v }
    {
        receiver_at(self.stmt())
    }

    /// The rendezvous at which it waits gave this value. It is stored, and the process goes on, or to the second part
    /// of its statement. Where the statement has no rendezvous nothing changes.
    pub fn receive(&mut self, v: i64)
        ensures { self.new ≡ receive self.old v }
    {
        match self.receiver() {
            Receiver::Whole(slot) => {
                self.store(slot, v);
                self.go(Successor::On);
            }
            Receiver::First(slot) => {
                self.store(slot, v);
                self.halve();
            }
            Receiver::Nothing => {}
        }
    }

    /// A channel that an argument of the process's first unit gave it, by its place among those.
    pub fn given(&self, at: usize) -> Option<&Chan>
        ensures { option_copied result ≡ given_at self.now at }
    {
        self.given.get(at)
    }

    /// Whether it has the output.
    pub fn holds_output(&self) -> bool
        ensures { result ≡ self.now.holds_output }
    {
        self.holds_output
    }

    /// Where it stands in the tree of processes.
    pub fn path(&self) -> &Path
        ensures { result.now ≡ self.now.path }
    {
        &self.path
    }

    /// How many exception places are in force around it.
    pub fn base(&self) -> u32
        ensures { result ≡ self.now.base }
    {
        self.base
    }

    /// Whether an argument gave it the channel, or it declared it.
    #[tactic(auto, unfolding(shim_process::specs::Sharers::shares))]
    pub fn shares(&self, c: &Chan) -> bool
        ensures { result ≡ shares self.now c.now.channel }
    {
        is_among(self.given.as_slice(), c) || declared(&self.path, self.made, &self.untaken, c)
    }

    /// Whether one of its locations is the channel's own variable.
    #[tactic(auto, unfolding(shim_process::specs::Sharers::carries))]
    pub fn carries(&self, c: &Chan) -> bool
        ensures { result ≡ carries self.now c.now.channel }
    {
        own_of(self.locations.as_slice(), c).is_some()
    }

    /// The value of the channel's own variable, where the process carries the channel, and else 0.
    #[tactic(auto, unfolding(shim_process::specs::Sharers::channel_value))]
    pub fn value(&self, c: &Chan) -> i64
        ensures { result ≡ channel_value self.now c.now.channel }
    {
        match own_of(self.locations.as_slice(), c) {
            None => 0,
            Some(location) => location.value(),
        }
    }

    /// At the handler of the exception of this label, which is one of its own in force, and which is given
    /// the number.
    pub fn unwind(&mut self, label: u32, value: i64)
        ensures { self.new ≡ unwind self.old label value }
    {
        let place = label.saturating_sub(self.base);
        let taken = unwind_to(
            self.program.units(),
            &mut self.top,
            &mut self.callers,
            &mut self.locations,
            place,
            value,
        );
        self.untaken.take_some(taken);
    }

    /// The number is kept in the variable of the handler of this exception place of the innermost unit,
    /// where it has one. The place goes out of force, with those inside it.
    pub fn catch(&mut self, index: usize, value: i64)
        ensures { self.new ≡ record (catching (slice_get self.old.frame.places index) value self.old.frame self.old) { frame = record self.old.frame { places = take index self.old.frame.places } } }
    {
        let variable = self.top.catch(index);
        let taken = keep(&mut self.locations, self.top.slots(), variable, value);
        self.untaken.take_some(taken);
    }

    /// Whether it is at a statement that concerns it alone.
    pub fn is_quiet(&self) -> bool
        ensures { IsTrue result ↔ (stop self.now ≡ AtQuiet) }
    {
        match self.stop() {
            Stop::Quiet => true,
            _ => false,
        }
    }

    /// The name and the line of the `try` of this label, which is one of its own in force.
    pub fn handler(&self, label: u32) -> (u32, u32)
        ensures { result ≡ handler self.now label }
    {
        let place = label.saturating_sub(self.base);
        name_and_line(handler_in(&self.top, self.callers.as_slice(), place))
    }

    // The branches of the fork at which it stands.
    fn branches(&self) -> &[UBranch]
        ensures { result.now ≡ item_branches self.now.frame.todo }
    {
        branches_of(self.stmt())
    }

    /// At least 64 forks lead from the root to the process.
    pub fn is_far(&self) -> bool
        ensures { result ≡ is_far self.now }
    {
        self.path.pairs().len() >= 64
    }

    /// All of its locations and streams.
    pub fn whole(&self) -> Remainder
        ensures { remainder_of self.now result ≡ self.now }
    {
        Remainder {
            taken: List::new(self.given.allocator()),
            input_at: self.input_at,
            holds_output: self.holds_output,
        }
    }

    /// The child of this place in a fork, at the first statement of the unit, with these arguments. `remainder` is
    /// what the branches before have left of the process. The unit's exceptions have the labels that the exceptions
    /// `throws` have in the innermost unit.
    pub fn child(
        &self,
        remainder: &Remainder,
        place: u32,
        unit: u32,
        throws: &[u32],
        given: &[Argument],
    ) -> Result<Process, NoMemory>
        ensures { IfOk result (λ process. process ≡ new_child (remainder_of self.now remainder.now) place unit (passed_labels (statement_view self.now) throws.now) (arguments_of given.now)) }
    {
        let alloc = self.given.allocator();
        let units = self.program.units();
        let base = self.handlers();
        if base >= 2_147_483_648 {
            return Err(NoMemory);
        }
        let program = self.program.share()?;
        let input = self.input.share()?;
        let path = Arc::new(alloc, self.path.child(self.forks, place)?)?;
        let declared = declared_of(units, unit);
        let passed = branch_locations(
            alloc,
            &path,
            self.locations.as_slice(),
            remainder.taken.as_slice(),
            given,
            declared.len(),
        )?;
        let made = passed.made;
        let given = channels_of(alloc, passed.locations.as_slice())?;
        let locations = with_empties(passed.locations, declared)?;
        let labels = labels_for(alloc, &self.context(), throws)?;
        let top = first_frame(alloc, units, unit, labels)?;
        Ok(Process {
            path,
            base,
            made,
            forks: 0,
            untaken: SerialRuns::new(alloc),
            given,
            top,
            callers: CallStack::new(alloc),
            locations: Locations::from_list(locations),
            input_at: input_for(params_of(units, unit), remainder.input_at),
            holds_output: output_for(params_of(units, unit), remainder.holds_output),
            trap: None,
            program,
            input,
        })
    }

    // The arguments of a branch.
    fn branch_arguments(&self, branch: &UBranch) -> Result<List<Argument>, ArgumentFault>
        ensures { Gives result (arguments self.now.locations self.now.frame.slots (unit_at self.now.program branch.now.call.unit).params branch.now.call.args) }
    {
        let params = params_of(self.program.units(), branch.call.unit);
        arguments(
            self.given.allocator(),
            self.locations.as_slice(),
            self.top.slots(),
            params,
            branch.call.args.as_slice(),
        )
    }

    // A branch takes its arguments of what is left, and the streams that its unit takes.
    fn lend_branch(&self, remainder: &mut Remainder, branch: &UBranch) -> Result<(), NoMemory>
        ensures { OnOk result (remainder_of self.now remainder.new ≡ lending (remainder_of self.now remainder.old) branch.now) }
    {
        let params = params_of(self.program.units(), branch.call.unit);
        lend(
            remainder,
            self.top.slots(),
            params,
            branch.call.args.as_slice(),
        )
    }

    /// A branch to this unit takes these arguments of what is left, and the streams that the unit takes. A
    /// refusal changes nothing.
    pub fn lend_given(
        &self,
        remainder: &mut Remainder,
        unit: u32,
        given: &[Argument],
    ) -> Result<(), NoMemory>
        ensures ok { OnOk result (remainder_of self.now remainder.new ≡ lending_given (remainder_of self.now remainder.old) unit (arguments_of given.now)) }
        ensures err { OnErr result (remainder.new ≡ remainder.old) }
    {
        let params = params_of(self.program.units(), unit);
        lend_given(remainder, params, given)
    }

    // The children of these branches, from the left, each of what those before it have left; the first
    // trap of an argument stands.
    fn children(
        &self,
        remainder: &mut Remainder,
        branches: &[UBranch],
    ) -> Result<List<Process>, ArgumentFault>
        ensures children { MakesChildren result (children_made self.now (remainder_of self.now remainder.old) 0 branches.now) }
        ensures remainder { OnOk result (remainder_of self.now remainder.new ≡ all_lending (remainder_of self.now remainder.old) branches.now) }
    {
        let mut children = List::with_capacity(self.given.allocator(), branches.len())?;
        let mut place = 0;
        for branch in branches {
            let given = self.branch_arguments(branch)?;
            let call = &branch.call;
            let throws = call.throws.as_slice();
            let child = self.child(remainder, place, call.unit, throws, given.as_slice())?;
            children.push(child)?;
            self.lend_branch(remainder, branch)?;
            place = one_more(place)?;
        }
        Ok(children)
    }

    /// It has no more than this left, and one fork more is done. A refusal changes nothing.
    pub fn lend(&mut self, remainder: &Remainder) -> Result<(), NoMemory>
        ensures ok { OnOk result (self.new ≡ record (remainder_of self.old remainder.now) { forks = self.old.forks + 1 }) }
        ensures err { OnErr result (self.new ≡ self.old) }
    {
        let forks = one_more(self.forks)?;
        self.locations.lend_all(remainder.taken.as_slice());
        self.input_at = remainder.input_at;
        self.holds_output = remainder.holds_output;
        self.forks = forks;
        Ok(())
    }

    /// What the fork at which it stands comes to. The process stays as it is.
    #[tactic(auto, using(crate::proofs::Forking::traps, crate::proofs::Forking::too_deep, crate::proofs::Forking::forked))]
    pub fn forked(&self) -> Result<ForkedProcess, NoMemory>
        ensures { IfOk result (λ forked. IsForkResult forked self.now) }
    {
        let mut remainder = self.whole();
        let children = match self.children(&mut remainder, self.branches()) {
            Ok(children) => children,
            Err(ArgumentFault::Trapped(trap)) => return Ok(ForkedProcess::Trapped(trap)),
            Err(ArgumentFault::NoMemory) => return Err(NoMemory),
        };
        if self.is_far() || self.is_full() {
            return Ok(ForkedProcess::Trapped(Trap::Depth));
        }
        Ok(ForkedProcess::Children(children, remainder))
    }

    /// Its locations.
    pub fn locations(&self) -> &[Option<Location>]
        ensures { result.now ≡ self.now.locations }
    {
        self.locations.as_slice()
    }

    // How many bytes of the input were read, where it has that.
    fn input_at(&self) -> Option<usize>
        ensures { result ≡ self.now.input_at }
    {
        self.input_at
    }

    /// The value of the child's location of this number comes back into the slot's location, which the child took by
    /// reference. The ownership comes back, too, where it was lent. Where one of the two locations isn't there
    /// nothing changes.
    pub fn restore_from(&mut self, slot: u32, child: &Process, number: usize)
        ensures { self.new ≡ record self.old { locations = slice_set self.old.locations (number_of self.old.frame.slots slot) (with_back (at_number child.now.locations number) (at_number self.old.locations (number_of self.old.frame.slots slot))) } }
    {
        let back = location_at(child.locations(), number);
        let number = number_of(self.top.slots(), slot);
        self.locations.restore(number, back);
    }

    /// The streams come back from the children that have them.
    pub fn regain_streams<P: HasProcess>(&mut self, children: &[P])
        ensures { self.new ≡ record self.old { input_at = input_back (map P.state children.now) self.old.input_at; holds_output = output_back (map P.state children.now) self.old.holds_output } }
    {
        self.input_at = input_back(children, self.input_at);
        self.holds_output = output_back(children, self.holds_output);
    }

    // What the children of its last fork, given in order, took comes back.
    fn restore<P: HasProcess>(&mut self, children: &[P])
        ensures { self.new ≡ joined self.old (map P.state children.now) }
    {
        let branches = branches_of(stmt_in(self.program.units(), &self.top));
        regain_all(&mut self.locations, self.top.slots(), branches, children);
        self.input_at = input_back(children, self.input_at);
        self.holds_output = output_back(children, self.holds_output);
    }

    /// Takes back the values of the children of its last fork, given in order. It then stands after
    /// the fork, where `goes_on`, and else still at it.
    #[tactic(auto, unfolding(shim_process::specs::Forks::join))]
    pub fn join<P: HasProcess>(&mut self, children: &[P], goes_on: bool)
        ensures { self.new ≡ join self.old (map P.state children.now) goes_on }
    {
        self.restore(children);
        if goes_on {
            self.go(Successor::On);
        }
    }

    /// Another process of the same state.
    pub fn copy(&self) -> Result<Process, NoMemory>
        ensures { IfOk result (λ copy. copy ≡ self.now) }
    {
        let alloc = self.given.allocator();
        let program = self.program.share()?;
        let input = self.input.share()?;
        let path = Arc::try_clone(&self.path)?;
        let given = copy_channels(alloc, self.given.as_slice())?;
        let locations = self.locations.copy(alloc)?;
        let callers = self.callers.copy(alloc)?;
        let top = self.top.copy()?;
        Ok(Process {
            path,
            base: self.base,
            made: self.made,
            forks: self.forks,
            untaken: self.untaken.copy(alloc)?,
            given,
            top,
            callers,
            locations,
            input_at: self.input_at,
            holds_output: self.holds_output,
            trap: self.trap,
            program,
            input,
        })
    }

    // Whether both have the same path, base, given channels and untaken serial numbers, made as many channels and did
    // as many forks.
    fn same_origin(&self, other: &Process) -> bool
        ensures { IsTrue result ↔ ((self.now.path ≡ other.now.path) × (self.now.base ≡ other.now.base) × (self.now.made ≡ other.now.made) × (self.now.forks ≡ other.now.forks) × (self.now.untaken ≡ other.now.untaken) × (self.now.given ≡ other.now.given)) }
    {
        self.path().same(other.path())
            && self.base == other.base
            && self.made == other.made
            && self.forks == other.forks
            && same_runs(&self.untaken, &other.untaken)
            && same_all(self.given.as_slice(), other.given.as_slice())
    }

    // Whether the other process has the same frames, if it runs the same program.
    fn same_stand(&self, other: &Process) -> bool
        ensures { self.now.program ≡ other.now.program → (IsTrue result ↔ ((self.now.frame ≡ other.now.frame) × (self.now.callers ≡ other.now.callers))) }
    {
        let units = self.program.units();
        same_frame(units, &self.top, &other.top)
            && same_call_stack(units, &self.callers, &other.callers)
    }

    // Whether the other process has the same variables and streams, and is trapped alike.
    fn same_keeping(&self, other: &Process) -> bool
        ensures { IsTrue result ↔ ((self.now.locations ≡ other.now.locations) × (self.now.input_at ≡ other.now.input_at) × (self.now.holds_output ≡ other.now.holds_output) × (self.now.trap ≡ other.now.trap)) }
    {
        same_locations(self.locations.as_slice(), other.locations.as_slice())
            && same_input(self.input_at, other.input_at)
            && self.holds_output == other.holds_output
            && same_trap(self.trap, other.trap)
    }

    // Whether the other process runs the same program on the same input.
    fn same_sources(&self, other: &Process) -> bool
        ensures { IsTrue result ↔ ((self.now.program ≡ other.now.program) × (self.now.input ≡ other.now.input)) }
    {
        same_program(&self.program, &other.program)
            && self.input.as_slice() == other.input.as_slice()
    }

    /// Whether the other process is in the same state. Takes no memory. Where all else is the same it takes time for
    /// the input and for the program: for its text, or for all its units where the two don't keep the same text.
    #[tactic(auto, using(crate::proofs::SameStates::one_state))]
    pub fn same(&self, other: &Process) -> bool
        ensures { IsTrue result ↔ (self.now ≡ other.now) }
    {
        self.same_origin(other)
            && self.same_stand(other)
            && self.same_keeping(other)
            && self.same_sources(other)
    }

    /// Goes on from the statement at which it stands to this successor, and past the ends that follow.
    fn go(&mut self, successor: Successor)
        ensures { self.new ≡ gone (successor_of successor) self.old }
    {
        go_on(
            self.program.units(),
            &mut self.top,
            &mut self.callers,
            &mut self.locations,
            successor,
        );
    }
}

// The locations of each child give back what its branch took.
fn regain_all<P: HasProcess>(
    locations: &mut Locations,
    slots: &[usize],
    branches: &[UBranch],
    children: &[P],
)
    ensures { locations.new ≡ all_back slots.now branches.now (map P.state children.now) locations.old }
{
    let mut remainder = children;
    for branch in branches {
        let Some((child, rest)) = remainder.split_first() else {
            return;
        };
        locations.regain_args(
            slots,
            branch.call.args.as_slice(),
            child.process().locations(),
        );
        remainder = rest;
    }
}

// The input of the last child that has it, or what was there.
fn input_back<P: HasProcess>(children: &[P], at: Option<usize>) -> Option<usize>
    ensures { result ≡ input_back (map P.state children.now) at }
{
    let mut back = at;
    for child in children {
        back = some_or(child.process().input_at(), back);
    }
    back
}

fn some_or(at: Option<usize>, other: Option<usize>) -> Option<usize>
    ensures { result ≡ some_or at other }
{
    match at {
        None => other,
        Some(at) => Some(at),
    }
}

// Whether a child has the output, or it was there.
fn output_back<P: HasProcess>(children: &[P], holds: bool) -> bool
    ensures { result ≡ output_back (map P.state children.now) holds }
{
    let mut back = holds;
    for child in children {
        back = child.process().holds_output() || back;
    }
    back
}
