// Code that only computes: the numbers of expressions, and arguments.
ghost use Rattle.std.specs.Prelude.{◌≡◌, ◌∷◌, ◌++◌, ◌+◌, [], ℤ, MatchOption, Some, IfOk, OnOk, not};
ghost use Rattle.shim_base.specs.Operators.{applied, applied1, is_zero, truth};
ghost use Rattle.shim_process.specs.Arguments.{ByValue};
ghost use Rattle.shim_process.specs.LocalState.{env_of, number_of, type_of};
ghost use Rattle.shim_locations.specs.Given.{argument_of, arguments_of};
ghost use Rattle.shim_vm.specs.Computing.{CameTo, Computed, Computes, Progressed, gathers, continues_with, goes_with, jumps, jumps_on_zero, on_top, on_two, progress};

use crate::instrs::instr_at;
use crate::stack::Stack;
use shim_base::{BinOp, List, NoMemory, Ty, UnOp, apply, apply1};
use shim_code::MachineInstr;
use shim_locations::argument::Argument;
use shim_locations::argument_fault::ArgumentFault;
use shim_locations::location::Location;
use shim_locations::locations::{number_of, value_in};
use shim_syntax::Sort;
use std::alloc::Global;
use std::marker::Model;
use std::mem::replace;

/// What the machine has computed since the last mark, and the place of the next instruction.
#[derive(Drop)]
pub struct Computation {
    place: usize,
    stack: Stack,
    given: Vec<Argument>,
}

impl Model for Computation {
    ghost use Rattle.shim_vm.specs.Computing.{Computation};
    ghost use Rattle.shim_locations.specs.Given.{arguments_of};

    ghost Value = { Computation };

    ghost view = { λ c. record { place = c.place; stack = c.stack; given = arguments_of c.given.items } };
}

impl Computation {
    /// Nothing is computed yet.
    pub fn new(alloc: Global) -> Computation
        ensures { result ≡ record { place = 0; stack = []; given = [] } }
    {
        Computation {
            place: 0,
            stack: Stack::new(alloc),
            given: Vec::new(alloc),
        }
    }

    /// Nothing is computed yet, and many numbers go into this room.
    pub fn with_room(alloc: Global, room: Vec<i64>) -> Computation
        ensures { result ≡ record { place = 0; stack = []; given = [] } }
    {
        Computation {
            place: 0,
            stack: Stack::with_room(room),
            given: Vec::new(alloc),
        }
    }

    /// The room for many numbers.
    pub fn into_room(self) -> Vec<i64> {
        let Computation { stack, .. } = self;
        stack.into_room()
    }

    /// Nothing is computed yet, and this place is next.
    pub fn begin(&mut self, place: usize)
        ensures { self.new ≡ record { place = place; stack = []; given = [] } }
    {
        self.place = place;
        self.stack.clear();
        self.given.truncate(0);
    }

    /// The place of the next instruction.
    pub fn place(&self) -> usize
        ensures { result ≡ self.now.place }
    {
        self.place
    }

    /// The arguments so far.
    pub fn given(&self) -> &[Argument]
        ensures { arguments_of result.now ≡ self.now.given }
    {
        self.given.as_slice()
    }

    /// Takes the arguments so far.
    pub fn take_given(&mut self) -> List<Argument>
        ensures given { arguments_of result ≡ self.old.given }
        ensures left { self.new ≡ record self.old { given = [] } }
    {
        let alloc = *self.given.allocator();
        List::from(replace(&mut self.given, Vec::new(alloc)))
    }

    /// Takes the number off the top.
    pub fn pop(&mut self) -> Option<i64>
        ensures { MatchOption result (self.old.stack ≡ []) (λ number. self.old ≡ record self.new { stack = number ∷ self.new.stack }) }
    {
        self.stack.pop()
    }

    // On to the next instruction.
    fn advance(&mut self) -> Result<bool, ArgumentFault>
        ensures { Progressed (continues_with self.old.stack self.old) result self.old self.new }
    {
        self.place = self.place.checked_add(1).ok_or(NoMemory)?;
        Ok(true)
    }

    fn push(&mut self, number: i64) -> Result<bool, ArgumentFault>
        ensures { Progressed (continues_with (number ∷ self.old.stack) self.old) result self.old self.new }
    {
        self.stack.push(number)?;
        self.advance()
    }

    fn unary(&mut self, op: UnOp) -> Result<bool, ArgumentFault>
        ensures { Progressed (on_top self.old.stack (λ v rest. goes_with rest self.old (applied1 op v))) result self.old self.new }
    {
        let Some(number) = self.stack.pop() else {
            return Err(ArgumentFault::NoMemory);
        };
        self.push(apply1(op, number)?)
    }

    fn binary(&mut self, op: BinOp) -> Result<bool, ArgumentFault>
        ensures { Progressed (on_two self.old.stack (λ x y rest. goes_with rest self.old (applied op x y))) result self.old self.new }
    {
        let Some(right) = self.stack.pop() else {
            return Err(ArgumentFault::NoMemory);
        };
        let Some(left) = self.stack.pop() else {
            return Err(ArgumentFault::NoMemory);
        };
        self.push(apply(op, left, right)?)
    }

    fn truth(&mut self) -> Result<bool, ArgumentFault>
        ensures { Progressed (on_top self.old.stack (λ v rest. continues_with (truth (not (is_zero v)) ∷ rest) self.old)) result self.old self.new }
    {
        let Some(number) = self.stack.pop() else {
            return Err(ArgumentFault::NoMemory);
        };
        self.push(i64::from(number != 0))
    }

    fn jump(&mut self, place: usize) -> Result<bool, ArgumentFault>
        ensures { Progressed (jumps place self.old.stack self.old) result self.old self.new }
    {
        self.place = place;
        Ok(true)
    }

    fn jump_on_zero(&mut self, place: usize) -> Result<bool, ArgumentFault>
        ensures { Progressed (on_top self.old.stack (λ v rest. jumps_on_zero place v rest self.old)) result self.old self.new }
    {
        let Some(number) = self.stack.pop() else {
            return Err(ArgumentFault::NoMemory);
        };
        if number == 0 {
            self.jump(place)
        } else {
            self.advance()
        }
    }

    #[tactic(auto, using(crate::proofs::Progress::one_more_argument))]
    fn gather(&mut self, argument: Argument) -> Result<bool, ArgumentFault>
        ensures { Progressed (gathers (argument_of argument) self.old.stack self.old) result self.old self.new }
    {
        push_argument(&mut self.given, argument)?;
        self.advance()
    }

    fn gather_value(&mut self, sort: &Sort, name: u32) -> Result<bool, ArgumentFault>
        ensures { Progressed (on_top self.old.stack (λ v rest. gathers (ByValue (type_of sort.now) name v) rest self.old)) result self.old self.new }
    {
        let Some(number) = self.stack.pop() else {
            return Err(ArgumentFault::NoMemory);
        };
        self.gather(Argument::ByValue(type_of(sort), name, number))
    }

    // Does one instruction, unless it does more than compute.
    fn step(
        &mut self,
        instr: &MachineInstr,
        locations: &[Option<Location>],
        slots: &[usize],
    ) -> Result<bool, ArgumentFault>
        ensures { Progressed (progress (env_of locations.now slots.now) slots.now (Some instr.now) self.old) result self.old self.new }
    {
        match instr {
            MachineInstr::Num(number) => self.push(*number),
            MachineInstr::Var(slot) => self.push(value_in(locations, slots, *slot)),
            MachineInstr::Un(op) => self.unary(*op),
            MachineInstr::Bin(op) => self.binary(*op),
            MachineInstr::Bool => self.truth(),
            MachineInstr::Jump(place) => self.jump(*place as usize),
            MachineInstr::JumpZ(place) => self.jump_on_zero(*place as usize),
            MachineInstr::Ref(slot) => {
                self.gather(Argument::ByReference(number_of(slots, *slot)))
            }
            MachineInstr::Pass(slot, sort) => {
                self.gather(Argument::ByCopy(type_of(sort), number_of(slots, *slot)))
            }
            MachineInstr::Fresh(sort, name) => self.gather_value(sort, *name),
            _ => Ok(false),
        }
    }

    /// Computes from the next place on, up to an instruction that does more. Code that doesn't come there counts
    /// as out of memory: the code of no program is such.
    pub fn run(
        &mut self,
        code: &[MachineInstr],
        locations: &[Option<Location>],
        slots: &[usize],
    ) -> Result<(), ArgumentFault>
        ensures { (r : Computed) → Computes (env_of locations.now slots.now) slots.now code.now self.old r → CameTo r result self.new }
    {
        for _ in 0..=code.len() {
            let Some(instr) = instr_at(code, self.place) else {
                return Ok(());
            };
            match self.step(instr, locations, slots) {
                Ok(true) => {}
                Ok(false) => return Ok(()),
                Err(fault) => return Err(fault),
            }
        }
        Err(ArgumentFault::NoMemory)
    }
}

fn push_argument(given: &mut Vec<Argument>, argument: Argument) -> Result<(), NoMemory>
    ensures { OnOk result (given.new.items ≡ given.old.items ++ argument ∷ []) }
{
    given.push(argument)?;
    Ok(())
}

// The type of a variable; that of a stream is never asked for.
fn type_of(sort: &Sort) -> Ty
    ensures { result ≡ type_of sort.now }
{
    match sort {
        Sort::Value(ty) => *ty,
        _ => Ty::Int32,
    }
}
