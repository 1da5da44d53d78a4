// What a `put` puts or a `throw` throws, computed over its code without memory.
ghost use Rattle.std.specs.Prelude.{◌≡◌, ◌∷◌, ◌<◌, ◌+◌, ◌^◌, [], Some, MatchOption, false, not};
ghost use Rattle.shim_base.specs.Operators.{applied, applied1, is_zero, truth};
ghost use Rattle.shim_process.specs.LocalState.{env_of};
ghost use Rattle.shim_vm.specs.Computing.{Computed, Computes, continues_with, goes_with, jumps_on_zero, on_top, on_two, progress};
ghost use Rattle.shim_vm.specs.Putting.{LeadsToPut, PutBy, Stepped, at, is_of_expression, stack_numbers, top_of};

use shim_base::{BinOp, Trap, UnOp, apply, apply1};
use shim_code::MachineInstr;
use shim_locations::location::Location;
use shim_locations::locations::value_in;

/// The number that is put or thrown, and the place after the instruction that does it.
#[derive(Clone, Copy)]
pub struct Putting {
    pub place: usize,
    pub value: i64,
}

/// The numbers that the code of a `put` or a `throw` has computed and not yet used. Each stands in the call
/// that computed it, which ends when all is computed: so none of them takes memory.
#[derive(Drop)]
pub enum Numbers<'a> {
    Empty,
    /// One on top of the others.
    Top(i64, &'a Numbers<'a>),
}

/// What one instruction of an expression did.
#[derive(Drop)]
pub enum ExprStep<'a> {
    /// This place is next, and these are the numbers then.
    On(usize, Numbers<'a>),
    Trapped(Trap),
    /// There is no number that it could work on: the code of no program leads here.
    Lacking,
}

// The same numbers.
fn same<'a>(numbers: &'a Numbers<'a>) -> Numbers<'a>
    ensures { stack_numbers result ≡ stack_numbers numbers.now }
{
    match numbers {
        Numbers::Empty => Numbers::Empty,
        Numbers::Top(number, rest) => Numbers::Top(*number, &**rest),
    }
}

fn top(numbers: &Numbers<'_>) -> Option<i64>
    ensures { result ≡ top_of (stack_numbers numbers.now) }
{
    match numbers {
        Numbers::Empty => None,
        Numbers::Top(number, _) => Some(*number),
    }
}

fn unary<'a>(op: UnOp, place: usize, numbers: &'a Numbers<'a>) -> ExprStep<'a>
    requires { place + 1 < 2 ^ 64 }
    ensures { Stepped (on_top (stack_numbers numbers.now) (λ v rest. goes_with rest (at place numbers.now) (applied1 op v))) result }
{
    match numbers {
        Numbers::Top(number, rest) => match apply1(op, *number) {
            Ok(value) => ExprStep::On(place + 1, Numbers::Top(value, &**rest)),
            Err(trap) => ExprStep::Trapped(trap),
        },
        Numbers::Empty => ExprStep::Lacking,
    }
}

fn binary<'a>(op: BinOp, place: usize, numbers: &'a Numbers<'a>) -> ExprStep<'a>
    requires { place + 1 < 2 ^ 64 }
    ensures { Stepped (on_two (stack_numbers numbers.now) (λ x y rest. goes_with rest (at place numbers.now) (applied op x y))) result }
{
    match numbers {
        Numbers::Top(right, below) => match &**below {
            Numbers::Top(left, rest) => match apply(op, *left, *right) {
                Ok(value) => ExprStep::On(place + 1, Numbers::Top(value, &**rest)),
                Err(trap) => ExprStep::Trapped(trap),
            },
            Numbers::Empty => ExprStep::Lacking,
        },
        Numbers::Empty => ExprStep::Lacking,
    }
}

fn truth<'a>(place: usize, numbers: &'a Numbers<'a>) -> ExprStep<'a>
    requires { place + 1 < 2 ^ 64 }
    ensures { Stepped (on_top (stack_numbers numbers.now) (λ v rest. continues_with (truth (not (is_zero v)) ∷ rest) (at place numbers.now))) result }
{
    match numbers {
        Numbers::Top(number, rest) => {
            ExprStep::On(place + 1, Numbers::Top(i64::from(*number != 0), &**rest))
        }
        Numbers::Empty => ExprStep::Lacking,
    }
}

fn jump_on_zero<'a>(to: usize, place: usize, numbers: &'a Numbers<'a>) -> ExprStep<'a>
    requires { place + 1 < 2 ^ 64 }
    ensures { Stepped (on_top (stack_numbers numbers.now) (λ v rest. jumps_on_zero to v rest (at place numbers.now))) result }
{
    match numbers {
        Numbers::Top(number, rest) => {
            let next = if *number == 0 { to } else { place + 1 };
            ExprStep::On(next, same(&**rest))
        }
        Numbers::Empty => ExprStep::Lacking,
    }
}

// Does one instruction, if it is one of an expression.
fn expr_step<'a>(
    instr: &MachineInstr,
    place: usize,
    numbers: &'a Numbers<'a>,
    locations: &[Option<Location>],
    slots: &[usize],
) -> Option<ExprStep<'a>>
    requires { place + 1 < 2 ^ 64 }
    ensures { MatchOption result (is_of_expression instr.now ≡ false) (λ step. Stepped (progress (env_of locations.now slots.now) slots.now (Some instr.now) (at place numbers.now)) step) }
{
    match instr {
        MachineInstr::Num(number) => {
            Some(ExprStep::On(place + 1, Numbers::Top(*number, &*numbers)))
        }
        MachineInstr::Var(slot) => {
            let value = value_in(locations, slots, *slot);
            Some(ExprStep::On(place + 1, Numbers::Top(value, &*numbers)))
        }
        MachineInstr::Un(op) => Some(unary(*op, place, &*numbers)),
        MachineInstr::Bin(op) => Some(binary(*op, place, &*numbers)),
        MachineInstr::Bool => Some(truth(place, &*numbers)),
        MachineInstr::Jump(to) => Some(ExprStep::On(*to as usize, same(&*numbers))),
        MachineInstr::JumpZ(to) => Some(jump_on_zero(*to as usize, place, &*numbers)),
        _ => None,
    }
}

// From this place on with these numbers. Where no number comes of it, as of the code of no program, that is
// taken for a trap.
fn put_from(
    code: &[MachineInstr],
    place: usize,
    numbers: &Numbers<'_>,
    locations: &[Option<Location>],
    slots: &[usize],
) -> Result<Putting, Trap>
    requires { LeadsToPut code.now place }
    ensures { (r : Computed) → Computes (env_of locations.now slots.now) slots.now code.now (at place numbers.now) r → PutBy r result }
{
    let instr = &code[place];
    let behind = place + 1;
    match expr_step(instr, place, &*numbers, locations, slots) {
        Some(ExprStep::On(next, numbers)) => put_from(code, next, &numbers, locations, slots),
        Some(ExprStep::Trapped(trap)) => Err(trap),
        Some(ExprStep::Lacking) => Err(Trap::Depth),
        None => match top(&*numbers) {
            Some(value) => Ok(Putting {
                place: behind,
                value,
            }),
            None => Err(Trap::Depth),
        },
    }
}

/// The number of the `put` or `throw` whose code begins at this place, and the place after it; or the trap of its
/// expression. It takes no memory.
pub fn put_at(
    code: &[MachineInstr],
    place: usize,
    locations: &[Option<Location>],
    slots: &[usize],
) -> Result<Putting, Trap>
    requires { LeadsToPut code.now place }
    ensures { (r : Computed) → Computes (env_of locations.now slots.now) slots.now code.now (record { place = place; stack = []; given = [] }) r → PutBy r result }
{
    put_from(code, place, &Numbers::Empty, locations, slots)
}
