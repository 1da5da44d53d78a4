// What a process does at the instruction at which its computation ended.
ghost use Rattle.std.specs.Prelude.{◌≡◌, ◌∷◌, [], ◌+◌, ◌<◌, ◌^◌, length, Some, IfOk, slice_get};
ghost use Rattle.shim_walk.specs.StatementContexts.{context_view};
ghost use Rattle.shim_code.specs.declared.machine_instr.MachineInstr.TheVariants.{Call, Declare, Set};
ghost use Rattle.shim_code.specs.MachineCode.{try_instr};
ghost use Rattle.shim_vm.specs.Actions.{code_action_of, code_action, instr_action, reads};

use crate::computing::Computation;
use crate::instrs::instr_at;
use shim_base::{List, NoMemory, Trap, Ty};
use shim_code::{Callee, MachineInstr};
use shim_locations::argument::Argument;
use shim_walk::labels::labels_for;
use shim_walk::next_action::{StatementContext, try_name};
use std::alloc::Global;

/// What a process does at an instruction. Each variant but `Trapped` has first the place where the process goes on.
#[derive(Drop)]
pub enum Action {
    Go(usize),
    /// The value is stored in the slot's location.
    Store(usize, u32, i64),
    /// The slot gets a new location, on a new channel.
    Make(usize, Ty, u32, i64),
    /// The next byte of the input is stored in the slot's location.
    Read(usize, u32),
    /// The unit is called with these arguments, and its exceptions have these labels.
    Enter(usize, u32, List<Argument>, List<u32>),
    /// The exception of this number comes into force, by this name, with its handler at the second
    /// place, and with a variable of the handler in this slot, where it has one.
    Install(usize, u32, u32, u32, Option<u32>),
    Trapped(Trap),
}

// The place after this one. If that is too large for its type, this counts as out of memory: no code is so long.
fn behind(place: usize) -> Result<usize, NoMemory>
    ensures { IfOk result (λ next. next ≡ place + 1) }
{
    place.checked_add(1).ok_or(NoMemory)
}

fn declare(
    computation: &mut Computation,
    ty: Ty,
    slot: u32,
    context: &StatementContext<'_>,
) -> Result<Action, NoMemory>
    ensures { IfOk result (λ a. code_action_of a ≡ instr_action (context_view context.now) [] (Some (Declare ty slot)) computation.old) }
{
    let Some(value) = computation.pop() else {
        return Err(NoMemory);
    };
    if context.full {
        return Ok(Action::Trapped(Trap::Depth));
    }
    Ok(Action::Make(behind(computation.place())?, ty, slot, value))
}

fn store(
    computation: &mut Computation,
    slot: u32,
    context: &StatementContext<'_>,
) -> Result<Action, NoMemory>
    ensures { IfOk result (λ a. code_action_of a ≡ instr_action (context_view context.now) [] (Some (Set slot)) computation.old) }
{
    let Some(value) = computation.pop() else {
        return Err(NoMemory);
    };
    Ok(Action::Store(behind(computation.place())?, slot, value))
}

// The byte is stored by the instruction at the place.
fn read(code: &[MachineInstr], place: usize) -> Result<Action, NoMemory>
    ensures { IfOk result (λ a. code_action_of a ≡ reads (slice_get code.now place) place) }
{
    match instr_at(code, place) {
        Some(MachineInstr::Set(slot)) => Ok(Action::Read(behind(place)?, *slot)),
        _ => Err(NoMemory),
    }
}

fn enter(
    alloc: Global,
    computation: &mut Computation,
    callee: &Callee,
    context: &StatementContext<'_>,
) -> Result<Action, NoMemory>
    requires { context.now.first + length context.now.places.now < 2 ^ 32 }
    ensures { IfOk result (λ a. code_action_of a ≡ instr_action (context_view context.now) [] (Some (Call callee.now)) computation.old) }
{
    if context.deep || context.full {
        return Ok(Action::Trapped(Trap::Depth));
    }
    let labels = labels_for(alloc, context, callee.throws.as_slice())?;
    let given = computation.take_given();
    let next = behind(computation.place())?;
    Ok(Action::Enter(next, callee.unit, given, labels))
}

fn install(
    computation: &Computation,
    handler: u32,
    exception: u32,
    slot: Option<u32>,
    context: &StatementContext<'_>,
) -> Result<Action, NoMemory>
    ensures { IfOk result (λ a. code_action_of a ≡ instr_action (context_view context.now) [] (Some (try_instr handler exception slot)) computation.now) }
{
    if context.full {
        return Ok(Action::Trapped(Trap::Depth));
    }
    let name = try_name(context.units, context.unit, exception);
    let next = behind(computation.place())?;
    Ok(Action::Install(next, handler, exception, name, slot))
}

/// What the instruction at which a computation ended does, by what the statement sees. Code that lacks what its
/// instruction works on counts as out of memory: no program has such.
pub fn action_at(
    alloc: Global,
    code: &[MachineInstr],
    computation: &mut Computation,
    context: &StatementContext<'_>,
) -> Result<Action, NoMemory>
    requires { context.now.first + length context.now.places.now < 2 ^ 32 }
    ensures { IfOk result (λ a. code_action_of a ≡ code_action (context_view context.now) code.now computation.old) }
{
    match instr_at(code, computation.place()) {
        Some(MachineInstr::Declare(ty, slot)) => declare(computation, *ty, *slot, context),
        Some(MachineInstr::Set(slot)) => store(computation, *slot, context),
        Some(MachineInstr::Get(_)) => read(code, behind(computation.place())?),
        Some(MachineInstr::Call(callee)) => enter(alloc, computation, callee, context),
        Some(MachineInstr::Try(handler, exception)) => {
            install(computation, *handler, *exception, None, context)
        }
        Some(MachineInstr::TryInto(handler, exception, slot)) => {
            install(computation, *handler, *exception, Some(*slot), context)
        }
        _ => Ok(Action::Go(computation.place())),
    }
}
