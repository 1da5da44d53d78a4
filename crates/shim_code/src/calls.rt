// The code of calls and forks.
ghost use Rattle.std.specs.Prelude.{◌≡◌, ◌++◌, length, IfOk, OnOk};
ghost use Rattle.shim_code.specs.MachineCode.{callee_of, first_name, first_sort, machine_arg, machine_args, machine_branch, machine_branches, machine_call, machine_fork, params_in};

use crate::draft::Draft;
use crate::exprs::emit_expr;
use crate::machine_instr::{Callee, MachineInstr};
use shim_base::{Boxed, List, NoMemory};
use shim_scopes::UParam;
use shim_syntax::Sort;
use shim_units::{Arg, UBranch, UCall, Unit, behind_first};
use std::alloc::Global;

// The parameters of the unit of this number; none where no unit has it.
fn params_in(units: &[Unit], number: u32) -> &[UParam]
    ensures { result.now ≡ params_in units.now number }
{
    match units.get(number as usize) {
        Some(unit) => unit.params.as_slice(),
        None => &[],
    }
}

// What the first of the parameters holds; `Input` where there is none.
fn first_sort(params: &[UParam]) -> Sort
    ensures { result ≡ first_sort params.now }
{
    match params {
        [] => Sort::Input,
        [param, ..] => param.sort,
    }
}

fn first_name(params: &[UParam]) -> u32
    ensures { result ≡ first_name params.now }
{
    match params {
        [] => 0,
        [param, ..] => param.name,
    }
}

// Adds an argument for the first of the parameters.
fn emit_arg(code: &mut Draft, params: &[UParam], arg: &Arg) -> Result<(), NoMemory>
    ensures { OnOk result (code.new ≡ code.old ++ machine_arg params.now arg.now (length code.old)) }
{
    match arg {
        Arg::Ref(slot) => code.push(MachineInstr::Ref(*slot)),
        Arg::Pass(slot) => code.push(MachineInstr::Pass(*slot, first_sort(params))),
        Arg::Fresh(expr) => {
            emit_expr(code, expr)?;
            code.push(MachineInstr::Fresh(first_sort(params), first_name(params)))
        }
    }
}

fn emit_args(code: &mut Draft, params: &[UParam], args: &[Arg]) -> Result<(), NoMemory>
    ensures { OnOk result (code.new ≡ code.old ++ machine_args params.now args.now (length code.old)) }
{
    let mut left = params;
    for arg in args {
        emit_arg(code, left, arg)?;
        left = behind_first(left);
    }
    Ok(())
}

// A count that 32 bits do not hold counts as out of memory.
fn count(many: usize) -> Result<u32, NoMemory>
    ensures { IfOk result (λ n. n ≡ many) }
{
    u32::try_from(many).map_err(|_| NoMemory)
}

fn callee_of(alloc: Global, call: &UCall) -> Result<Boxed<Callee>, NoMemory>
    ensures { IfOk result (λ callee. callee ≡ callee_of call.now) }
{
    let args = count(call.args.len())?;
    let throws = List::from_slice(alloc, call.throws.as_slice())?;
    let callee = Callee {
        unit: call.unit,
        args,
        throws,
    };
    Boxed::new(alloc, callee)
}

/// Adds a call of one of the units.
pub fn emit_call(
    alloc: Global,
    code: &mut Draft,
    call: &UCall,
    units: &[Unit],
) -> Result<(), NoMemory>
    ensures { OnOk result (code.new ≡ code.old ++ machine_call units.now call.now (length code.old)) }
{
    emit_args(code, params_in(units, call.unit), call.args.as_slice())?;
    let callee = callee_of(alloc, call)?;
    code.push(MachineInstr::Call(callee))
}

fn emit_branch(
    alloc: Global,
    code: &mut Draft,
    branch: &UBranch,
    units: &[Unit],
) -> Result<(), NoMemory>
    ensures { OnOk result (code.new ≡ code.old ++ machine_branch units.now branch.now (length code.old)) }
{
    emit_args(
        code,
        params_in(units, branch.call.unit),
        branch.call.args.as_slice(),
    )?;
    let callee = callee_of(alloc, &branch.call)?;
    code.push(MachineInstr::Branch(callee))
}

/// Adds the branches of a fork, and the fork.
pub fn emit_fork(
    alloc: Global,
    code: &mut Draft,
    branches: &[UBranch],
    units: &[Unit],
) -> Result<(), NoMemory>
    ensures { OnOk result (code.new ≡ code.old ++ machine_fork units.now branches.now (length code.old)) }
{
    let many = count(branches.len())?;
    for branch in branches {
        emit_branch(alloc, code, branch, units)?;
    }
    code.push(MachineInstr::Fork(many))
}
