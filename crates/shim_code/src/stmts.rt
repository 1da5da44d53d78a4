// The code of statements.
ghost use Rattle.std.specs.Prelude.{◌≡◌, ◌++◌, length, IfOk, OnOk};
ghost use Rattle.shim_code.specs.MachineCode.{machine_stmt, machine_stmts, machine_unit};

use crate::calls::{emit_call, emit_fork};
use crate::draft::{Caught, Draft};
use crate::exprs::{emit_expr, emit_expr_or};
use crate::instr::MarkKind;
use crate::machine_instr::MachineInstr;
use shim_base::{List, NoMemory};
use shim_units::{UStmt, UWhat, Unit};
use std::alloc::Global;

// Adds the code of some statements, whose calls are of the units.
#[cycle(stmts)]
fn emit_all(alloc: Global, code: &mut Draft, body: &[UStmt], units: &[Unit]) -> Result<(), NoMemory>
    ensures { OnOk result (code.new ≡ code.old ++ machine_stmts units.now body.now (length code.old)) }
{
    for stmt in body {
        emit(alloc, code, stmt, units)?;
    }
    Ok(())
}

#[cycle(stmts)]
fn emit(alloc: Global, code: &mut Draft, stmt: &UStmt, units: &[Unit]) -> Result<(), NoMemory>
    ensures { OnOk result (code.new ≡ code.old ++ machine_stmt units.now stmt.now (length code.old)) }
{
    match &stmt.what {
        UWhat::Declare(ty, slot, expr) => {
            code.begin(MarkKind::Quiet, stmt.line, false)?;
            emit_expr_or(code, 0, expr)?;
            code.push(MachineInstr::Declare(*ty, *slot))
        }
        UWhat::Assign(slot, expr) => {
            code.begin(MarkKind::Quiet, stmt.line, false)?;
            emit_expr(code, expr)?;
            code.push(MachineInstr::Set(*slot))
        }
        UWhat::Next(slot) => {
            code.begin(MarkKind::Next, stmt.line, false)?;
            code.push(MachineInstr::Next(*slot))
        }
        UWhat::NextAssign(slot, expr) => {
            code.begin(MarkKind::Quiet, stmt.line, false)?;
            emit_expr(code, expr)?;
            code.push(MachineInstr::Set(*slot))?;
            code.begin(MarkKind::Next, stmt.line, true)?;
            code.push(MachineInstr::Next(*slot))
        }
        UWhat::AssignNext(slot, from) => {
            code.begin(MarkKind::Next, stmt.line, false)?;
            code.push(MachineInstr::Next(*from))?;
            code.begin(MarkKind::Quiet, stmt.line, true)?;
            code.push(MachineInstr::Var(*from))?;
            code.push(MachineInstr::Set(*slot))
        }
        UWhat::Get(slot, input) => {
            code.begin(MarkKind::Quiet, stmt.line, false)?;
            code.push(MachineInstr::Get(*input))?;
            code.push(MachineInstr::Set(*slot))
        }
        UWhat::Put(output, expr) => {
            code.begin(MarkKind::Put, stmt.line, false)?;
            emit_expr(code, expr)?;
            code.push(MachineInstr::Put(*output))
        }
        UWhat::If(test, first, second) => {
            code.begin(MarkKind::Quiet, stmt.line, false)?;
            emit_expr(code, test)?;
            let head = code.skip()?;
            emit_all(alloc, code, first.as_slice(), units)?;
            let jump = code.skip()?;
            emit_all(alloc, code, second.as_slice(), units)?;
            code.close(head, jump, None)
        }
        UWhat::While(test, body) => {
            let start = code.here()?;
            code.begin(MarkKind::Quiet, stmt.line, false)?;
            emit_expr(code, test)?;
            let head = code.skip()?;
            emit_all(alloc, code, body.as_slice(), units)?;
            code.close_loop(start, head)
        }
        UWhat::For(first, test, step, body) => {
            emit_all(alloc, code, first.as_slice(), units)?;
            let start = code.here()?;
            code.begin(MarkKind::Quiet, stmt.line, false)?;
            emit_expr_or(code, 1, test)?;
            let head = code.skip()?;
            emit_all(alloc, code, body.as_slice(), units)?;
            emit_all(alloc, code, step.as_slice(), units)?;
            code.close_loop(start, head)
        }
        UWhat::Block(body) => emit_all(alloc, code, body.as_slice(), units),
        UWhat::Call(call) => {
            code.begin(MarkKind::Quiet, stmt.line, false)?;
            emit_call(alloc, code, call, units)
        }
        UWhat::Try(body, exception, variable, handler) => {
            code.begin(MarkKind::Quiet, stmt.line, false)?;
            let head = code.skip()?;
            emit_all(alloc, code, body.as_slice(), units)?;
            code.push(MachineInstr::Untry)?;
            let jump = code.skip()?;
            emit_all(alloc, code, handler.as_slice(), units)?;
            code.close(
                head,
                jump,
                Some(Caught {
                    exception: *exception,
                    variable: *variable,
                }),
            )
        }
        UWhat::Throw(exception, expr) => {
            code.begin(MarkKind::Throw, stmt.line, false)?;
            emit_expr_or(code, 0, expr)?;
            code.push(MachineInstr::Throw(*exception))
        }
        UWhat::Par(branches) => {
            code.begin(MarkKind::Fork, stmt.line, false)?;
            emit_fork(alloc, code, branches.as_slice(), units)
        }
    }
}

/// What the machine runs for a unit with these statements, whose calls are of the units.
pub fn machine_unit(
    alloc: Global,
    body: &[UStmt],
    units: &[Unit],
) -> Result<List<MachineInstr>, NoMemory>
    ensures { IfOk result (λ code. code ≡ machine_unit units.now body.now) }
{
    let mut code = Draft::new(alloc);
    emit_all(alloc, &mut code, body, units)?;
    code.push(MachineInstr::End(0))?;
    code.finish()
}
