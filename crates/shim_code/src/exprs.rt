// The code of expressions.
ghost use Rattle.std.specs.Prelude.{◌≡◌, ◌++◌, length, pos, OnOk};
ghost use Rattle.shim_code.specs.Layout.{arms, sequence, one};
ghost use Rattle.shim_code.specs.MachineCode.{machine_expr, machine_expr_or};
ghost use Rattle.shim_code.specs.declared.machine_instr.MachineInstr.TheVariants.{Bool, Jump, JumpZ, Num};

use crate::draft::Draft;
use crate::machine_instr::MachineInstr;
use shim_base::{BinOp, NoMemory};
use shim_scopes::UExpr;

/// Adds the code of an expression.
#[cycle(exprs)]
pub fn emit_expr(code: &mut Draft, expr: &UExpr) -> Result<(), NoMemory>
    ensures { OnOk result (code.new ≡ code.old ++ machine_expr expr.now (length code.old)) }
{
    match expr {
        UExpr::Number(number) => code.push(MachineInstr::Num(*number)),
        UExpr::Var(slot) => code.push(MachineInstr::Var(*slot)),
        UExpr::Unary(op, operand) => {
            emit_expr(code, operand)?;
            code.push(MachineInstr::Un(*op))
        }
        UExpr::Binary(BinOp::And, left, right) => {
            emit_expr(code, left)?;
            emit_and(code, right)
        }
        UExpr::Binary(BinOp::Or, left, right) => {
            emit_expr(code, left)?;
            emit_or(code, right)
        }
        UExpr::Binary(op, left, right) => {
            emit_expr(code, left)?;
            emit_expr(code, right)?;
            code.push(MachineInstr::Bin(*op))
        }
    }
}

// Adds what follows the left side of `&&`.
#[cycle(exprs)]
fn emit_and(code: &mut Draft, right: &UExpr) -> Result<(), NoMemory>
    ensures { OnOk result (code.new ≡ code.old ++ arms Jump JumpZ (sequence (machine_expr right.now) (one Bool)) (one (Num (pos 0))) (length code.old)) }
{
    let head = code.skip()?;
    emit_truth(code, right)?;
    let jump = code.skip()?;
    code.push(MachineInstr::Num(0))?;
    code.close(head, jump, None)
}

// Adds what follows the left side of `||`.
#[cycle(exprs)]
fn emit_or(code: &mut Draft, right: &UExpr) -> Result<(), NoMemory>
    ensures { OnOk result (code.new ≡ code.old ++ arms Jump JumpZ (one (Num (pos 1))) (sequence (machine_expr right.now) (one Bool)) (length code.old)) }
{
    let head = code.skip()?;
    code.push(MachineInstr::Num(1))?;
    let jump = code.skip()?;
    emit_truth(code, right)?;
    code.close(head, jump, None)
}

// Adds the code of an expression whose value becomes 0 or 1.
#[cycle(exprs)]
fn emit_truth(code: &mut Draft, expr: &UExpr) -> Result<(), NoMemory>
    ensures { OnOk result (code.new ≡ code.old ++ sequence (machine_expr expr.now) (one Bool) (length code.old)) }
{
    emit_expr(code, expr)?;
    code.push(MachineInstr::Bool)
}

/// Adds the code of an expression, or of this number where there is no expression.
pub fn emit_expr_or(code: &mut Draft, number: i64, expr: &Option<UExpr>) -> Result<(), NoMemory>
    ensures { OnOk result (code.new ≡ code.old ++ machine_expr_or number expr.now (length code.old)) }
{
    match expr {
        None => code.push(MachineInstr::Num(number)),
        Some(expr) => emit_expr(code, expr),
    }
}
