// The uses of variables in a text.
ghost use Rattle.std.specs.Prelude.{◌≡◌, ◌∷◌, ◌++◌, [], IfOk, OnOk};
ghost use Rattle.shim_units.specs.Parts.{all_uses};
ghost use Rattle.shim_units.specs.Uses.{names_in, names_in_option, lent_uses, arg_uses, args_uses, call_uses, variable_uses};
ghost use Rattle.shim_units.specs.Calls.{bare};
ghost use Rattle.shim_units.specs.PartFold.{part, uses_in, branch_part, branch_parts};

use crate::calls::{behind_first, find_bare, lends_first, params_at};
use crate::found::{How, Use};
use shim_base::{List, NoMemory};
use shim_scopes::{RBranch, RBranchWhat, RCall, RFunction, RStmt, RWhat, UExpr, UParam};
use std::alloc::Global;

fn push(uses: &mut List<Use>, how: How, slot: u32) -> Result<(), NoMemory>
    ensures { OnOk result (uses.new ≡ uses.old ++ record { slot = slot; how = how } ∷ []) }
{
    uses.push(Use { slot, how })?;
    Ok(())
}

#[tactic(auto, unfolding(crate::specs::Uses::names_in))]
fn push_names(uses: &mut List<Use>, expr: &UExpr) -> Result<(), NoMemory>
    ensures { OnOk result (uses.new ≡ uses.old ++ names_in expr.now) }
{
    match expr {
        UExpr::Number(_) => Ok(()),
        UExpr::Var(slot) => push(uses, How::Named, *slot),
        UExpr::Unary(_, inner) => push_names(uses, inner),
        UExpr::Binary(_, left, right) => {
            push_names(uses, left)?;
            push_names(uses, right)?;
            Ok(())
        }
    }
}

fn push_names_in_option(uses: &mut List<Use>, expr: &Option<UExpr>) -> Result<(), NoMemory>
    ensures { OnOk result (uses.new ≡ uses.old ++ names_in_option expr.now) }
{
    match expr {
        None => Ok(()),
        Some(expr) => push_names(uses, expr),
    }
}

// The variable of a handler is declared there.
fn push_variable(uses: &mut List<Use>, variable: &Option<u32>) -> Result<(), NoMemory>
    ensures { OnOk result (uses.new ≡ uses.old ++ variable_uses variable.now) }
{
    match variable {
        None => Ok(()),
        Some(slot) => push(uses, How::Declared, *slot),
    }
}

// An argument by reference writes the variable that it is.
fn push_lent(uses: &mut List<Use>, expr: &UExpr) -> Result<(), NoMemory>
    ensures { OnOk result (uses.new ≡ uses.old ++ lent_uses (bare expr.now) (names_in expr.now)) }
{
    match find_bare(expr) {
        Some(slot) => push(uses, How::Written, slot),
        None => push_names(uses, expr),
    }
}

fn push_arg(uses: &mut List<Use>, lent: bool, expr: &UExpr) -> Result<(), NoMemory>
    ensures { OnOk result (uses.new ≡ uses.old ++ arg_uses lent expr.now) }
{
    if lent {
        push_lent(uses, expr)
    } else {
        push_names(uses, expr)
    }
}

fn push_args(uses: &mut List<Use>, params: &[UParam], args: &[UExpr]) -> Result<(), NoMemory>
    ensures { OnOk result (uses.new ≡ uses.old ++ args_uses params.now args.now) }
{
    let mut left = params;
    for arg in args {
        push_arg(uses, lends_first(left), arg)?;
        left = behind_first(left);
    }
    Ok(())
}

fn push_call(uses: &mut List<Use>, functions: &[RFunction], call: &RCall) -> Result<(), NoMemory>
    ensures { OnOk result (uses.new ≡ uses.old ++ call_uses functions.now call.now) }
{
    push_args(
        uses,
        params_at(functions, call.function),
        call.args.as_slice(),
    )
}

#[cycle(uses)]
pub fn push_stmts(
    uses: &mut List<Use>,
    functions: &[RFunction],
    body: &[RStmt],
) -> Result<(), NoMemory>
    ensures { OnOk result (uses.new ≡ uses.old ++ uses_in functions.now body.now) }
{
    for stmt in body {
        push_stmt(uses, functions, stmt)?;
    }
    Ok(())
}

#[cycle(uses)]
fn push_stmt(uses: &mut List<Use>, functions: &[RFunction], stmt: &RStmt) -> Result<(), NoMemory>
    ensures { OnOk result (uses.new ≡ uses.old ++ (part stmt.now).uses functions.now) }
{
    match &stmt.what {
        RWhat::Declare(_, slot, expr) => {
            push(uses, How::Declared, *slot)?;
            push_names_in_option(uses, expr)?;
            Ok(())
        }
        RWhat::Assign(slot, expr) => {
            push(uses, How::Written, *slot)?;
            push_names(uses, expr)?;
            Ok(())
        }
        RWhat::Next(slot) => push(uses, How::Named, *slot),
        RWhat::NextAssign(slot, expr) => {
            push(uses, How::Written, *slot)?;
            push_names(uses, expr)?;
            Ok(())
        }
        RWhat::AssignNext(slot, source) => {
            push(uses, How::Written, *slot)?;
            push(uses, How::Named, *source)?;
            Ok(())
        }
        RWhat::Get(slot, input) => {
            push(uses, How::Written, *slot)?;
            push(uses, How::Named, *input)?;
            Ok(())
        }
        RWhat::Put(output, expr) => {
            push(uses, How::Named, *output)?;
            push_names(uses, expr)?;
            Ok(())
        }
        RWhat::If(test, first, other) => {
            push_names(uses, test)?;
            push_stmts(uses, functions, first.as_slice())?;
            push_stmts(uses, functions, other.as_slice())?;
            Ok(())
        }
        RWhat::While(test, body) => {
            push_names(uses, test)?;
            push_stmts(uses, functions, body.as_slice())?;
            Ok(())
        }
        RWhat::For(first, test, step, body) => {
            push_stmts(uses, functions, first.as_slice())?;
            push_names_in_option(uses, test)?;
            push_stmts(uses, functions, step.as_slice())?;
            push_stmts(uses, functions, body.as_slice())?;
            Ok(())
        }
        RWhat::Block(body) => push_stmts(uses, functions, body.as_slice()),
        RWhat::Call(call) => push_call(uses, functions, call),
        RWhat::Try(body, _, variable, handler) => {
            push_stmts(uses, functions, body.as_slice())?;
            push_variable(uses, variable)?;
            push_stmts(uses, functions, handler.as_slice())?;
            Ok(())
        }
        RWhat::Throw(_, expr) => push_names_in_option(uses, expr),
        RWhat::Par(branches) => push_branches(uses, functions, branches.as_slice()),
    }
}

#[cycle(uses)]
fn push_branches(
    uses: &mut List<Use>,
    functions: &[RFunction],
    branches: &[RBranch],
) -> Result<(), NoMemory>
    ensures { OnOk result (uses.new ≡ uses.old ++ all_uses functions.now (branch_parts branches.now)) }
{
    for branch in branches {
        push_branch(uses, functions, branch)?;
    }
    Ok(())
}

#[cycle(uses)]
fn push_branch(
    uses: &mut List<Use>,
    functions: &[RFunction],
    branch: &RBranch,
) -> Result<(), NoMemory>
    ensures { OnOk result (uses.new ≡ uses.old ++ (branch_part branch.now).uses functions.now) }
{
    match &branch.what {
        RBranchWhat::Block(body) => push_stmts(uses, functions, body.as_slice()),
        RBranchWhat::Call(call) => push_call(uses, functions, call),
    }
}

/// The uses in the text of a branch, in textual order.
pub fn uses_in_branch(
    alloc: Global,
    functions: &[RFunction],
    branch: &RBranch,
) -> Result<List<Use>, NoMemory>
    ensures { IfOk result (λ made. made ≡ (branch_part branch.now).uses functions.now) }
{
    let mut uses = List::new(alloc);
    push_branch(&mut uses, functions, branch)?;
    Ok(uses)
}
