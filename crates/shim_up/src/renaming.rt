// Copies of the parts of a program, with a name in place of the word of the new type. Where that
// name is the word itself, the copy is equal to what it was made of.
ghost use Rattle.std.specs.Prelude.{◌≡◌, IfOk, map};
ghost use Rattle.shim_up.specs.Renaming.{renamed_branch, renamed_branch_what, renamed_call, renamed_expr, renamed_function, renamed_functions, renamed_option, renamed_param, renamed_stmt, renamed_variable, renamed_what};
ghost use Rattle.shim_up.specs.Up.{replaced};

use shim_base::{Boxed, List, Name, NoMemory};
use shim_syntax::word::copy;
use shim_syntax::{Branch, BranchWhat, Call, Expr, Function, Param, Stmt, What};
use std::alloc::Global;

fn copy_name(alloc: Global, to: &Name, name: &Name) -> Result<Name, NoMemory>
    ensures { IfOk result (λ made. made ≡ replaced to.now name.now) }
{
    if name.as_bytes() == b"int64".as_slice() {
        copy(alloc, to)
    } else {
        copy(alloc, name)
    }
}

fn copy_names(alloc: Global, to: &Name, names: &[Name]) -> Result<List<Name>, NoMemory>
    ensures { IfOk result (λ made. made ≡ map (replaced to.now) names.now) }
{
    let mut made = List::with_capacity(alloc, names.len())?;
    for name in names {
        made.push(copy_name(alloc, to, name)?)?;
    }
    Ok(made)
}

#[tactic(auto, unfolding(crate::specs::Renaming::renamed_expr))]
fn copy_expr(alloc: Global, to: &Name, expr: &Expr) -> Result<Expr, NoMemory>
    ensures { IfOk result (λ made. made ≡ renamed_expr (replaced to.now) expr.now) }
{
    match expr {
        Expr::Number(number) => Ok(Expr::Number(*number)),
        Expr::Var(name) => Ok(Expr::Var(copy_name(alloc, to, name)?)),
        Expr::Unary(op, inner) => {
            let inner = copy_expr(alloc, to, inner)?;
            Ok(Expr::Unary(*op, Boxed::new(alloc, inner)?))
        }
        Expr::Binary(op, left, right) => {
            let left = copy_expr(alloc, to, left)?;
            let right = copy_expr(alloc, to, right)?;
            Ok(Expr::Binary(*op, Boxed::new(alloc, left)?, Boxed::new(alloc, right)?))
        }
    }
}

fn copy_exprs(alloc: Global, to: &Name, exprs: &[Expr]) -> Result<List<Expr>, NoMemory>
    ensures { IfOk result (λ made. made ≡ map (renamed_expr (replaced to.now)) exprs.now) }
{
    let mut made = List::with_capacity(alloc, exprs.len())?;
    for expr in exprs {
        made.push(copy_expr(alloc, to, expr)?)?;
    }
    Ok(made)
}

fn copy_option(alloc: Global, to: &Name, expr: &Option<Expr>) -> Result<Option<Expr>, NoMemory>
    ensures { IfOk result (λ made. made ≡ renamed_option (replaced to.now) expr.now) }
{
    match expr {
        None => Ok(None),
        Some(expr) => {
            let expr = copy_expr(alloc, to, expr)?;
            Ok(Some(expr))
        }
    }
}

// The variable of a handler, where it has one.
fn copy_variable(
    alloc: Global,
    to: &Name,
    variable: &Option<Name>,
) -> Result<Option<Name>, NoMemory>
    ensures { IfOk result (λ made. made ≡ renamed_variable (replaced to.now) variable.now) }
{
    match variable {
        None => Ok(None),
        Some(name) => {
            let name = copy_name(alloc, to, name)?;
            Ok(Some(name))
        }
    }
}

fn copy_call(alloc: Global, to: &Name, call: &Call) -> Result<Call, NoMemory>
    ensures { IfOk result (λ made. made ≡ renamed_call (replaced to.now) call.now) }
{
    let function = copy_name(alloc, to, &call.function)?;
    let args = copy_exprs(alloc, to, call.args.as_slice())?;
    Ok(Call { function, args })
}

#[cycle(copies)]
fn copy_stmts(alloc: Global, to: &Name, body: &[Stmt]) -> Result<List<Stmt>, NoMemory>
    ensures { IfOk result (λ made. made ≡ map (renamed_stmt (replaced to.now)) body.now) }
{
    let mut made = List::with_capacity(alloc, body.len())?;
    for stmt in body {
        made.push(copy_stmt(alloc, to, stmt)?)?;
    }
    Ok(made)
}

#[cycle(copies)]
fn copy_stmt(alloc: Global, to: &Name, stmt: &Stmt) -> Result<Stmt, NoMemory>
    ensures { IfOk result (λ made. made ≡ renamed_stmt (replaced to.now) stmt.now) }
{
    let what = copy_what(alloc, to, &stmt.what)?;
    Ok(Stmt {
        line: stmt.line,
        what,
    })
}

#[cycle(copies)]
fn copy_what(alloc: Global, to: &Name, what: &What) -> Result<What, NoMemory>
    ensures { IfOk result (λ made. made ≡ renamed_what (replaced to.now) what.now) }
{
    match what {
        What::Declare(ty, name, expr) => {
            let name = copy_name(alloc, to, name)?;
            let expr = copy_option(alloc, to, expr)?;
            Ok(What::Declare(*ty, name, expr))
        }
        What::Assign(name, expr) => {
            let name = copy_name(alloc, to, name)?;
            let expr = copy_expr(alloc, to, expr)?;
            Ok(What::Assign(name, expr))
        }
        What::Next(name) => Ok(What::Next(copy_name(alloc, to, name)?)),
        What::NextAssign(name, expr) => {
            let name = copy_name(alloc, to, name)?;
            let expr = copy_expr(alloc, to, expr)?;
            Ok(What::NextAssign(name, expr))
        }
        What::AssignNext(name, source) => {
            let name = copy_name(alloc, to, name)?;
            let source = copy_name(alloc, to, source)?;
            Ok(What::AssignNext(name, source))
        }
        What::Get(name, input) => {
            let name = copy_name(alloc, to, name)?;
            let input = copy_name(alloc, to, input)?;
            Ok(What::Get(name, input))
        }
        What::Put(output, expr) => {
            let output = copy_name(alloc, to, output)?;
            let expr = copy_expr(alloc, to, expr)?;
            Ok(What::Put(output, expr))
        }
        What::If(test, first, other) => {
            let test = copy_expr(alloc, to, test)?;
            let first = copy_stmts(alloc, to, first.as_slice())?;
            let other = copy_stmts(alloc, to, other.as_slice())?;
            Ok(What::If(test, first, other))
        }
        What::While(test, body) => {
            let test = copy_expr(alloc, to, test)?;
            let body = copy_stmts(alloc, to, body.as_slice())?;
            Ok(What::While(test, body))
        }
        What::For(first, test, step, body) => {
            let first = copy_stmts(alloc, to, first.as_slice())?;
            let test = copy_option(alloc, to, test)?;
            let step = copy_stmts(alloc, to, step.as_slice())?;
            let body = copy_stmts(alloc, to, body.as_slice())?;
            Ok(What::For(first, test, step, body))
        }
        What::Block(body) => Ok(What::Block(copy_stmts(alloc, to, body.as_slice())?)),
        What::Call(call) => Ok(What::Call(copy_call(alloc, to, call)?)),
        What::Try(body, name, variable, handler) => {
            let body = copy_stmts(alloc, to, body.as_slice())?;
            let name = copy_name(alloc, to, name)?;
            let variable = copy_variable(alloc, to, variable)?;
            let handler = copy_stmts(alloc, to, handler.as_slice())?;
            Ok(What::Try(body, name, variable, handler))
        }
        What::Throw(name, number) => {
            let name = copy_name(alloc, to, name)?;
            let number = copy_option(alloc, to, number)?;
            Ok(What::Throw(name, number))
        }
        What::Par(branches) => Ok(What::Par(copy_branches(alloc, to, branches.as_slice())?)),
    }
}

#[cycle(copies)]
fn copy_branches(alloc: Global, to: &Name, branches: &[Branch]) -> Result<List<Branch>, NoMemory>
    ensures { IfOk result (λ made. made ≡ map (renamed_branch (replaced to.now)) branches.now) }
{
    let mut made = List::with_capacity(alloc, branches.len())?;
    for branch in branches {
        made.push(copy_branch(alloc, to, branch)?)?;
    }
    Ok(made)
}

#[cycle(copies)]
fn copy_branch(alloc: Global, to: &Name, branch: &Branch) -> Result<Branch, NoMemory>
    ensures { IfOk result (λ made. made ≡ renamed_branch (replaced to.now) branch.now) }
{
    let what = copy_branch_what(alloc, to, &branch.what)?;
    Ok(Branch {
        line: branch.line,
        what,
    })
}

#[cycle(copies)]
fn copy_branch_what(alloc: Global, to: &Name, what: &BranchWhat) -> Result<BranchWhat, NoMemory>
    ensures { IfOk result (λ made. made ≡ renamed_branch_what (replaced to.now) what.now) }
{
    match what {
        BranchWhat::Block(body) => {
            let body = copy_stmts(alloc, to, body.as_slice())?;
            Ok(BranchWhat::Block(body))
        }
        BranchWhat::Call(call) => Ok(BranchWhat::Call(copy_call(alloc, to, call)?)),
    }
}

fn copy_param(alloc: Global, to: &Name, param: &Param) -> Result<Param, NoMemory>
    ensures { IfOk result (λ made. made ≡ renamed_param (replaced to.now) param.now) }
{
    Ok(Param {
        sort: param.sort,
        by_ref: param.by_ref,
        name: copy_name(alloc, to, &param.name)?,
    })
}

fn copy_params(alloc: Global, to: &Name, params: &[Param]) -> Result<List<Param>, NoMemory>
    ensures { IfOk result (λ made. made ≡ map (renamed_param (replaced to.now)) params.now) }
{
    let mut made = List::with_capacity(alloc, params.len())?;
    for param in params {
        made.push(copy_param(alloc, to, param)?)?;
    }
    Ok(made)
}

fn copy_function(alloc: Global, to: &Name, function: &Function) -> Result<Function, NoMemory>
    ensures { IfOk result (λ made. made ≡ renamed_function (replaced to.now) function.now) }
{
    let name = copy_name(alloc, to, &function.name)?;
    let params = copy_params(alloc, to, function.params.as_slice())?;
    let throws = copy_names(alloc, to, function.throws.as_slice())?;
    let body = copy_stmts(alloc, to, function.body.as_slice())?;
    Ok(Function {
        line: function.line,
        name,
        params,
        throws,
        body,
    })
}

pub(crate) fn copy_functions(
    alloc: Global,
    to: &Name,
    functions: &[Function],
) -> Result<List<Function>, NoMemory>
    ensures { IfOk result (λ made. made ≡ renamed_functions (replaced to.now) functions.now) }
{
    let mut made = List::with_capacity(alloc, functions.len())?;
    for function in functions {
        made.push(copy_function(alloc, to, function)?)?;
    }
    Ok(made)
}
