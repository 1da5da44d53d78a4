// The list of a program's names.
ghost use Rattle.std.specs.Prelude.{◌≡◌, [], IfOk, OnOk};
ghost use Rattle.shim_syntax.specs.Names.{with_expr, with_exprs, with_option, with_variable, with_call, with_stmt, with_stmts, with_branch, with_branches, with_texts, with_params, with_function, with_functions};

use crate::table::NameTable;
use crate::{Branch, BranchWhat, Call, Expr, Function, Param, Stmt, What};
use shim_base::{Name, NoMemory};
use std::alloc::Global;

#[tactic(auto, unfolding(crate::specs::Names::with_expr))]
fn add_expr(alloc: Global, known: &mut NameTable, expr: &Expr) -> Result<(), NoMemory>
    ensures { OnOk result (known.new ≡ with_expr expr.now known.old) }
{
    match expr {
        Expr::Number(_) => Ok(()),
        Expr::Var(name) => {
            known.add(alloc, name)?;
            Ok(())
        }
        Expr::Unary(_, inner) => {
            add_expr(alloc, known, inner)?;
            Ok(())
        }
        Expr::Binary(_, left, right) => {
            add_expr(alloc, known, left)?;
            add_expr(alloc, known, right)?;
            Ok(())
        }
    }
}

fn add_exprs(alloc: Global, known: &mut NameTable, exprs: &[Expr]) -> Result<(), NoMemory>
    ensures { OnOk result (known.new ≡ with_exprs exprs.now known.old) }
{
    for expr in exprs {
        add_expr(alloc, known, expr)?;
    }
    Ok(())
}

fn add_option(alloc: Global, known: &mut NameTable, expr: &Option<Expr>) -> Result<(), NoMemory>
    ensures { OnOk result (known.new ≡ with_option expr.now known.old) }
{
    match expr {
        None => Ok(()),
        Some(expr) => {
            add_expr(alloc, known, expr)?;
            Ok(())
        }
    }
}

// The variable of a handler, where it has one.
fn add_variable(
    alloc: Global,
    known: &mut NameTable,
    variable: &Option<Name>,
) -> Result<(), NoMemory>
    ensures { OnOk result (known.new ≡ with_variable variable.now known.old) }
{
    match variable {
        None => Ok(()),
        Some(name) => {
            known.add(alloc, name)?;
            Ok(())
        }
    }
}

fn add_call(alloc: Global, known: &mut NameTable, call: &Call) -> Result<(), NoMemory>
    ensures { OnOk result (known.new ≡ with_call call.now known.old) }
{
    known.add(alloc, &call.function)?;
    add_exprs(alloc, known, call.args.as_slice())
}

#[cycle(add)]
fn add_stmts(alloc: Global, known: &mut NameTable, body: &[Stmt]) -> Result<(), NoMemory>
    ensures { OnOk result (known.new ≡ with_stmts body.now known.old) }
{
    for stmt in body {
        add_stmt(alloc, known, stmt)?;
    }
    Ok(())
}

#[cycle(add)]
fn add_stmt(alloc: Global, known: &mut NameTable, stmt: &Stmt) -> Result<(), NoMemory>
    ensures { OnOk result (known.new ≡ with_stmt stmt.now known.old) }
{
    match &stmt.what {
        What::Declare(_, name, expr) => {
            known.add(alloc, name)?;
            add_option(alloc, known, expr)?;
            Ok(())
        }
        What::Assign(name, expr) => {
            known.add(alloc, name)?;
            add_expr(alloc, known, expr)?;
            Ok(())
        }
        What::Next(name) => {
            known.add(alloc, name)?;
            Ok(())
        }
        What::NextAssign(name, expr) => {
            known.add(alloc, name)?;
            add_expr(alloc, known, expr)?;
            Ok(())
        }
        What::AssignNext(name, source) => {
            known.add(alloc, name)?;
            known.add(alloc, source)?;
            Ok(())
        }
        What::Get(name, input) => {
            known.add(alloc, name)?;
            known.add(alloc, input)?;
            Ok(())
        }
        What::Put(output, expr) => {
            known.add(alloc, output)?;
            add_expr(alloc, known, expr)?;
            Ok(())
        }
        What::If(test, first, other) => {
            add_expr(alloc, known, test)?;
            add_stmts(alloc, known, first.as_slice())?;
            add_stmts(alloc, known, other.as_slice())?;
            Ok(())
        }
        What::While(test, body) => {
            add_expr(alloc, known, test)?;
            add_stmts(alloc, known, body.as_slice())?;
            Ok(())
        }
        What::For(first, test, step, body) => {
            add_stmts(alloc, known, first.as_slice())?;
            add_option(alloc, known, test)?;
            add_stmts(alloc, known, step.as_slice())?;
            add_stmts(alloc, known, body.as_slice())?;
            Ok(())
        }
        What::Block(body) => {
            add_stmts(alloc, known, body.as_slice())?;
            Ok(())
        }
        What::Call(call) => {
            add_call(alloc, known, call)?;
            Ok(())
        }
        What::Try(body, name, variable, handler) => {
            add_stmts(alloc, known, body.as_slice())?;
            known.add(alloc, name)?;
            add_variable(alloc, known, variable)?;
            add_stmts(alloc, known, handler.as_slice())?;
            Ok(())
        }
        What::Throw(name, number) => {
            known.add(alloc, name)?;
            add_option(alloc, known, number)?;
            Ok(())
        }
        What::Par(branches) => {
            add_branches(alloc, known, branches.as_slice())?;
            Ok(())
        }
    }
}

#[cycle(add)]
fn add_branches(alloc: Global, known: &mut NameTable, branches: &[Branch]) -> Result<(), NoMemory>
    ensures { OnOk result (known.new ≡ with_branches branches.now known.old) }
{
    for branch in branches {
        add_branch(alloc, known, branch)?;
    }
    Ok(())
}

#[cycle(add)]
fn add_branch(alloc: Global, known: &mut NameTable, branch: &Branch) -> Result<(), NoMemory>
    ensures { OnOk result (known.new ≡ with_branch branch.now known.old) }
{
    match &branch.what {
        BranchWhat::Block(body) => {
            add_stmts(alloc, known, body.as_slice())?;
            Ok(())
        }
        BranchWhat::Call(call) => {
            add_call(alloc, known, call)?;
            Ok(())
        }
    }
}

fn add_texts(alloc: Global, known: &mut NameTable, names: &[Name]) -> Result<(), NoMemory>
    ensures { OnOk result (known.new ≡ with_texts names.now known.old) }
{
    for name in names {
        known.add(alloc, name)?;
    }
    Ok(())
}

fn add_params(alloc: Global, known: &mut NameTable, params: &[Param]) -> Result<(), NoMemory>
    ensures { OnOk result (known.new ≡ with_params params.now known.old) }
{
    for param in params {
        known.add(alloc, &param.name)?;
    }
    Ok(())
}

#[tactic(auto, unfolding(crate::specs::Names::with_function))]
fn add_function(alloc: Global, known: &mut NameTable, function: &Function) -> Result<(), NoMemory>
    ensures { OnOk result (known.new ≡ with_function function.now known.old) }
{
    known.add(alloc, &function.name)?;
    add_params(alloc, known, function.params.as_slice())?;
    add_texts(alloc, known, function.throws.as_slice())?;
    add_stmts(alloc, known, function.body.as_slice())?;
    Ok(())
}

fn add_functions(
    alloc: Global,
    known: &mut NameTable,
    functions: &[Function],
) -> Result<(), NoMemory>
    ensures { OnOk result (known.new ≡ with_functions functions.now known.old) }
{
    for function in functions {
        add_function(alloc, known, function)?;
    }
    Ok(())
}

/// The names of the functions of a program, each once, in the order of its first occurrence.
pub fn names_of(alloc: Global, functions: &[Function]) -> Result<NameTable, NoMemory>
    ensures { IfOk result (λ names. names ≡ with_functions functions.now []) }
{
    let mut names = NameTable::new(alloc);
    add_functions(alloc, &mut names, functions)?;
    Ok(names)
}
