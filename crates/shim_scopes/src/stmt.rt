// Statements and branches, each with what stands in it.
ghost use Rattle.std.specs.Prelude.{◌≡◌, ◌≤◌, ◌++◌, length, OnOk};
ghost use Rattle.shim_syntax.specs.declared.tree.What.TheVariants.{If, For, Try};
ghost use Rattle.shim_syntax.specs.Sizes.{stmt_size, stmts_size, branch_size, branches_size};
ghost use Rattle.shim_scopes.specs.Statements.{bind_block, bind_first_test};
ghost use Rattle.shim_scopes.specs.Bodies.{bind_stmt, bind_what, bind_branch, bind_stmts, bind_branches, declared_first};
ghost use Rattle.shim_scopes.specs.Refusals.{Gives};
ghost use Rattle.shim_scopes.specs.State.{GivesBound, AreNumbers, HasRoom, Kept, around_of, before_of, whole};

use crate::call::resolve_call;
use crate::check::check;
use crate::fault::{ScopeFault, ScopeKind};
use crate::lookup::{find_stream_in_option, find_unknown_in_option, resolve_option};
use crate::scope::{Bound, LocalDeclaration, Scope, cut};
use crate::simple::{
    Store, begin_handler, begin_try, resolve_assign_next, resolve_declare, resolve_get,
    resolve_next, resolve_put, resolve_store, resolve_test, resolve_throw,
};
use crate::tree::{RBranch, RBranchWhat, RStmt, RWhat};
use crate::word::number;
use shim_base::{List, Name, NoMemory};
use shim_syntax::word::copy;
use shim_syntax::{Branch, BranchWhat, Expr, Function, NameTable, Sort, Stmt, What};
use std::alloc::Global;

// Puts what the first statement of a `for` declares into scope.
#[tactic(auto, unfolding(crate::specs::State::HasRoom))]
fn add_first(
    alloc: Global,
    functions: &[Function],
    names: &NameTable,
    scope: &mut Scope,
    first: &[Stmt],
) -> Result<(), NoMemory>
    requires { HasRoom 1 scope.old }
    ensures { OnOk result (scope.new ≡ record scope.old { visible = scope.old.visible ++ declared_first (whole functions.now names.now) first.now (length scope.old.slots) }) }
{
    match first.first() {
        None => Ok(()),
        Some(stmt) => match &stmt.what {
            What::Declare(ty, name, _) => {
                let slot = number(scope.slots.len());
                scope.visible.push(LocalDeclaration {
                    name: copy(alloc, name)?,
                    bound: Bound {
                        slot,
                        sort: Sort::Value(*ty),
                    },
                })?;
                Ok(())
            }
            _ => Ok(()),
        },
    }
}

// Examines the test of a `for` with what the first statement declares in scope.
#[tactic(auto, using(crate::proofs::Seams::seam))]
fn check_test(
    alloc: Global,
    functions: &[Function],
    names: &NameTable,
    scope: &mut Scope,
    start: usize,
    line: u32,
    first: &[Stmt],
    test: &Option<Expr>,
) -> Result<(), ScopeFault>
    requires { HasRoom 1 scope.old }
    ensures meant { Gives result (bind_first_test (declared_first (whole functions.now names.now) first.now) test.now line (around_of start scope.old) (before_of start scope.old)) }
    ensures kept { OnOk result (scope.new ≡ scope.old) }
{
    let inner = scope.visible.len();
    add_first(alloc, functions, names, scope, first)?;
    check(
        alloc,
        line,
        ScopeKind::UnknownName,
        find_unknown_in_option(scope.visible.as_slice(), test),
    )?;
    check(
        alloc,
        line,
        ScopeKind::WrongKind,
        find_stream_in_option(scope.visible.as_slice(), test),
    )?;
    cut(&mut scope.visible, inner);
    Ok(())
}

#[cycle(resolve)]
pub fn resolve_body(
    alloc: Global,
    functions: &[Function],
    names: &NameTable,
    scope: &mut Scope,
    start: usize,
    body: &[Stmt],
) -> Result<List<RStmt>, ScopeFault>
    requires begun { start ≤ length scope.old.visible }
    requires few { AreNumbers (whole functions.now names.now) }
    requires room { HasRoom (stmts_size body.now) scope.old }
    ensures meant { GivesBound result (before_of start scope.new) (bind_stmts (whole functions.now names.now) body.now (around_of start scope.old) (before_of start scope.old)) }
    ensures kept { OnOk result (Kept start scope.old scope.new) }
{
    let mut made = List::new(alloc);
    for stmt in body {
        made.push(resolve_stmt(alloc, functions, names, scope, start, stmt)?)?;
    }
    Ok(made)
}

// A block, with a scope of its own.
#[cycle(resolve)]
#[tactic(auto, using(crate::proofs::Seams::seam))]
fn resolve_block(
    alloc: Global,
    functions: &[Function],
    names: &NameTable,
    scope: &mut Scope,
    start: usize,
    body: &[Stmt],
) -> Result<List<RStmt>, ScopeFault>
    requires begun { start ≤ length scope.old.visible }
    requires few { AreNumbers (whole functions.now names.now) }
    requires room { HasRoom (stmts_size body.now) scope.old }
    ensures meant { GivesBound result (before_of start scope.new) (bind_block (bind_stmts (whole functions.now names.now) body.now) (around_of start scope.old) (before_of start scope.old)) }
    ensures kept { OnOk result (Kept start scope.old scope.new) }
{
    let inner = scope.visible.len();
    let made = resolve_body(alloc, functions, names, scope, inner, body)?;
    cut(&mut scope.visible, inner);
    Ok(made)
}

// An `if` of these parts.
#[cycle(resolve)]
fn resolve_if(
    alloc: Global,
    functions: &[Function],
    names: &NameTable,
    scope: &mut Scope,
    start: usize,
    stmt: &Stmt,
    test: &Expr,
    first: &List<Stmt>,
    other: &List<Stmt>,
) -> Result<RWhat, ScopeFault>
    requires begun { start ≤ length scope.old.visible }
    requires few { AreNumbers (whole functions.now names.now) }
    requires parts { stmt.now.what ≡ If test.now first.now other.now }
    requires room { HasRoom (stmt_size stmt.now) scope.old }
    ensures meant { GivesBound result (before_of start scope.new) (bind_what (whole functions.now names.now) stmt.now (around_of start scope.old) (before_of start scope.old)) }
    ensures kept { OnOk result (Kept start scope.old scope.new) }
{
    let test = resolve_test(alloc, scope, start, stmt.line, test)?;
    let first = resolve_block(alloc, functions, names, scope, start, first.as_slice())?;
    let other = resolve_block(alloc, functions, names, scope, start, other.as_slice())?;
    Ok(RWhat::If(test, first, other))
}

// A `for` of these parts.
#[cycle(resolve)]
fn resolve_for(
    alloc: Global,
    functions: &[Function],
    names: &NameTable,
    scope: &mut Scope,
    start: usize,
    stmt: &Stmt,
    first: &List<Stmt>,
    test: &Option<Expr>,
    step: &List<Stmt>,
    body: &List<Stmt>,
) -> Result<RWhat, ScopeFault>
    requires begun { start ≤ length scope.old.visible }
    requires few { AreNumbers (whole functions.now names.now) }
    requires parts { stmt.now.what ≡ For first.now test.now step.now body.now }
    requires room { HasRoom (stmt_size stmt.now) scope.old }
    ensures meant { GivesBound result (before_of start scope.new) (bind_what (whole functions.now names.now) stmt.now (around_of start scope.old) (before_of start scope.old)) }
    ensures kept { OnOk result (Kept start scope.old scope.new) }
{
    check_test(
        alloc,
        functions,
        names,
        scope,
        start,
        stmt.line,
        first.as_slice(),
        test,
    )?;
    let inner = scope.visible.len();
    let first = resolve_body(alloc, functions, names, scope, inner, first.as_slice())?;
    let test = resolve_option(alloc, scope.visible.as_slice(), test)?;
    let step = resolve_body(alloc, functions, names, scope, inner, step.as_slice())?;
    let body = resolve_block(alloc, functions, names, scope, inner, body.as_slice())?;
    cut(&mut scope.visible, inner);
    Ok(RWhat::For(first, test, step, body))
}

// A `try` of these parts.
#[cycle(resolve)]
fn resolve_try(
    alloc: Global,
    functions: &[Function],
    names: &NameTable,
    scope: &mut Scope,
    start: usize,
    stmt: &Stmt,
    body: &List<Stmt>,
    name: &Name,
    variable: &Option<Name>,
    handler: &List<Stmt>,
) -> Result<RWhat, ScopeFault>
    requires begun { start ≤ length scope.old.visible }
    requires few { AreNumbers (whole functions.now names.now) }
    requires parts { stmt.now.what ≡ Try body.now name.now variable.now handler.now }
    requires room { HasRoom (stmt_size stmt.now) scope.old }
    ensures meant { GivesBound result (before_of start scope.new) (bind_what (whole functions.now names.now) stmt.now (around_of start scope.old) (before_of start scope.old)) }
    ensures kept { OnOk result (Kept start scope.old scope.new) }
{
    let outside = scope.handled.len();
    let caught = begin_try(alloc, names, scope, name)?;
    let body = resolve_block(alloc, functions, names, scope, start, body.as_slice())?;
    cut(&mut scope.handled, outside);
    let inner = scope.visible.len();
    let variable = begin_handler(alloc, names, scope, inner, variable)?;
    let handler = resolve_body(alloc, functions, names, scope, inner, handler.as_slice())?;
    cut(&mut scope.visible, inner);
    Ok(RWhat::Try(body, caught, variable, handler))
}

#[cycle(resolve)]
fn resolve_what(
    alloc: Global,
    functions: &[Function],
    names: &NameTable,
    scope: &mut Scope,
    start: usize,
    stmt: &Stmt,
) -> Result<RWhat, ScopeFault>
    requires begun { start ≤ length scope.old.visible }
    requires few { AreNumbers (whole functions.now names.now) }
    requires room { HasRoom (stmt_size stmt.now) scope.old }
    ensures meant { GivesBound result (before_of start scope.new) (bind_what (whole functions.now names.now) stmt.now (around_of start scope.old) (before_of start scope.old)) }
    ensures kept { OnOk result (Kept start scope.old scope.new) }
{
    let line = stmt.line;
    match &stmt.what {
        What::Declare(ty, name, expr) => resolve_declare(
            alloc, functions, names, scope, start, line, *ty, name, expr,
        ),
        What::Assign(name, expr) => resolve_store(
            alloc,
            scope,
            start,
            line,
            Store::Assign,
            name,
            expr,
        ),
        What::Next(name) => resolve_next(alloc, scope, start, line, name),
        What::NextAssign(name, expr) => resolve_store(
            alloc,
            scope,
            start,
            line,
            Store::NextAssign,
            name,
            expr,
        ),
        What::AssignNext(name, source) => resolve_assign_next(
            alloc, scope, start, line, name, source,
        ),
        What::Get(name, input) => resolve_get(alloc, scope, start, line, name, input),
        What::Put(output, expr) => resolve_put(alloc, scope, start, line, output, expr),
        What::If(test, first, other) => {
            resolve_if(
                alloc, functions, names, scope, start, stmt, test, first, other,
            )
        }
        What::While(test, body) => {
            let test = resolve_test(alloc, scope, start, line, test)?;
            let body = resolve_block(alloc, functions, names, scope, start, body.as_slice())?;
            Ok(RWhat::While(test, body))
        }
        What::For(first, test, step, body) => {
            resolve_for(
                alloc, functions, names, scope, start, stmt, first, test, step, body,
            )
        }
        What::Block(body) => {
            let body = resolve_block(alloc, functions, names, scope, start, body.as_slice())?;
            Ok(RWhat::Block(body))
        }
        What::Call(call) => {
            let call = resolve_call(alloc, functions, names, scope, start, line, call)?;
            Ok(RWhat::Call(call))
        }
        What::Try(body, name, variable, handler) => {
            resolve_try(
                alloc, functions, names, scope, start, stmt, body, name, variable, handler,
            )
        }
        What::Throw(name, expr) => resolve_throw(alloc, scope, start, line, name, expr),
        What::Par(branches) => {
            let branches = resolve_branches(
                alloc,
                functions,
                names,
                scope,
                start,
                branches.as_slice(),
            )?;
            Ok(RWhat::Par(branches))
        }
    }
}

#[cycle(resolve)]
fn resolve_stmt(
    alloc: Global,
    functions: &[Function],
    names: &NameTable,
    scope: &mut Scope,
    start: usize,
    stmt: &Stmt,
) -> Result<RStmt, ScopeFault>
    requires begun { start ≤ length scope.old.visible }
    requires few { AreNumbers (whole functions.now names.now) }
    requires room { HasRoom (stmt_size stmt.now) scope.old }
    ensures meant { GivesBound result (before_of start scope.new) (bind_stmt (whole functions.now names.now) stmt.now (around_of start scope.old) (before_of start scope.old)) }
    ensures kept { OnOk result (Kept start scope.old scope.new) }
{
    let what = resolve_what(alloc, functions, names, scope, start, stmt)?;
    Ok(RStmt {
        line: stmt.line,
        what,
    })
}

#[cycle(resolve)]
fn resolve_branches(
    alloc: Global,
    functions: &[Function],
    names: &NameTable,
    scope: &mut Scope,
    start: usize,
    branches: &[Branch],
) -> Result<List<RBranch>, ScopeFault>
    requires begun { start ≤ length scope.old.visible }
    requires few { AreNumbers (whole functions.now names.now) }
    requires room { HasRoom (branches_size branches.now) scope.old }
    ensures meant { GivesBound result (before_of start scope.new) (bind_branches (whole functions.now names.now) branches.now (around_of start scope.old) (before_of start scope.old)) }
    ensures kept { OnOk result (Kept start scope.old scope.new) }
{
    let mut made = List::new(alloc);
    for branch in branches {
        made.push(resolve_branch(alloc, functions, names, scope, start, branch)?)?;
    }
    Ok(made)
}

#[cycle(resolve)]
fn resolve_branch(
    alloc: Global,
    functions: &[Function],
    names: &NameTable,
    scope: &mut Scope,
    start: usize,
    branch: &Branch,
) -> Result<RBranch, ScopeFault>
    requires begun { start ≤ length scope.old.visible }
    requires few { AreNumbers (whole functions.now names.now) }
    requires room { HasRoom (branch_size branch.now) scope.old }
    ensures meant { GivesBound result (before_of start scope.new) (bind_branch (whole functions.now names.now) branch.now (around_of start scope.old) (before_of start scope.old)) }
    ensures kept { OnOk result (Kept start scope.old scope.new) }
{
    match &branch.what {
        BranchWhat::Block(body) => {
            let body = resolve_block(alloc, functions, names, scope, start, body.as_slice())?;
            Ok(RBranch {
                line: branch.line,
                what: RBranchWhat::Block(body),
            })
        }
        BranchWhat::Call(call) => {
            let call = resolve_call(alloc, functions, names, scope, start, branch.line, call)?;
            Ok(RBranch {
                line: branch.line,
                what: RBranchWhat::Call(call),
            })
        }
    }
}
