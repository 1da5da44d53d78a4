// Statements that hold no other. Of those that do: the test, the handler's variable, and the exception of a `try`.
ghost use Rattle.std.specs.Prelude.{◌≡◌, ◌+◌, ◌≤◌, length, IfOk, OnOk};
ghost use Rattle.std.specs.Option.{option_copied};
ghost use Rattle.shim_syntax.specs.declared.tree.Sort.TheVariants.{Value};
ghost use Rattle.shim_syntax.specs.Sizes.{variable_size};
ghost use Rattle.shim_scopes.specs.Statements.{bind_declare, bind_store, bind_next, bind_assign_next, bind_get, bind_put, bind_throw, bind_test, declared_in};
ghost use Rattle.shim_scopes.specs.Refusals.{Gives};
ghost use Rattle.shim_scopes.specs.State.{GivesBound, HasRoom, IsBegun, IsDeclaredAs, IsNumber, IsTried, Kept, around_of, before_of, storing_stmt, whole};

use crate::check::check;
use crate::fault::{ScopeFault, ScopeKind};
use crate::lookup::{
    exception_at, find_no_input, find_no_output, find_stream, find_stream_in_option,
    find_stream_name, find_unhandled, find_unknown, find_unknown_in_option, find_unknown_name,
    first_of, resolve_expr, resolve_option, slot_in,
};
use crate::scope::{Bound, Handled, LocalDeclaration, Scope};
use crate::tree::{RWhat, UExpr};
use crate::word::number;
use shim_base::{List, Name, NoMemory, Ty};
use shim_syntax::word::{copy, is_same};
use shim_syntax::{Expr, Function, NameTable, Sort};
use std::alloc::Global;

// The name, where one of some declarations has it.
fn find_declared<'a>(own: &[LocalDeclaration], name: &'a Name) -> Option<&'a Name>
    ensures { option_copied result ≡ declared_in own.now name.now }
{
    match own.iter().find(|local| is_same(&local.name, name)) {
        Some(_) => Some(name),
        None => None,
    }
}

#[tactic(auto, using(crate::proofs::Seams::seam))]
pub fn resolve_throw(
    alloc: Global,
    scope: &Scope,
    start: usize,
    line: u32,
    name: &Name,
    expr: &Option<Expr>,
) -> Result<RWhat, ScopeFault>
    ensures { GivesBound result (before_of start scope.now) (bind_throw name.now expr.now line (around_of start scope.now) (before_of start scope.now)) }
{
    let visible = scope.visible.as_slice();
    let handled = scope.handled.as_slice();
    let unknown = find_unknown_in_option(visible, expr);
    check(alloc, line, ScopeKind::UnknownName, unknown)?;
    check(
        alloc,
        line,
        ScopeKind::UnknownException,
        find_unhandled(handled, name),
    )?;
    let stream = find_stream_in_option(visible, expr);
    check(alloc, line, ScopeKind::WrongKind, stream)?;
    let expr = resolve_option(alloc, visible, expr)?;
    Ok(RWhat::Throw(exception_at(handled, name), expr))
}

#[tactic(auto, using(crate::proofs::Seams::seam))]
pub fn resolve_next(
    alloc: Global,
    scope: &Scope,
    start: usize,
    line: u32,
    name: &Name,
) -> Result<RWhat, ScopeFault>
    ensures { GivesBound result (before_of start scope.now) (bind_next name.now line (around_of start scope.now) (before_of start scope.now)) }
{
    let visible = scope.visible.as_slice();
    check(
        alloc,
        line,
        ScopeKind::UnknownName,
        find_unknown_name(visible, name),
    )?;
    check(
        alloc,
        line,
        ScopeKind::WrongKind,
        find_stream_name(visible, name),
    )?;
    Ok(RWhat::Next(slot_in(visible, name)))
}

#[tactic(auto, using(crate::proofs::Seams::seam))]
pub fn resolve_assign_next(
    alloc: Global,
    scope: &Scope,
    start: usize,
    line: u32,
    name: &Name,
    source: &Name,
) -> Result<RWhat, ScopeFault>
    ensures { GivesBound result (before_of start scope.now) (bind_assign_next name.now source.now line (around_of start scope.now) (before_of start scope.now)) }
{
    let visible = scope.visible.as_slice();
    let unknown = first_of(
        find_unknown_name(visible, name),
        find_unknown_name(visible, source),
    );
    check(alloc, line, ScopeKind::UnknownName, unknown)?;
    let wrong = first_of(
        find_stream_name(visible, name),
        find_stream_name(visible, source),
    );
    check(alloc, line, ScopeKind::WrongKind, wrong)?;
    Ok(RWhat::AssignNext(slot_in(visible, name), slot_in(visible, source)))
}

#[tactic(auto, using(crate::proofs::Seams::seam))]
pub fn resolve_get(
    alloc: Global,
    scope: &Scope,
    start: usize,
    line: u32,
    name: &Name,
    input: &Name,
) -> Result<RWhat, ScopeFault>
    ensures { GivesBound result (before_of start scope.now) (bind_get name.now input.now line (around_of start scope.now) (before_of start scope.now)) }
{
    let visible = scope.visible.as_slice();
    let unknown = first_of(
        find_unknown_name(visible, name),
        find_unknown_name(visible, input),
    );
    check(alloc, line, ScopeKind::UnknownName, unknown)?;
    let wrong = first_of(
        find_stream_name(visible, name),
        find_no_input(visible, input),
    );
    check(alloc, line, ScopeKind::WrongKind, wrong)?;
    Ok(RWhat::Get(slot_in(visible, name), slot_in(visible, input)))
}

#[tactic(auto, using(crate::proofs::Seams::seam))]
pub fn resolve_put(
    alloc: Global,
    scope: &Scope,
    start: usize,
    line: u32,
    output: &Name,
    expr: &Expr,
) -> Result<RWhat, ScopeFault>
    ensures { GivesBound result (before_of start scope.now) (bind_put output.now expr.now line (around_of start scope.now) (before_of start scope.now)) }
{
    let visible = scope.visible.as_slice();
    let unknown = first_of(
        find_unknown_name(visible, output),
        find_unknown(visible, expr),
    );
    check(alloc, line, ScopeKind::UnknownName, unknown)?;
    let wrong = first_of(find_no_output(visible, output), find_stream(visible, expr));
    check(alloc, line, ScopeKind::WrongKind, wrong)?;
    let expr = resolve_expr(alloc, visible, expr)?;
    Ok(RWhat::Put(slot_in(visible, output), expr))
}

/// The two statements that give a variable the value of an expression.
#[derive(Clone, Copy, Debug, PartialEq, Eq)]
pub enum Store {
    Assign,
    NextAssign,
}

// The assignment, or the `next` with one, of a slot and an expression.
fn stored(store: Store, slot: u32, expr: UExpr) -> RWhat
    ensures { result ≡ storing_stmt store slot expr }
{
    match store {
        Store::Assign => RWhat::Assign(slot, expr),
        Store::NextAssign => RWhat::NextAssign(slot, expr),
    }
}

#[tactic(auto, using(crate::proofs::Seams::seam))]
pub fn resolve_store(
    alloc: Global,
    scope: &Scope,
    start: usize,
    line: u32,
    store: Store,
    name: &Name,
    expr: &Expr,
) -> Result<RWhat, ScopeFault>
    ensures { GivesBound result (before_of start scope.now) (bind_store (storing_stmt store) name.now expr.now line (around_of start scope.now) (before_of start scope.now)) }
{
    let visible = scope.visible.as_slice();
    let unknown = first_of(
        find_unknown_name(visible, name),
        find_unknown(visible, expr),
    );
    check(alloc, line, ScopeKind::UnknownName, unknown)?;
    let wrong = first_of(find_stream_name(visible, name), find_stream(visible, expr));
    check(alloc, line, ScopeKind::WrongKind, wrong)?;
    let expr = resolve_expr(alloc, visible, expr)?;
    Ok(stored(store, slot_in(visible, name), expr))
}

// Puts a declaration with the next slot into the block, and gives the slot.
#[tactic(auto, using(crate::proofs::Seams::pushed_inside, crate::proofs::Seams::pushed_outside), unfolding(crate::specs::State::HasRoom))]
pub fn declare(
    alloc: Global,
    names: &NameTable,
    scope: &mut Scope,
    start: usize,
    sort: Sort,
    name: &Name,
) -> Result<u32, NoMemory>
    requires begun { start ≤ length scope.old.visible }
    requires names { IsNumber (length names.now) }
    requires room { HasRoom 1 scope.old }
    ensures after { IfOk result (λ slot. IsDeclaredAs names.now name.now sort (before_of start scope.old) slot (before_of start scope.new)) }
    ensures kept { OnOk result (Kept start scope.old scope.new) }
{
    let slot = number(scope.slots.len());
    let text = names.number(name);
    scope.visible.push(LocalDeclaration {
        name: copy(alloc, name)?,
        bound: Bound { slot, sort },
    })?;
    scope.slots.push(sort)?;
    scope.slot_names.push(text)?;
    Ok(slot)
}

// Puts the variable of a handler, where it has one, into the handler's block.
pub fn begin_handler(
    alloc: Global,
    names: &NameTable,
    scope: &mut Scope,
    start: usize,
    variable: &Option<Name>,
) -> Result<Option<u32>, NoMemory>
    requires begun { start ≤ length scope.old.visible }
    requires names { IsNumber (length names.now) }
    requires room { HasRoom (variable_size variable.now) scope.old }
    ensures after { IfOk result (λ slot. IsBegun names.now variable.now (before_of start scope.old) slot (before_of start scope.new)) }
    ensures kept { OnOk result (Kept start scope.old scope.new) }
{
    match variable {
        Some(name) => {
            let slot = declare(alloc, names, scope, start, Sort::Value(Ty::Int32), name)?;
            Ok(Some(slot))
        }
        None => Ok(None),
    }
}

#[tactic(auto, using(crate::proofs::Seams::seam))]
pub fn resolve_declare(
    alloc: Global,
    functions: &[Function],
    names: &NameTable,
    scope: &mut Scope,
    start: usize,
    line: u32,
    ty: Ty,
    name: &Name,
    expr: &Option<Expr>,
) -> Result<RWhat, ScopeFault>
    requires begun { start ≤ length scope.old.visible }
    requires names { IsNumber (length names.now) }
    requires room { HasRoom 1 scope.old }
    ensures meant { GivesBound result (before_of start scope.new) (bind_declare (whole functions.now names.now) ty name.now expr.now line (around_of start scope.old) (before_of start scope.old)) }
    ensures kept { OnOk result (Kept start scope.old scope.new) }
{
    let visible = scope.visible.as_slice();
    let unknown = find_unknown_in_option(visible, expr);
    check(alloc, line, ScopeKind::UnknownName, unknown)?;
    let twice = find_declared(&visible[start..], name);
    check(alloc, line, ScopeKind::Twice, twice)?;
    let stream = find_stream_in_option(visible, expr);
    check(alloc, line, ScopeKind::WrongKind, stream)?;
    let expr = resolve_option(alloc, visible, expr)?;
    let slot = declare(alloc, names, scope, start, Sort::Value(ty), name)?;
    Ok(RWhat::Declare(ty, slot, expr))
}

#[tactic(auto, using(crate::proofs::Seams::seam))]
pub fn resolve_test(
    alloc: Global,
    scope: &Scope,
    start: usize,
    line: u32,
    test: &Expr,
) -> Result<UExpr, ScopeFault>
    ensures { Gives result (bind_test test.now line (around_of start scope.now) (before_of start scope.now)) }
{
    check(
        alloc,
        line,
        ScopeKind::UnknownName,
        find_unknown(scope.visible.as_slice(), test),
    )?;
    check(
        alloc,
        line,
        ScopeKind::WrongKind,
        find_stream(scope.visible.as_slice(), test),
    )?;
    Ok(resolve_expr(alloc, scope.visible.as_slice(), test)?)
}

// The number of the next `try`.
#[tactic(auto, unfolding(crate::specs::State::HasRoom))]
fn next_exception(scope: &Scope) -> u32
    requires { HasRoom 1 scope.now }
    ensures { result ≡ scope.now.throws + length scope.now.tries }
{
    scope.throws + number(scope.tries.len())
}

// Puts the exception of a `try` in force with the next number, and gives the number.
pub fn begin_try(
    alloc: Global,
    names: &NameTable,
    scope: &mut Scope,
    name: &Name,
) -> Result<u32, NoMemory>
    requires names { IsNumber (length names.now) }
    requires room { HasRoom 1 scope.old }
    ensures { IfOk result (λ number. IsTried names.now name.now scope.old number scope.new) }
{
    let caught = next_exception(scope);
    let text = names.number(name);
    scope.handled.push(Handled {
        name: copy(alloc, name)?,
        number: caught,
    })?;
    scope.tries.push(text)?;
    Ok(caught)
}
