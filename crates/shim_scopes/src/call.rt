// Calls.
ghost use Rattle.std.specs.Prelude.{◌≡◌, length, IfOk, map, position, nat_eq};
ghost use Rattle.std.specs.Str.{bytes_eq};
ghost use Rattle.std.specs.Option.{option_copied};
ghost use Rattle.shim_syntax.specs.declared.tree.Function.{Function};
ghost use Rattle.shim_scopes.specs.Binding.{exception_number};
ghost use Rattle.shim_scopes.specs.Calls.{bind_call, bind_known, function_of, unhandled_of_all, wrong_arg, wrong_ref, wrong_in_all, same_type, same_sort, sort_fits, if_false};
ghost use Rattle.shim_scopes.specs.Refusals.{Gives};
ghost use Rattle.shim_scopes.specs.State.{IsNumber, Passes, around_of, before_of, whole};

use crate::check::{check, refuse};
use crate::fault::{ScopeFault, ScopeKind};
use crate::lookup::{
    find_bare, find_stream, find_unknown_of_all, look_up, look_up_exception, resolve_exprs,
};
use crate::scope::{Bound, Handled, LocalDeclaration, Scope};
use crate::tree::RCall;
use crate::word::number;
use shim_base::{List, Name, NoMemory, Ty};
use shim_syntax::word::is_same;
use shim_syntax::{Call, Expr, Function, NameTable, Param, Sort};
use std::alloc::Global;

pub fn find_function_at(functions: &[Function], name: &Name) -> Option<usize>
    ensures { result ≡ position (λ (f : Function). bytes_eq f.name name.now) functions.now }
{
    functions
        .iter()
        .position(|function| is_same(&function.name, name))
}

// The caller's numbers for the names in a callee's `throws`, or the refusal of the first that isn't in scope
// at the call. Each name is looked up once, since a text may have very many calls of a function with a very
// long `throws`.
fn number_throws(
    alloc: Global,
    handled: &[Handled],
    line: u32,
    names: &[Name],
) -> Result<List<u32>, ScopeFault>
    ensures passes { Passes result line ScopeKind.UnknownException (unhandled_of_all handled.now names.now) }
    ensures numbers { IfOk result (λ made. made ≡ map (exception_number handled.now) names.now) }
{
    let mut made = List::with_capacity(alloc, names.len())?;
    for name in names {
        match look_up_exception(handled, name) {
            Some(number) => made.push(number)?,
            None => return Err(refuse(alloc, line, ScopeKind::UnknownException, name)),
        }
    }
    Ok(made)
}

fn is_same_type(a: Ty, b: Ty) -> bool
    ensures { result ≡ same_type a b }
{
    match a {
        Ty::Bool => matches!(b, Ty::Bool),
        Ty::Int8 => matches!(b, Ty::Int8),
        Ty::Int16 => matches!(b, Ty::Int16),
        Ty::Int32 => matches!(b, Ty::Int32),
        Ty::Uint8 => matches!(b, Ty::Uint8),
        Ty::Uint16 => matches!(b, Ty::Uint16),
        Ty::Uint32 => matches!(b, Ty::Uint32),
        Ty::Int64 => matches!(b, Ty::Int64),
    }
}

fn is_same_sort(a: Sort, b: Sort) -> bool
    ensures { result ≡ same_sort a b }
{
    match a {
        Sort::Value(a) => match b {
            Sort::Value(b) => is_same_type(a, b),
            Sort::Input => false,
            Sort::Output => false,
        },
        Sort::Input => matches!(b, Sort::Input),
        Sort::Output => matches!(b, Sort::Output),
    }
}

// Whether the variable to which a name is bound has the sort. True of a name that is bound to nothing.
fn is_fit(sort: Sort, bound: Option<Bound>) -> bool
    ensures { result ≡ sort_fits sort bound }
{
    match bound {
        None => true,
        Some(bound) => is_same_sort(sort, bound.sort),
    }
}

fn find_wrong_ref<'a>(
    visible: &[LocalDeclaration],
    param: &'a Param,
    arg: Option<&'a Name>,
) -> Option<&'a Name>
    ensures { option_copied result ≡ wrong_ref visible.now param.now (option_copied arg.entry) }
{
    match arg {
        None => Some(&param.name),
        Some(name) => if is_fit(param.sort, look_up(visible, name)) {
            None
        } else {
            Some(name)
        },
    }
}

fn find_wrong_arg<'a>(
    visible: &[LocalDeclaration],
    param: &'a Param,
    arg: &'a Expr,
) -> Option<&'a Name>
    ensures { option_copied result ≡ wrong_arg visible.now param.now arg.now }
{
    if param.by_ref {
        find_wrong_ref(visible, param, find_bare(arg))
    } else {
        find_stream(visible, arg)
    }
}

#[tactic(auto, using(crate::proofs::Args::none_left))]
fn find_wrong_of_all<'a>(
    visible: &[LocalDeclaration],
    params: &'a [Param],
    args: &'a [Expr],
) -> Option<&'a Name>
    ensures { option_copied result ≡ wrong_in_all visible.now params.now args.now }
{
    let mut at = 0;
    while at < params.len() && at < args.len() {
        match find_wrong_arg(visible, &params[at], &args[at]) {
            Some(name) => return Some(name),
            None => {}
        }
        at += 1;
    }
    None
}

fn find_arity<'a>(call: &'a Call, callee: &Function) -> Option<&'a Name>
    ensures { option_copied result ≡ if_false call.now.function (nat_eq (length call.now.args) (length callee.now.params)) }
{
    if call.args.len() == callee.params.len() {
        None
    } else {
        Some(&call.function)
    }
}

// A call of the function that has the number `at`.
#[tactic(auto, using(crate::proofs::Seams::seam))]
fn resolve_known(
    alloc: Global,
    functions: &[Function],
    scope: &Scope,
    start: usize,
    line: u32,
    call: &Call,
    at: usize,
) -> Result<RCall, ScopeFault>
    requires count { IsNumber (length functions.now) }
    requires found { position (λ (f : Function). bytes_eq f.name call.now.function) functions.now ≡ Some at }
    ensures { Gives result (bind_known (function_of functions.now call.now.function) functions.now call.now line (around_of start scope.now) (before_of start scope.now)) }
{
    let callee = &functions[at];
    let throws = number_throws(
        alloc,
        scope.handled.as_slice(),
        line,
        callee.throws.as_slice(),
    )?;
    check(alloc, line, ScopeKind::Arity, find_arity(call, callee))?;
    check(
        alloc,
        line,
        ScopeKind::WrongKind,
        find_wrong_of_all(
            scope.visible.as_slice(),
            callee.params.as_slice(),
            call.args.as_slice(),
        ),
    )?;
    let args = resolve_exprs(alloc, scope.visible.as_slice(), call.args.as_slice())?;
    Ok(RCall {
        function: number(at),
        args,
        throws,
    })
}

#[tactic(auto, using(crate::proofs::Seams::seam, crate::proofs::Numbers::none_found))]
pub fn resolve_call(
    alloc: Global,
    functions: &[Function],
    names: &NameTable,
    scope: &Scope,
    start: usize,
    line: u32,
    call: &Call,
) -> Result<RCall, ScopeFault>
    requires { IsNumber (length functions.now) }
    ensures { Gives result (bind_call (whole functions.now names.now) call.now line (around_of start scope.now) (before_of start scope.now)) }
{
    check(
        alloc,
        line,
        ScopeKind::UnknownName,
        find_unknown_of_all(scope.visible.as_slice(), call.args.as_slice()),
    )?;
    match find_function_at(functions, &call.function) {
        Some(at) => resolve_known(alloc, functions, scope, start, line, call, at),
        None => Err(refuse(alloc, line, ScopeKind::UnknownFunction, &call.function)),
    }
}
