// The arguments of a call, each with its parameter.
ghost use Rattle.std.specs.Prelude.{◌≡◌, IfOk};
ghost use Rattle.shim_units.specs.Calls.{is_stream, lends, lends_first, behind_first, params_at, bare, paired_arguments};

use crate::found::Given;
use shim_base::{List, NoMemory};
use shim_scopes::{RFunction, UExpr, UParam};
use shim_syntax::Sort;
use std::alloc::Global;

pub fn is_stream(sort: Sort) -> bool
    ensures { result ≡ is_stream sort }
{
    match sort {
        Sort::Value(_) => false,
        Sort::Input => true,
        Sort::Output => true,
    }
}

// Whether the parameter takes its argument by reference; a parameter that is a stream always does.
fn is_lent(param: &UParam) -> bool
    ensures { result ≡ lends param.now }
{
    param.by_ref || is_stream(param.sort)
}

// Whether the first parameter takes its argument by reference; without parameters none does.
pub fn lends_first(params: &[UParam]) -> bool
    ensures { result ≡ lends_first params.now }
{
    match params {
        [] => false,
        [param, ..] => is_lent(param),
    }
}

/// The parameters after the first.
pub fn behind_first(params: &[UParam]) -> &[UParam]
    ensures { result.now ≡ behind_first params.now }
{
    match params {
        [] => params,
        [_, behind @ ..] => behind,
    }
}

/// A copy of some parameters.
pub fn copy_params(alloc: Global, params: &[UParam]) -> Result<List<UParam>, NoMemory>
    ensures { IfOk result (λ made. made ≡ params.now) }
{
    let mut made = List::with_capacity(alloc, params.len())?;
    for param in params {
        made.push(UParam {
            sort: param.sort,
            by_ref: param.by_ref,
            name: param.name,
        })?;
    }
    Ok(made)
}

/// The parameters of a function by its number.
pub fn params_at(functions: &[RFunction], number: u32) -> &[UParam]
    ensures { result.now ≡ params_at functions.now number }
{
    match functions.get(number as usize) {
        Some(function) => function.params.as_slice(),
        None => &[],
    }
}

// The variable that an expression is, where it is one.
#[tactic(auto, unfolding(crate::specs::Calls::bare))]
pub fn find_bare(expr: &UExpr) -> Option<u32>
    ensures { result ≡ bare expr.now }
{
    match expr {
        UExpr::Var(slot) => Some(*slot),
        _ => None,
    }
}

/// The arguments of a call, each as its parameter takes it.
pub fn give(alloc: Global, params: &[UParam], args: &[UExpr]) -> Result<List<Given>, NoMemory>
    ensures { IfOk result (λ made. made ≡ paired_arguments params.now args.now) }
{
    let mut made = List::new(alloc);
    let mut left = params;
    for arg in args {
        made.push(Given {
            lent: lends_first(left),
            bare: find_bare(arg),
        })?;
        left = behind_first(left);
    }
    Ok(made)
}
