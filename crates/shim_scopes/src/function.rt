// Functions.
ghost use Rattle.std.specs.Prelude.{[], Ok, length};
ghost use Rattle.shim_scopes.specs.Bodies.{bind_stmts};
ghost use Rattle.shim_scopes.specs.Functions.{bind_function, bind_functions, function_begin, handled_from, made_function, params_from};
ghost use Rattle.shim_scopes.specs.Refusals.{Gives, and_then};
ghost use Rattle.shim_scopes.specs.State.{AreNumbers, IsNumber, whole};
ghost use Rattle.shim_syntax.specs.Sizes.{function_size, functions_size};

use crate::check::check;
use crate::fault::{ScopeFault, ScopeKind};
use crate::header::{
    copy_names, find_twice, find_wrong_main, number_names, open_function, resolve_params,
};
use crate::stmt::resolve_body;
use crate::tree::RFunction;
use crate::word::find_in;
use shim_base::{List, Name};
use shim_syntax::word::copy;
use shim_syntax::{Function, NameTable};
use std::alloc::Global;

// The form of a function whose header isn't refused, or the first place in its body that is refused.
fn resolve_inside(
    alloc: Global,
    functions: &[Function],
    names: &NameTable,
    function: &Function,
) -> Result<RFunction, ScopeFault>
    requires few { AreNumbers (whole functions.now names.now) }
    requires size { IsNumber (function_size function.now) }
    ensures { Gives result (and_then (bind_stmts (whole functions.now names.now) function.now.body (record { outer = []; handled = handled_from [] function.now.throws; throws = length function.now.throws }) (params_from names.now function_begin function.now.params)) (λ r. Ok (made_function (whole functions.now names.now) function.now r))) }
{
    let mut scope = open_function(alloc, names, function)?;
    let body = function.body.as_slice();
    let body = resolve_body(alloc, functions, names, &mut scope, 0, body)?;
    let name = names.number(&function.name);
    let params = resolve_params(alloc, names, function.params.as_slice())?;
    let throws = number_names(alloc, names, function.throws.as_slice())?;
    Ok(RFunction {
        line: function.line,
        name,
        params,
        slots: scope.slots,
        slot_names: scope.slot_names,
        throws,
        tries: scope.tries,
        body,
    })
}

#[tactic(auto, unfolding(crate::specs::Functions::bind_function))]
fn resolve_function(
    alloc: Global,
    functions: &[Function],
    names: &NameTable,
    earlier: &[Name],
    function: &Function,
) -> Result<RFunction, ScopeFault>
    requires few { AreNumbers (whole functions.now names.now) }
    requires size { IsNumber (function_size function.now) }
    ensures { Gives result (bind_function (whole functions.now names.now) earlier.now function.now) }
{
    let line = function.line;
    check(
        alloc,
        line,
        ScopeKind::Twice,
        find_in(earlier, &function.name),
    )?;
    let param_names = copy_names(alloc, function.params.as_slice())?;
    check(
        alloc,
        line,
        ScopeKind::Twice,
        find_twice(param_names.as_slice()),
    )?;
    check(
        alloc,
        line,
        ScopeKind::Twice,
        find_twice(function.throws.as_slice()),
    )?;
    check(
        alloc,
        line,
        ScopeKind::MainParameters,
        find_wrong_main(function),
    )?;
    resolve_inside(alloc, functions, names, function)
}

#[tactic(auto, using(crate::proofs::Joins::one_bound))]
pub fn resolve_functions(
    alloc: Global,
    functions: &[Function],
    names: &NameTable,
) -> Result<List<RFunction>, ScopeFault>
    requires few { AreNumbers (whole functions.now names.now) }
    requires size { IsNumber (functions_size functions.now) }
    ensures { Gives result (bind_functions (whole functions.now names.now) [] functions.now) }
{
    let mut made = List::new(alloc);
    let mut earlier = List::new(alloc);
    for function in functions {
        made.push(resolve_function(alloc, functions, names, earlier.as_slice(), function)?)?;
        earlier.push(copy(alloc, &function.name)?)?;
    }
    Ok(made)
}
