// A whole program.
ghost use Rattle.std.specs.Prelude.{◌≡◌, length};
ghost use Rattle.shim_scopes.specs.Functions.{main_of, bind_program};
ghost use Rattle.shim_syntax.specs.ShortText.{HasText};
ghost use Rattle.shim_scopes.specs.Refusals.{Gives};
ghost use Rattle.shim_scopes.specs.State.{IsNumber};
ghost use Rattle.shim_syntax.specs.Sizes.{functions_size};

use crate::call::find_function_at;
use crate::check::refuse;
use crate::fault::{ScopeFault, ScopeKind};
use crate::form::Form;
use crate::function::resolve_functions;
use crate::resolved::{Resolved, from_form};
use crate::word::number;
use shim_base::Name;
use shim_syntax::{Function, Program, names_of};
use std::alloc::Global;

#[tactic(auto, using(crate::proofs::Numbers::found_within))]
fn find_main(alloc: Global, functions: &[Function]) -> Result<u32, ScopeFault>
    requires { IsNumber (length functions.now) }
    ensures { Gives result (main_of functions.now) }
{
    let word = Name::new(alloc, b"main".as_slice())?;
    match find_function_at(functions, &word) {
        Some(main) => Ok(number(main)),
        None => Err(refuse(alloc, 1, ScopeKind::NoMain, &word)),
    }
}

// The resolved form of a program, or its first place that is refused. The size of the program fits a
// number of the tree, and the program needn't have a text.
#[tactic(auto, using(shim_syntax::proofs::OccurrenceSizes::names_few, shim_syntax::proofs::OccurrenceSizes::functions_counted))]
pub fn form_of(alloc: Global, program: &Program) -> Result<Form, ScopeFault>
    requires { IsNumber (functions_size program.now.functions) }
    ensures { Gives result (bind_program program.now) }
{
    let functions = program.functions.as_slice();
    let names = names_of(alloc, functions)?;
    let resolved = resolve_functions(alloc, functions, &names)?;
    let main = find_main(alloc, functions)?;
    Ok(Form {
        functions: resolved,
        names: names.into_list(),
        main,
    })
}

/// The program with its names as numbers, or the first place that is refused. Functions come in
/// textual order, each header before its statements; a missing `main` comes last. A statement's own
/// names and expressions come before the statements in it. They are asked about in the order of
/// `ScopeKind`, and for one kind from the left. `NoMemory` may come in place of any answer.
#[tactic(auto, using(shim_syntax::proofs::ByteSizes::size_is_bounded))]
pub fn resolve(alloc: Global, program: &Program) -> Result<Resolved, ScopeFault>
    requires { HasText program.now }
    ensures { Gives result (bind_program program.now) }
{
    let form = form_of(alloc, program)?;
    Ok(from_form(form))
}
