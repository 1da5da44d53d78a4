// What stands in the header of a function.
ghost use Rattle.std.specs.Prelude.{◌≡◌, [], IfOk, length};
ghost use Rattle.std.specs.Option.{option_copied};
ghost use Rattle.shim_syntax.specs.Names.{param_names};
ghost use Rattle.shim_scopes.specs.Functions.{twice_after, handled_from, numbers_of, placed_params, suits_main, wrong_main};
ghost use Rattle.shim_scopes.specs.State.{IsOpened, IsNumber};
ghost use Rattle.shim_syntax.specs.Sizes.{function_size};

use crate::scope::{Bound, Handled, LocalDeclaration, Scope};
use crate::tree::UParam;
use crate::word::{find_in, number};
use shim_base::{List, Name, NoMemory};
use shim_syntax::word::copy;
use shim_syntax::{Function, NameTable, Param, Sort};
use std::alloc::Global;

// The first name that is the same as one before it in the list.
pub fn find_twice(names: &[Name]) -> Option<&Name>
    ensures { option_copied result ≡ twice_after [] names.now }
{
    for (at, name) in names.iter().enumerate() {
        match find_in(&names[..at], name) {
            Some(name) => return Some(name),
            None => {}
        }
    }
    None
}

pub fn copy_names(alloc: Global, params: &[Param]) -> Result<List<Name>, NoMemory>
    ensures { IfOk result (λ names. names ≡ param_names params.now) }
{
    let mut names = List::new(alloc);
    for param in params {
        names.push(copy(alloc, &param.name)?)?;
    }
    Ok(names)
}

pub fn number_names(alloc: Global, names: &NameTable, some: &[Name]) -> Result<List<u32>, NoMemory>
    requires { IsNumber (length names.now) }
    ensures { IfOk result (λ made. made ≡ numbers_of names.now some.now) }
{
    let mut made = List::new(alloc);
    for name in some {
        made.push(names.number(name))?;
    }
    Ok(made)
}

fn handle_all(alloc: Global, names: &[Name]) -> Result<List<Handled>, NoMemory>
    requires { IsNumber (length names.now) }
    ensures { IfOk result (λ made. made ≡ handled_from [] names.now) }
{
    let mut made = List::new(alloc);
    for name in names {
        made.push(Handled {
            name: copy(alloc, name)?,
            number: number(made.len()),
        })?;
    }
    Ok(made)
}

pub fn open_function(
    alloc: Global,
    names: &NameTable,
    function: &Function,
) -> Result<Scope, NoMemory>
    requires names { IsNumber (length names.now) }
    requires size { IsNumber (function_size function.now) }
    ensures { IfOk result (λ s. IsOpened names.now function.now s) }
{
    let mut visible = List::new(alloc);
    let mut slots = List::new(alloc);
    let mut slot_names = List::new(alloc);
    for param in function.params.as_slice() {
        visible.push(LocalDeclaration {
            name: copy(alloc, &param.name)?,
            bound: Bound {
                slot: number(slots.len()),
                sort: param.sort,
            },
        })?;
        slots.push(param.sort)?;
        slot_names.push(names.number(&param.name))?;
    }
    Ok(Scope {
        visible,
        handled: handle_all(alloc, function.throws.as_slice())?,
        throws: number(function.throws.len()),
        slots,
        slot_names,
        tries: List::new(alloc),
    })
}

pub fn resolve_params(
    alloc: Global,
    names: &NameTable,
    params: &[Param],
) -> Result<List<UParam>, NoMemory>
    requires { IsNumber (length names.now) }
    ensures { IfOk result (λ made. made ≡ placed_params names.now params.now) }
{
    let mut made = List::new(alloc);
    for param in params {
        made.push(UParam {
            sort: param.sort,
            by_ref: param.by_ref,
            name: names.number(&param.name),
        })?;
    }
    Ok(made)
}

// Whether these may be further parameters of `main`. `input` and `output` say which streams came before.
fn is_suited(input: bool, output: bool, params: &[Param]) -> bool
    ensures { result ≡ suits_main input output params.now }
{
    match params.split_first() {
        None => true,
        Some((param, more)) => match param.sort {
            Sort::Value(_) => false,
            Sort::Input => !input && is_suited(true, output, more),
            Sort::Output => !output && is_suited(input, true, more),
        },
    }
}

// The name of a function, where it is `main` and its parameters don't suit it.
pub fn find_wrong_main(function: &Function) -> Option<&Name>
    ensures { option_copied result ≡ wrong_main function.now }
{
    if function.name.as_bytes() != b"main".as_slice()
        || is_suited(false, false, function.params.as_slice())
    {
        None
    } else {
        Some(&function.name)
    }
}
