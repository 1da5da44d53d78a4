// A program as one of version 2.
ghost use Rattle.std.specs.Prelude.{◌≡◌, IfOk, IsTrue, ◌↔◌};
ghost use Rattle.shim_syntax.specs.Distinct.{IsNew};
ghost use Rattle.shim_syntax.specs.Occurrences.{identifiers};
ghost use Rattle.shim_up.specs.Up.{IsLeastNew, IsUp, fresh_name, with_name_for_word};

use crate::renaming::copy_functions;
use shim_base::{List, Name, NoMemory, push_decimal};
use shim_syntax::{Function, NameTable, Program, names_of};
use std::alloc::Global;

/// The program in version 2. A program of version 2 stays as it is. In any other version the word of the
/// new type may be an identifier. It is replaced by `v` with the least number for which that is no
/// identifier of the program.
pub fn up(alloc: Global, program: &Program) -> Result<Program, NoMemory>
    ensures { IfOk result (λ q. IsUp program.now q) }
{
    if program.version == 2 {
        let word = Name::new(alloc, b"int64")?;
        return with_name(alloc, &word, program);
    }
    let number = least_new(alloc, program.functions.as_slice())?;
    let name = numbered_name(alloc, number)?;
    with_name(alloc, &name, program)
}

// The program in version 2, with this name for the word of the new type. With that word itself as the name it is a
// copy of a program of version 2.
fn with_name(alloc: Global, name: &Name, program: &Program) -> Result<Program, NoMemory>
    ensures { IfOk result (λ q. q ≡ with_name_for_word name.now program.now) }
{
    let functions = copy_functions(alloc, name, program.functions.as_slice())?;
    Ok(Program {
        version: 2,
        functions,
    })
}

// The least number whose name is no identifier in the functions.
fn least_new(alloc: Global, functions: &[Function]) -> Result<u64, NoMemory>
    ensures { IfOk result (λ number. IsLeastNew (identifiers functions.now) number) }
{
    let names = names_of(alloc, functions)?;
    let number = least_new_in(alloc, &names)?;
    Ok(number)
}

fn least_new_in(alloc: Global, names: &NameTable) -> Result<u64, NoMemory>
    ensures { IfOk result (λ number. IsLeastNew names.now number) }
{
    for number in 0..u64::MAX {
        let name = numbered_name(alloc, number)?;
        if is_new(names, &name) {
            return Ok(number);
        }
    }
    // No run comes here: the least number is at most the count of the names, each of which takes memory.
    Err(NoMemory)
}

fn is_new(names: &NameTable, name: &Name) -> bool
    ensures { IsTrue result ↔ IsNew name.now names.now }
{
    names.find(name).is_none()
}

// `v` and the number.
fn numbered_name(alloc: Global, number: u64) -> Result<Name, NoMemory>
    ensures { IfOk result (λ name. name ≡ fresh_name number) }
{
    let mut text = List::new(alloc);
    text.push(b'v')?;
    push_decimal(&mut text, number)?;
    Name::new(alloc, text.as_slice())
}
