// The canonical text of a program.
ghost use Rattle.std.specs.Prelude.{◌≡◌, ℕ, List as ListOf, ◌++◌, OnOk, IfOk};
ghost use Rattle.shim_syntax.specs.Printing.{pieces_text, canonical, header_pieces, function_pieces, functions_pieces, params_pieces, more_params_pieces, param_pieces, throws_pieces, more_throws_pieces};
ghost use Rattle.shim_syntax.specs.Same.{IsTextOfSame};
ghost use Rattle.shim_syntax.specs.Text.{IsText};

mod expressions;
mod statements;
mod words;

use crate::tree::{Function, Param, Program};
use shim_base::{List, Name, NoMemory};
use statements::push_block;
use std::alloc::Global;
use words::{push_sort, push_word};

/// The canonical text of a program: a space or a line feed after each token, bodies in braces, and
/// no parentheses but those that are needed. Of a program that has a text it is a text, too: it is
/// read as the same program but for lines, within the limits.
pub fn print(alloc: Global, program: &Program) -> Result<List<u8>, NoMemory>
    ensures canonical { IfOk result (λ text. text ≡ canonical program.now) }
    ensures again { (bytes : ListOf ℕ) → IsText bytes program.now → IfOk result (λ text. IsTextOfSame program.now text) }
{
    let mut text = List::new(alloc);
    push_header(&mut text, program.version)?;
    push_functions(&mut text, program.functions.as_slice())?;
    Ok(text)
}

// A text of version 1 has no header.
fn push_header(text: &mut List<u8>, version: u32) -> Result<(), NoMemory>
    ensures { OnOk result (text.new ≡ text.old ++ pieces_text (header_pieces version)) }
{
    if version == 2 {
        text.extend_from_slice(b"shim 2 ;\n")?;
    }
    Ok(())
}

fn push_functions(text: &mut List<u8>, functions: &[Function]) -> Result<(), NoMemory>
    ensures { OnOk result (text.new ≡ text.old ++ pieces_text (functions_pieces functions.now)) }
{
    for function in functions {
        push_function(text, function)?;
    }
    Ok(())
}

fn push_function(text: &mut List<u8>, function: &Function) -> Result<(), NoMemory>
    ensures { OnOk result (text.new ≡ text.old ++ pieces_text (function_pieces function.now)) }
{
    text.extend_from_slice(b"void ")?;
    push_word(text, &function.name)?;
    text.extend_from_slice(b"( ")?;
    push_params(text, function.params.as_slice())?;
    text.extend_from_slice(b") ")?;
    push_throws(text, function.throws.as_slice())?;
    push_block(text, function.body.as_slice())
}

fn push_params(text: &mut List<u8>, params: &[Param]) -> Result<(), NoMemory>
    ensures { OnOk result (text.new ≡ text.old ++ pieces_text (params_pieces params.now)) }
{
    match params.split_first() {
        None => Ok(()),
        Some((param, more)) => {
            push_param(text, param)?;
            push_more_params(text, more)
        }
    }
}

fn push_more_params(text: &mut List<u8>, params: &[Param]) -> Result<(), NoMemory>
    ensures { OnOk result (text.new ≡ text.old ++ pieces_text (more_params_pieces params.now)) }
{
    for param in params {
        text.extend_from_slice(b", ")?;
        push_param(text, param)?;
    }
    Ok(())
}

fn push_param(text: &mut List<u8>, param: &Param) -> Result<(), NoMemory>
    ensures { OnOk result (text.new ≡ text.old ++ pieces_text (param_pieces param.now)) }
{
    push_sort(text, param.sort)?;
    if param.by_ref {
        text.extend_from_slice(b"& ")?;
    }
    push_word(text, &param.name)
}

fn push_throws(text: &mut List<u8>, throws: &[Name]) -> Result<(), NoMemory>
    ensures { OnOk result (text.new ≡ text.old ++ pieces_text (throws_pieces throws.now)) }
{
    match throws.split_first() {
        None => Ok(()),
        Some((exception, more)) => {
            text.extend_from_slice(b"throws ")?;
            push_word(text, exception)?;
            push_more_throws(text, more)
        }
    }
}

fn push_more_throws(text: &mut List<u8>, throws: &[Name]) -> Result<(), NoMemory>
    ensures { OnOk result (text.new ≡ text.old ++ pieces_text (more_throws_pieces throws.now)) }
{
    for exception in throws {
        text.extend_from_slice(b", ")?;
        push_word(text, exception)?;
    }
    Ok(())
}
