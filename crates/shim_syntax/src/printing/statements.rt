// The canonical text of statements.
ghost use Rattle.std.specs.Prelude.{◌≡◌, ◌++◌, OnOk, map, true};
ghost use Rattle.shim_syntax.specs.Printing.{all_pieces, block_pieces, branch_pieces, else_pieces, end_pieces, fork_pieces, par_pieces, part_pieces, stmt_shown, pieces_text, thrown_number_pieces, variable_pieces};

use super::expressions::{push_call, push_expr, push_first_value, push_test};
use super::words::{push_type, push_word};
use crate::tree::{Branch, BranchWhat, Expr, Stmt, What};
use shim_base::{List, Name, NoMemory};

// Whether a semicolon ends the statement.
fn has_semicolon(stmt: &Stmt) -> bool
    ensures { result ≡ (stmt_shown stmt.now).semicolon }
{
    match &stmt.what {
        What::If(_, _, _) | What::While(_, _) | What::For(_, _, _, _) => false,
        What::Block(_) | What::Try(_, _, _, _) | What::Par(_) => false,
        _ => true,
    }
}

fn push_end(text: &mut List<u8>, semicolon: bool) -> Result<(), NoMemory>
    ensures { OnOk result (text.new ≡ text.old ++ pieces_text (end_pieces semicolon)) }
{
    if semicolon {
        text.extend_from_slice(b";\n")
    } else {
        Ok(())
    }
}

// The variable of a handler, where it has one.
fn push_variable(text: &mut List<u8>, variable: &Option<Name>) -> Result<(), NoMemory>
    ensures { OnOk result (text.new ≡ text.old ++ pieces_text (variable_pieces variable.now)) }
{
    match variable {
        None => Ok(()),
        Some(name) => push_word(text, name),
    }
}

// The number of a throw in its parentheses, where it has one.
fn push_thrown_number(text: &mut List<u8>, number: &Option<Expr>) -> Result<(), NoMemory>
    ensures { OnOk result (text.new ≡ text.old ++ pieces_text (thrown_number_pieces number.now)) }
{
    match number {
        None => Ok(()),
        Some(number) => {
            text.extend_from_slice(b"( ")?;
            push_expr(text, number)?;
            text.extend_from_slice(b") ")
        }
    }
}

// A statement without the semicolon at its end.
#[cycle(statements)]
fn push_stmt(text: &mut List<u8>, stmt: &Stmt) -> Result<(), NoMemory>
    ensures { OnOk result (text.new ≡ text.old ++ pieces_text (stmt_shown stmt.now).pieces) }
{
    match &stmt.what {
        What::Declare(ty, name, value) => {
            push_type(text, *ty)?;
            push_word(text, name)?;
            push_first_value(text, value)
        }
        What::Assign(name, value) => {
            push_word(text, name)?;
            text.extend_from_slice(b"= ")?;
            push_expr(text, value)
        }
        What::Next(name) => {
            text.extend_from_slice(b"next ")?;
            push_word(text, name)
        }
        What::NextAssign(name, value) => {
            text.extend_from_slice(b"next ")?;
            push_word(text, name)?;
            text.extend_from_slice(b"= ")?;
            push_expr(text, value)
        }
        What::AssignNext(name, source) => {
            push_word(text, name)?;
            text.extend_from_slice(b"= next ")?;
            push_word(text, source)
        }
        What::Get(name, stream) => {
            push_word(text, name)?;
            text.extend_from_slice(b"= get ")?;
            push_word(text, stream)
        }
        What::Put(stream, value) => {
            text.extend_from_slice(b"put ")?;
            push_word(text, stream)?;
            text.extend_from_slice(b", ")?;
            push_expr(text, value)
        }
        What::If(test, first, other) => {
            text.extend_from_slice(b"if ( ")?;
            push_expr(text, test)?;
            text.extend_from_slice(b") ")?;
            push_block(text, first.as_slice())?;
            push_else(text, other.as_slice())
        }
        What::While(test, body) => {
            text.extend_from_slice(b"while ( ")?;
            push_expr(text, test)?;
            text.extend_from_slice(b") ")?;
            push_block(text, body.as_slice())
        }
        What::For(first, test, step, body) => {
            text.extend_from_slice(b"for ( ")?;
            push_part(text, first.as_slice())?;
            text.extend_from_slice(b"; ")?;
            push_test(text, test)?;
            text.extend_from_slice(b"; ")?;
            push_part(text, step.as_slice())?;
            text.extend_from_slice(b") ")?;
            push_block(text, body.as_slice())
        }
        What::Block(body) => push_block(text, body.as_slice()),
        What::Call(call) => push_call(text, call),
        What::Try(body, name, variable, handler) => {
            text.extend_from_slice(b"try ")?;
            push_block(text, body.as_slice())?;
            text.extend_from_slice(b"catch ( ")?;
            push_word(text, name)?;
            push_variable(text, variable)?;
            text.extend_from_slice(b") ")?;
            push_block(text, handler.as_slice())
        }
        What::Throw(name, number) => {
            text.extend_from_slice(b"throw ")?;
            push_word(text, name)?;
            push_thrown_number(text, number)
        }
        What::Par(branches) => push_fork(text, branches.as_slice()),
    }
}

#[cycle(statements)]
pub(super) fn push_block(text: &mut List<u8>, body: &[Stmt]) -> Result<(), NoMemory>
    ensures { OnOk result (text.new ≡ text.old ++ pieces_text (block_pieces (map stmt_shown body.now))) }
{
    text.extend_from_slice(b"{\n")?;
    push_all(text, body)?;
    text.extend_from_slice(b"}\n")
}

// `else` with its block, or nothing where the block has no statement.
#[cycle(statements)]
fn push_else(text: &mut List<u8>, body: &[Stmt]) -> Result<(), NoMemory>
    ensures { OnOk result (text.new ≡ text.old ++ pieces_text (else_pieces (map stmt_shown body.now))) }
{
    if body.is_empty() {
        return Ok(());
    }
    text.extend_from_slice(b"else ")?;
    push_block(text, body)
}

// Statements with their semicolons.
#[cycle(statements)]
fn push_all(text: &mut List<u8>, body: &[Stmt]) -> Result<(), NoMemory>
    ensures { OnOk result (text.new ≡ text.old ++ pieces_text (all_pieces (map stmt_shown body.now))) }
{
    for stmt in body {
        push_stmt(text, stmt)?;
        push_end(text, has_semicolon(stmt))?;
    }
    Ok(())
}

// The first statement or the step of a `for`.
#[cycle(statements)]
fn push_part(text: &mut List<u8>, part: &[Stmt]) -> Result<(), NoMemory>
    ensures { OnOk result (text.new ≡ text.old ++ pieces_text (part_pieces (map stmt_shown part.now))) }
{
    for stmt in part {
        push_stmt(text, stmt)?;
    }
    Ok(())
}

// `par` before each branch but the first of a fork.
fn push_par(text: &mut List<u8>, first: bool) -> Result<(), NoMemory>
    ensures { OnOk result (text.new ≡ text.old ++ pieces_text (par_pieces first)) }
{
    if first {
        Ok(())
    } else {
        text.extend_from_slice(b"par ")
    }
}

#[cycle(statements)]
fn push_fork(text: &mut List<u8>, branches: &[Branch]) -> Result<(), NoMemory>
    ensures { OnOk result (text.new ≡ text.old ++ pieces_text (fork_pieces true (map branch_pieces branches.now))) }
{
    let mut first = true;
    for branch in branches {
        push_par(text, first)?;
        push_branch(text, branch)?;
        first = false;
    }
    Ok(())
}

#[cycle(statements)]
fn push_branch(text: &mut List<u8>, branch: &Branch) -> Result<(), NoMemory>
    ensures { OnOk result (text.new ≡ text.old ++ pieces_text (branch_pieces branch.now)) }
{
    match &branch.what {
        BranchWhat::Block(body) => push_block(text, body.as_slice()),
        BranchWhat::Call(call) => {
            push_call(text, call)?;
            text.extend_from_slice(b";\n")
        }
    }
}
