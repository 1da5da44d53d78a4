// The exceptions that a text throws or passes on, and what a unit has of its own.
ghost use Rattle.std.specs.Prelude.{◌≡◌, ◌++◌, IfOk, OnOk};
ghost use Rattle.shim_units.specs.Own.{some_slot};
ghost use Rattle.shim_units.specs.Parts.{all_raises};
ghost use Rattle.shim_units.specs.PartFold.{part, raises_in, declares_in, tries_in, branch_part, branch_parts};

use shim_base::{List, NoMemory};
use shim_scopes::{RBranch, RBranchWhat, RStmt, RWhat};
use std::alloc::Global;

// The exceptions that statements throw or pass on, in textual order.
#[cycle(raises)]
pub fn push_raises(raises: &mut List<u32>, body: &[RStmt]) -> Result<(), NoMemory>
    ensures { OnOk result (raises.new ≡ raises.old ++ raises_in body.now) }
{
    for stmt in body {
        push_raises_of(raises, stmt)?;
    }
    Ok(())
}

#[cycle(raises)]
fn push_raises_of(raises: &mut List<u32>, stmt: &RStmt) -> Result<(), NoMemory>
    ensures { OnOk result (raises.new ≡ raises.old ++ (part stmt.now).raises) }
{
    match &stmt.what {
        RWhat::If(_, first, other) => {
            push_raises(raises, first.as_slice())?;
            push_raises(raises, other.as_slice())?;
            Ok(())
        }
        RWhat::While(_, body) => push_raises(raises, body.as_slice()),
        RWhat::For(first, _, step, body) => {
            push_raises(raises, first.as_slice())?;
            push_raises(raises, step.as_slice())?;
            push_raises(raises, body.as_slice())?;
            Ok(())
        }
        RWhat::Block(body) => push_raises(raises, body.as_slice()),
        RWhat::Call(call) => raises.extend_from_slice(call.throws.as_slice()),
        RWhat::Try(body, _, _, handler) => {
            push_raises(raises, body.as_slice())?;
            push_raises(raises, handler.as_slice())?;
            Ok(())
        }
        RWhat::Throw(exception, _) => raises.push(*exception),
        RWhat::Par(branches) => push_raises_of_branches(raises, branches.as_slice()),
        _ => Ok(()),
    }
}

#[cycle(raises)]
fn push_raises_of_branches(raises: &mut List<u32>, branches: &[RBranch]) -> Result<(), NoMemory>
    ensures { OnOk result (raises.new ≡ raises.old ++ all_raises (branch_parts branches.now)) }
{
    for branch in branches {
        push_raises_of_branch(raises, branch)?;
    }
    Ok(())
}

#[cycle(raises)]
fn push_raises_of_branch(raises: &mut List<u32>, branch: &RBranch) -> Result<(), NoMemory>
    ensures { OnOk result (raises.new ≡ raises.old ++ (branch_part branch.now).raises) }
{
    match &branch.what {
        RBranchWhat::Block(body) => push_raises(raises, body.as_slice()),
        RBranchWhat::Call(call) => raises.extend_from_slice(call.throws.as_slice()),
    }
}

// The variable of a handler, where it has one.
fn push_variable(slots: &mut List<u32>, variable: &Option<u32>) -> Result<(), NoMemory>
    ensures { OnOk result (slots.new ≡ slots.old ++ some_slot variable.now) }
{
    match variable {
        None => Ok(()),
        Some(slot) => slots.push(*slot),
    }
}

/// The variables of declarations and of handlers in statements, without those in block branches, in textual order.
pub fn declares_in(alloc: Global, body: &[RStmt]) -> Result<List<u32>, NoMemory>
    ensures { IfOk result (λ made. made ≡ declares_in body.now) }
{
    let mut slots = List::new(alloc);
    push_declares(&mut slots, body)?;
    Ok(slots)
}

#[cycle(declares)]
fn push_declares(slots: &mut List<u32>, body: &[RStmt]) -> Result<(), NoMemory>
    ensures { OnOk result (slots.new ≡ slots.old ++ declares_in body.now) }
{
    for stmt in body {
        push_declares_of(slots, stmt)?;
    }
    Ok(())
}

#[cycle(declares)]
fn push_declares_of(slots: &mut List<u32>, stmt: &RStmt) -> Result<(), NoMemory>
    ensures { OnOk result (slots.new ≡ slots.old ++ (part stmt.now).declares) }
{
    match &stmt.what {
        RWhat::Declare(_, slot, _) => slots.push(*slot),
        RWhat::If(_, first, other) => {
            push_declares(slots, first.as_slice())?;
            push_declares(slots, other.as_slice())?;
            Ok(())
        }
        RWhat::While(_, body) => push_declares(slots, body.as_slice()),
        RWhat::For(first, _, step, body) => {
            push_declares(slots, first.as_slice())?;
            push_declares(slots, step.as_slice())?;
            push_declares(slots, body.as_slice())?;
            Ok(())
        }
        RWhat::Block(body) => push_declares(slots, body.as_slice()),
        RWhat::Try(body, _, variable, handler) => {
            push_declares(slots, body.as_slice())?;
            push_variable(slots, variable)?;
            push_declares(slots, handler.as_slice())?;
            Ok(())
        }
        _ => Ok(()),
    }
}

/// The exceptions of `try` statements, without those in block branches, in textual order.
pub fn tries_in(alloc: Global, body: &[RStmt]) -> Result<List<u32>, NoMemory>
    ensures { IfOk result (λ made. made ≡ tries_in body.now) }
{
    let mut exceptions = List::new(alloc);
    push_tries(&mut exceptions, body)?;
    Ok(exceptions)
}

#[cycle(tries)]
fn push_tries(exceptions: &mut List<u32>, body: &[RStmt]) -> Result<(), NoMemory>
    ensures { OnOk result (exceptions.new ≡ exceptions.old ++ tries_in body.now) }
{
    for stmt in body {
        push_tries_of(exceptions, stmt)?;
    }
    Ok(())
}

#[cycle(tries)]
fn push_tries_of(exceptions: &mut List<u32>, stmt: &RStmt) -> Result<(), NoMemory>
    ensures { OnOk result (exceptions.new ≡ exceptions.old ++ (part stmt.now).tries) }
{
    match &stmt.what {
        RWhat::If(_, first, other) => {
            push_tries(exceptions, first.as_slice())?;
            push_tries(exceptions, other.as_slice())?;
            Ok(())
        }
        RWhat::While(_, body) => push_tries(exceptions, body.as_slice()),
        RWhat::For(first, _, step, body) => {
            push_tries(exceptions, first.as_slice())?;
            push_tries(exceptions, step.as_slice())?;
            push_tries(exceptions, body.as_slice())?;
            Ok(())
        }
        RWhat::Block(body) => push_tries(exceptions, body.as_slice()),
        RWhat::Try(body, exception, _, handler) => {
            exceptions.push(*exception)?;
            push_tries(exceptions, body.as_slice())?;
            push_tries(exceptions, handler.as_slice())?;
            Ok(())
        }
        _ => Ok(()),
    }
}
