// The first fork or call of a text that the sharing rule refuses.
ghost use Rattle.std.specs.Prelude.{◌≡◌, IfOk, Option};
ghost use Rattle.shim_sharing.specs.Sharing.{first_offence};
ghost use Rattle.shim_units.specs.Parts.{all_places};
ghost use Rattle.shim_units.specs.PartFold.{part, places_in, branch_part, branch_parts};

use crate::alias::find_alias;
use crate::fork::find_two_writers;
use crate::found::Offence;
use shim_base::NoMemory;
use shim_scopes::{RBranch, RBranchWhat, RFunction, RStmt, RWhat};
use shim_syntax::Sort;
use std::alloc::Global;

#[cycle(offence)]
#[tactic(auto, using(std::proofs::lemmas::Grind::common_steps, crate::proofs::Offences::refused_here, crate::proofs::Offences::refused_further))]
pub fn find_offence(
    alloc: Global,
    functions: &[RFunction],
    sorts: &[Sort],
    body: &[RStmt],
) -> Result<Option<Offence>, NoMemory>
    ensures { IfOk result (λ found. found ≡ first_offence sorts.now (places_in functions.now body.now)) }
{
    for stmt in body {
        match find_in_stmt(alloc, functions, sorts, stmt)? {
            Some(found) => return Ok(Some(found)),
            None => {}
        }
    }
    Ok(None)
}

#[cycle(offence)]
#[tactic(auto, using(std::proofs::lemmas::Grind::common_steps, crate::proofs::Offences::refused_here, crate::proofs::Offences::refused_further))]
fn find_in_stmt(
    alloc: Global,
    functions: &[RFunction],
    sorts: &[Sort],
    stmt: &RStmt,
) -> Result<Option<Offence>, NoMemory>
    ensures { IfOk result (λ found. found ≡ first_offence sorts.now ((part stmt.now).places functions.now)) }
{
    match &stmt.what {
        RWhat::If(_, first, other) => match find_offence(
            alloc,
            functions,
            sorts,
            first.as_slice(),
        )? {
            Some(found) => Ok(Some(found)),
            None => Ok(find_offence(alloc, functions, sorts, other.as_slice())?),
        },
        RWhat::While(_, body) => Ok(find_offence(alloc, functions, sorts, body.as_slice())?),
        RWhat::For(first, _, step, body) => match find_offence(
            alloc,
            functions,
            sorts,
            first.as_slice(),
        )? {
            Some(found) => Ok(Some(found)),
            None => match find_offence(alloc, functions, sorts, step.as_slice())? {
                Some(found) => Ok(Some(found)),
                None => Ok(find_offence(alloc, functions, sorts, body.as_slice())?),
            },
        },
        RWhat::Block(body) => Ok(find_offence(alloc, functions, sorts, body.as_slice())?),
        RWhat::Call(call) => Ok(find_alias(alloc, functions, call, stmt.line)?),
        RWhat::Try(body, _, _, handler) => match find_offence(
            alloc,
            functions,
            sorts,
            body.as_slice(),
        )? {
            Some(found) => Ok(Some(found)),
            None => Ok(find_offence(alloc, functions, sorts, handler.as_slice())?),
        },
        RWhat::Par(branches) => {
            let branches = branches.as_slice();
            let own = find_two_writers(alloc, functions, sorts, stmt.line, branches)?;
            match own {
                Some(found) => Ok(Some(found)),
                None => Ok(find_in_branches(alloc, functions, sorts, branches)?),
            }
        }
        _ => Ok(None),
    }
}

#[cycle(offence)]
#[tactic(auto, using(std::proofs::lemmas::Grind::common_steps, crate::proofs::Offences::refused_here, crate::proofs::Offences::refused_further))]
fn find_in_branches(
    alloc: Global,
    functions: &[RFunction],
    sorts: &[Sort],
    branches: &[RBranch],
) -> Result<Option<Offence>, NoMemory>
    ensures { IfOk result (λ found. found ≡ first_offence sorts.now (all_places functions.now (branch_parts branches.now))) }
{
    for branch in branches {
        match find_in_branch(alloc, functions, sorts, branch)? {
            Some(found) => return Ok(Some(found)),
            None => {}
        }
    }
    Ok(None)
}

#[cycle(offence)]
fn find_in_branch(
    alloc: Global,
    functions: &[RFunction],
    sorts: &[Sort],
    branch: &RBranch,
) -> Result<Option<Offence>, NoMemory>
    ensures { IfOk result (λ found. found ≡ first_offence sorts.now ((branch_part branch.now).places functions.now)) }
{
    match &branch.what {
        RBranchWhat::Block(body) => Ok(find_offence(alloc, functions, sorts, body.as_slice())?),
        RBranchWhat::Call(call) => Ok(find_alias(alloc, functions, call, branch.line)?),
    }
}
