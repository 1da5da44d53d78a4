// How a unit goes on from a place in its code to where it resumes, past jumps and the ends of `try`
// blocks.
ghost use Rattle.std.specs.Prelude.{◌≡◌, ◌∷◌, ℕ, Bool, true, List as ListOf, length, slice_get};
ghost use Rattle.std.specs.Option.{option_copied};
ghost use Rattle.shim_units.specs.declared.unit.UStmt.{UStmt};
ghost use Rattle.shim_process.specs.Todo.{Do, Item};
ghost use Rattle.shim_machine.specs.Machine.{CodedUnit};
ghost use Rattle.shim_machine.specs.Correspondence.{AtHalf, IsCodeOf};
ghost use Rattle.shim_vm.specs.declared.resuming.Rest.TheVariants as rest;
ghost use Rattle.shim_vm.specs.declared.resuming.ResumePoint.TheVariants.{At};
ghost use Rattle.shim_vm.specs.Resuming.{ResumesFor, is_unit_over, resume_step};

use crate::instrs::instr_at;
use shim_code::MachineInstr;

/// What an instruction is to a process that goes on.
#[derive(Clone, Copy, PartialEq, Eq)]
pub enum Rest {
    /// A statement of this number begins, or its second part.
    Mark(u32, bool),
    Jump(u32),
    /// The innermost exception place goes out of force.
    Untry,
    /// The unit is over.
    End,
}

/// Where a unit goes on, and how many of its exception places are in force then, the outermost ones.
#[derive(Clone, Copy, PartialEq, Eq)]
pub enum ResumePoint {
    /// At the mark at this place, of the statement of this number, or of its second part.
    At(usize, u32, bool, usize),
    /// The unit is over at this place.
    Over(usize, usize),
}

/// What an instruction does with a process on its way to rest; none counts as the end of the unit.
pub fn rest_of(instr: Option<&MachineInstr>) -> Rest
    ensures { result ≡ resume_step (option_copied instr.entry) }
{
    match instr {
        Some(MachineInstr::Mark(mark)) => Rest::Mark(mark.number, mark.halfway),
        Some(MachineInstr::Jump(place)) => Rest::Jump(*place),
        Some(MachineInstr::Untry) => Rest::Untry,
        _ => Rest::End,
    }
}

// At the mark of a loop, to which a jump leads back.
fn back_at(code: &[MachineInstr], place: usize, kept: usize) -> ResumePoint
    ensures { (number : ℕ) (halfway : Bool) → resume_step (slice_get code.now place) ≡ rest.Mark number halfway → result ≡ At place number halfway kept }
{
    match rest_of(instr_at(code, place)) {
        Rest::Mark(number, halfway) => ResumePoint::At(place, number, halfway, kept),
        _ => ResumePoint::Over(place, kept),
    }
}

/// Where a unit comes to rest. The place is one at which what it has still to do begins, or the second mark of a
/// statement. `many` of the unit's exception places are in force there.
pub fn skip_jumps(code: &[MachineInstr], place: usize, many: usize) -> ResumePoint
    ensures on { (u : CodedUnit) (k : ListOf Item) → u.code ≡ code.now → IsCodeOf u place k → ResumesFor u k many result }
    ensures half { (u : CodedUnit) (n : ℕ) (s : UStmt) (k : ListOf Item) → u.code ≡ code.now → AtHalf u place (Do n s ∷ k) → result ≡ At place n true many }
{
    let mut place = place;
    let mut kept = many;
    while place < code.len() {
        match rest_of(instr_at(code, place)) {
            Rest::Mark(number, halfway) => return ResumePoint::At(place, number, halfway, kept),
            Rest::Jump(to) if place < to as usize => place = to as usize,
            Rest::Jump(to) => return back_at(code, to as usize, kept),
            Rest::Untry => {
                kept = kept.saturating_sub(1);
                place += 1;
            }
            Rest::End => return ResumePoint::Over(place, kept),
        }
    }
    ResumePoint::Over(place, kept)
}

impl ResumePoint {
    /// Whether the unit is over.
    pub fn is_over(self) -> bool
        ensures { result ≡ is_unit_over self }
    {
        match self {
            ResumePoint::At(_, _, _, _) => false,
            ResumePoint::Over(_, _) => true,
        }
    }
}
