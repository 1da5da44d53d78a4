// The code of a program's units, by their numbers.
ghost use Rattle.std.specs.Prelude.{◌≡◌, ◌≤◌, [], ◌∷◌, MatchOption, length};
ghost use Rattle.shim_code.specs.declared.machine_instr.MachineInstr.TheVariants.{End};
ghost use Rattle.shim_machine.specs.Machine.{codes_of};

use shim_code::{Code, MachineInstr};

/// The code of a unit. None where there is no such unit, which then has nothing to do.
pub fn code_of(code: &Code, unit: u32) -> Option<&[MachineInstr]>
    ensures { MatchOption result ((length code.now.units ≤ unit) × ((codes_of code.now unit).code ≡ End 0 ∷ [])) (λ instrs. instrs.now ≡ (codes_of code.now unit).code) }
{
    match code.machine().get(unit as usize) {
        Some(code) => Some(code.as_slice()),
        None => None,
    }
}
