// The instructions of a unit's code, by their places.
ghost use Rattle.std.specs.Prelude.{◌≡◌, ◌<◌, MatchOption, length, slice_get};
ghost use Rattle.std.specs.Option.{option_copied};

use shim_code::MachineInstr;

/// The instruction at a place; `None` where the code ends before it.
pub fn instr_at(code: &[MachineInstr], place: usize) -> Option<&MachineInstr>
    ensures value { option_copied result ≡ slice_get code.now place }
    ensures within { MatchOption result (Unit {0}) (λ instr. place < length code.now) }
{
    code.get(place)
}
