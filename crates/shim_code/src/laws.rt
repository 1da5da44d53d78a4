// Laws of code.
ghost use Rattle.std.specs.Prelude.{◌≡◌, ℕ, ◌+◌, ◌++◌, List};
ghost use Rattle.shim_units.specs.Numbering.{size_of};
ghost use Rattle.shim_units.specs.declared.unit.UStmt.{UStmt};
ghost use Rattle.shim_units.specs.declared.unit.Unit.{Unit as UnitOf};
ghost use Rattle.shim_code.specs.Code.{unit_code};
ghost use Rattle.shim_code.specs.MachineCode.{machine_stmt, machine_unit, numbered, statements_in};
ghost use Rattle.shim_code.specs.declared.machine_instr.MachineInstr.{MachineInstr};
ghost use Rattle.shim_code.specs.Published.{published_all};

/// What the machine runs for a unit is the unit's code with more operands. Without these operands it is the unit's
/// code, instruction by instruction, whatever units there are.
pub fn machine_runs_the_code()
    ensures { (units : List UnitOf) (body : List UStmt) → published_all (machine_unit units body) ≡ unit_code body }
{}

/// In what the machine runs for a statement, at whatever place, as many statements begin as that statement has
/// numbers.
pub fn marks_are_as_many_as_numbers()
    ensures { (units : List UnitOf) (s : UStmt) (place : ℕ) → statements_in (machine_stmt units s place) ≡ size_of s }
{}

/// The marks of a piece of code are numbered on from those before it.
pub fn marks_are_numbered_on()
    ensures { (n : ℕ) (before code : List MachineInstr) → numbered n (before ++ code) ≡ numbered n before ++ numbered (n + statements_in before) code }
{}
