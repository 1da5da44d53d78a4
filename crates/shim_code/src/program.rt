// The code of a whole program.
ghost use Rattle.std.specs.Prelude.{◌≡◌, IfOk};
ghost use Rattle.shim_code.specs.Code.{unit_code};
ghost use Rattle.shim_code.specs.Programs.{with_code};

use crate::code::Code;
use crate::published::published_all;
use crate::stmts::machine_unit;
use crate::unit::{CodeUnit, with_code};
use shim_base::{List, NoMemory};
use shim_units::{Accepted, Unit};
use std::alloc::Global;

/// The code of an accepted program. It fails only if memory runs out.
pub fn compile(alloc: Global, program: &Accepted) -> Result<Code, NoMemory>
    ensures { IfOk result (λ code. code ≡ program.now) }
{
    let kept = program.share()?;
    let units = program.units();
    let mut machine = List::with_capacity(alloc, units.len())?;
    for unit in units {
        machine.push(machine_unit(alloc, unit.body.as_slice(), units)?)?;
    }
    Ok(Code::new(kept, machine))
}

/// A unit with its code, whose calls are of these units.
pub fn code_unit(alloc: Global, unit: &Unit, units: &[Unit]) -> Result<CodeUnit, NoMemory>
    ensures { IfOk result (λ made. made ≡ with_code unit.now (unit_code unit.now.body)) }
{
    let machine = machine_unit(alloc, unit.body.as_slice(), units)?;
    let code = published_all(alloc, machine.as_slice())?;
    let made = with_code(alloc, unit, code)?;
    Ok(made)
}
