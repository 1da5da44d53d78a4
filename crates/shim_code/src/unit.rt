// A unit with its code.
ghost use Rattle.std.specs.Prelude.{◌≡◌, IfOk};
ghost use Rattle.shim_code.specs.Programs.{with_code};

use crate::instr::Instr;
use shim_base::{List, NoMemory};
use shim_scopes::UParam;
use shim_syntax::Sort;
use shim_units::{Unit, copy_params};
use std::alloc::Global;

/// A unit of a program, with a list of instructions in place of its statements.
#[derive(Drop)]
pub struct CodeUnit {
    pub title: List<u8>,
    pub params: List<UParam>,
    pub slots: List<Sort>,
    pub slot_names: List<u32>,
    /// How many exceptions it is given, which are the first ones.
    pub throws: u32,
    /// The names of its `try` statements, whose exceptions have the numbers after those that it is given.
    pub tries: List<u32>,
    pub code: List<Instr>,
}

/// The unit with these instructions.
pub fn with_code(alloc: Global, unit: &Unit, code: List<Instr>) -> Result<CodeUnit, NoMemory>
    ensures { IfOk result (λ made. made ≡ with_code unit.now code) }
{
    let title = List::from_slice(alloc, unit.title.as_slice())?;
    let params = copy_params(alloc, unit.params.as_slice())?;
    let slots = List::from_slice(alloc, unit.slots.as_slice())?;
    let slot_names = List::from_slice(alloc, unit.slot_names.as_slice())?;
    let tries = List::from_slice(alloc, unit.tries.as_slice())?;
    Ok(CodeUnit {
        title,
        params,
        slots,
        slot_names,
        throws: unit.throws,
        tries,
        code,
    })
}
