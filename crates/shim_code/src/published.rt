// The code of a unit as it is shown: without what only running it takes.
ghost use Rattle.std.specs.Prelude.{◌≡◌, IfOk};
ghost use Rattle.shim_code.specs.Published.{published, published_all};

use crate::instr::Instr;
use crate::machine_instr::MachineInstr;
use shim_base::{List, NoMemory};
use std::alloc::Global;

fn published(alloc: Global, instr: &MachineInstr) -> Result<Instr, NoMemory>
    ensures { IfOk result (λ made. made ≡ published instr.now) }
{
    Ok(match instr {
        MachineInstr::Mark(mark) => Instr::Mark(mark.kind, mark.line),
        MachineInstr::Num(number) => Instr::Num(*number),
        MachineInstr::Var(slot) => Instr::Var(*slot),
        MachineInstr::Un(op) => Instr::Un(*op),
        MachineInstr::Bin(op) => Instr::Bin(*op),
        MachineInstr::Bool => Instr::Bool,
        MachineInstr::Jump(place) => Instr::Jump(*place),
        MachineInstr::JumpZ(place) => Instr::JumpZ(*place),
        MachineInstr::Declare(_, slot) => Instr::Declare(*slot),
        MachineInstr::Set(slot) => Instr::Set(*slot),
        MachineInstr::Get(slot) => Instr::Get(*slot),
        MachineInstr::Put(slot) => Instr::Put(*slot),
        MachineInstr::Next(slot) => Instr::Next(*slot),
        MachineInstr::Ref(slot) => Instr::Ref(*slot),
        MachineInstr::Pass(slot, _) => Instr::Pass(*slot),
        MachineInstr::Fresh(_, _) => Instr::Fresh,
        MachineInstr::Call(callee) => {
            let throws = List::from_slice(alloc, callee.throws.as_slice())?;
            Instr::Call(callee.unit, callee.args, throws)
        }
        MachineInstr::Branch(callee) => {
            let throws = List::from_slice(alloc, callee.throws.as_slice())?;
            Instr::Branch(callee.unit, callee.args, throws)
        }
        MachineInstr::Fork(many) => Instr::Fork(*many),
        MachineInstr::Try(place, exception) => Instr::Try(*place, *exception, None),
        MachineInstr::TryInto(place, exception, slot) => Instr::Try(
            *place,
            *exception,
            Some(*slot),
        ),
        MachineInstr::Untry => Instr::Untry,
        MachineInstr::Throw(exception) => Instr::Throw(*exception),
        MachineInstr::End(_) => Instr::End,
    })
}

/// The instructions of the machine, each as it is shown.
pub fn published_all(alloc: Global, code: &[MachineInstr]) -> Result<List<Instr>, NoMemory>
    ensures { IfOk result (λ made. made ≡ published_all code.now) }
{
    let mut made = List::with_capacity(alloc, code.len())?;
    for instr in code {
        made.push(published(alloc, instr)?)?;
    }
    Ok(made)
}
