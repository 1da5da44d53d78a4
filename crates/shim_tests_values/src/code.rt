// What code keeps beside its listing, written down.
use crate::tell::{count, word};
use shim_base::{List, NoMemory};
use shim_code::{Code, CodeUnit, Instr, MachineInstr, code_unit};
use shim_units::Unit;

// Adds a line with a unit's list for the machine.
fn tell_list(list: &[MachineInstr], reply: &mut List<u8>) -> Result<(), NoMemory> {
    let alloc = reply.allocator();
    let text = format!(in alloc; "\n{list:?}")?;
    reply.extend_from_slice(text.as_bytes())
}

/// Tells how many units the program of the code has, which is `main`, and on a line for each the list for the
/// machine.
pub fn tell_code(code: &Code, reply: &mut List<u8>) -> Result<(), NoMemory> {
    count(reply, b"units ", code.program().units().len() as u64)?;
    count(reply, b"main ", code.main() as u64)?;
    for list in code.machine() {
        tell_list(list.as_slice(), reply)?;
    }
    Ok(())
}

// The exceptions that an instruction hands on, if it is a call or a branch.
fn handed(instr: &Instr) -> Option<&[u32]> {
    match instr {
        Instr::Call(_, _, throws) => Some(throws.as_slice()),
        Instr::Branch(_, _, throws) => Some(throws.as_slice()),
        _ => None,
    }
}

fn tell_numbers(numbers: &[u32], reply: &mut List<u8>) -> Result<(), NoMemory> {
    for number in numbers {
        count(reply, b"", *number as u64)?;
    }
    Ok(())
}

// Tells the place of each call and branch of a unit, with what it hands on, as in `5: 1 2, 6: 0,`.
fn tell_handed(unit: &CodeUnit, reply: &mut List<u8>) -> Result<(), NoMemory> {
    let code = unit.code.as_slice();
    for place in 0..code.len() {
        if let Some(throws) = handed(&code[place]) {
            count(reply, b"", place as u64)?;
            reply.extend_from_slice(b":")?;
            tell_numbers(throws, reply)?;
            reply.extend_from_slice(b",")?;
        }
    }
    Ok(())
}

/// Tells what each call and branch of each unit hands on, after the word `unit` and the unit's number.
pub fn tell_throws(units: &[Unit], reply: &mut List<u8>) -> Result<(), NoMemory> {
    let alloc = reply.allocator();
    for number in 0..units.len() {
        count(reply, b"unit ", number as u64)?;
        let unit = code_unit(alloc, &units[number], units)?;
        tell_handed(&unit, reply)?;
    }
    Ok(())
}
