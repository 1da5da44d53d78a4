// Where a process stands in the code that it runs, written down.
use crate::tell::{count, word};
use shim_base::{List, NoMemory};
use shim_code::{MachineInstr, MarkKind};
use shim_local::{Local, Stop};
use shim_vm::Body;

// Whether the mark of a `put` stands at this place of a list.
fn has_put(list: &[MachineInstr], place: usize) -> bool {
    matches!(list.get(place), Some(MachineInstr::Mark(mark)) if mark.kind == MarkKind::Put)
}

// Tells the place, and then, as `mark in N`, each unit N in whose list the mark of a `put` stands there.
fn tell_place(body: &Body, reply: &mut List<u8>) -> Result<(), NoMemory> {
    let place = body.place();
    count(reply, b"", place as u64)?;
    let machine = body.code().machine();
    for unit in 0..machine.len() {
        if has_put(machine[unit].as_slice(), place) {
            count(reply, b"mark in ", unit as u64)?;
        }
    }
    Ok(())
}

// Does a quiet step or puts a byte, and tells it. Of any other stop it tells `stop`, and answers `false`.
fn step<L: Local>(process: &mut L, reply: &mut List<u8>) -> Result<bool, NoMemory> {
    match process.stop() {
        Stop::Quiet => {
            let quiet = process.quiet(1);
            count(reply, b"q", quiet.taken)?;
            Ok(true)
        }
        Stop::Put => {
            match process.put() {
                Some(byte) => count(reply, b"put=", byte as u64)?,
                None => word(reply, b"put=none")?,
            }
            Ok(true)
        }
        _ => {
            word(reply, b"stop")?;
            Ok(false)
        }
    }
}

fn step_body(body: &mut Body, reply: &mut List<u8>) -> Result<bool, NoMemory> {
    step(body, reply)
}

/// Tells each place at which the process stands and the step from there, up to a stop that is neither a quiet step
/// nor a `put`; after 100 steps it tells `..`.
pub fn tell_places(body: &mut Body, reply: &mut List<u8>) -> Result<(), NoMemory> {
    for _ in 0..100 {
        tell_place(body, reply)?;
        if !step_body(body, reply)? {
            return Ok(());
        }
    }
    word(reply, b"..")
}
