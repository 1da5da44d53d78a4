// What it costs to hand a process over, in quiet steps.
use shim_base::List;
use shim_code::{Code, MachineInstr};

/// The copies of its state, and the way to a worker and back.
const OWN: u64 = 150;

/// How many bytes of a text or of an input are compared in the time of a step.
const BYTES: u64 = 128;

fn instructions(units: &[List<MachineInstr>]) -> u64 {
    let mut count = 0u64;
    for unit in units {
        count = count.saturating_add(unit.len() as u64);
    }
    count
}

// Programs are compared by their texts, and by all that is in them where these aren't kept.
fn program_cost(code: &Code) -> u64 {
    match code.program().text() {
        Some(text) => text.len() as u64 / BYTES,
        None => instructions(code.machine()),
    }
}

/// What handing over a process of this code costs, which reads this input: a piece of its work that comes back
/// is compared with its start as a whole, program and input too.
pub fn hand_over_cost(code: &Code, input: &List<u8>) -> u64 {
    OWN.saturating_add(program_cost(code))
        .saturating_add(input.len() as u64 / BYTES)
}
