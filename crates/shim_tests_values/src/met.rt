// Whether two states are the same after a rendezvous, written down.
use crate::source::told_same;
use crate::tell::word;
use shim_base::{List, NoMemory};
use shim_local::{Local, Stop};

// Gives the process this value if it stands at a rendezvous.
fn meet<L: Local>(process: &mut L, value: i64) {
    if let Stop::Next(_) = process.stop() {
        process.receive(value);
    }
}

/// Gives `value` to the process and `other` to its copy, if it stands at a rendezvous. Then tells whether the two are
/// the same.
pub fn tell_met<L: Local>(
    process: &mut L,
    value: i64,
    other: i64,
    reply: &mut List<u8>,
) -> Result<(), NoMemory> {
    let mut copy = process.copy()?;
    meet(process, value);
    meet(&mut copy, other);
    word(reply, told_same(process, &copy))
}
