// Texts that are journals, read and written again.
use shim_base::{List, NoMemory, push_decimal};
use shim_replay::{JournalFault, journal_text, read_journal};
use std::alloc::Global;

// The line that is the first faulty one.
fn malformed(alloc: Global, line: u32) -> Result<List<u8>, NoMemory> {
    let mut reply = List::from_slice(alloc, b"malformed ".as_slice())?;
    push_decimal(&mut reply, line as u64)?;
    reply.push(b'\n')?;
    Ok(reply)
}

/// The journal that was read from a text, written again, or its first faulty line; nothing for a text of 2^32 - 1
/// bytes or more.
#[tactic(auto, using(shim_replay::proofs::InRange::feeds_within))]
pub fn journal_of(alloc: Global, text: &[u8]) -> Result<Option<List<u8>>, NoMemory> {
    if text.len() >= 4294967295 {
        return Ok(None);
    }
    match read_journal(alloc, text) {
        Ok(journal) => {
            let again = journal_text(alloc, journal.budget, journal.entries.as_slice())?;
            Ok(Some(again))
        }
        Err(JournalFault::Malformed { line }) => Ok(Some(malformed(alloc, line)?)),
        Err(JournalFault::NoMemory) => Err(NoMemory),
    }
}
