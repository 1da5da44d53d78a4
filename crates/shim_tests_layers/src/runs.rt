// Why programs are blocked, and journals, as words of a case ask for them.
use shim_base::{List, NoMemory};
use shim_tests_runs::{Change, Why, journal_of, why_of};
use std::alloc::Global;

fn change_of(word: &str) -> Option<Change> {
    match word {
        "nothing" => Some(Change::Nothing),
        "turned" => Some(Change::Turned),
        "backwards" => Some(Change::Backwards),
        "one-path" => Some(Change::OnePath),
        "exchanged" => Some(Change::ExchangedBy),
        "missing" => Some(Change::Missing),
        "doubled" => Some(Change::Doubled),
        "other" => Some(Change::OfOther),
        "channel" => Some(Change::OtherChannel),
        _ => None,
    }
}

/// `explained FILE`: the explanation of a source that is blocked.
pub fn explained(alloc: Global, source: Option<&[u8]>) -> Result<Option<List<u8>>, NoMemory> {
    match source {
        Some(source) => why_of(alloc, source, Why::Explained),
        None => Ok(None),
    }
}

/// `holds CHANGE FILE`: whether that explanation holds with a change of this name.
pub fn holding(
    alloc: Global,
    change: &str,
    source: Option<&[u8]>,
) -> Result<Option<List<u8>>, NoMemory> {
    let Some(change) = change_of(change) else {
        return Ok(None);
    };
    match source {
        Some(source) => why_of(alloc, source, Why::Holds(change)),
        None => Ok(None),
    }
}

/// `journal FILE`: the journal, read and written again, or its first faulty line.
pub fn journal(alloc: Global, text: Option<&[u8]>) -> Result<Option<List<u8>>, NoMemory> {
    match text {
        Some(text) => journal_of(alloc, text),
        None => Ok(None),
    }
}
