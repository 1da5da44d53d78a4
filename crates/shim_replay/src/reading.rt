// Reads the text of a journal.
ghost use Rattle.std.specs.Prelude.{◌≡◌, ◌<◌, ◌≤◌, IfOk, []};
ghost use Rattle.std.specs.List.{All};
ghost use Rattle.shim_replay.specs.Entries.{entry_of, entries_of, IsUnnamed};
ghost use Rattle.shim_replay.specs.Scanning as lists;
ghost use Rattle.shim_replay.specs.Scanning.{ReadsAs, ReadsTextAs};
ghost use Rattle.shim_laws_journals.specs.Ranges.{IsInRange, steps_in};
ghost use Rattle.shim_replay.specs.JournalTexts.{line_feeds};
ghost use Rattle.shim_replay.specs.Answers.{ReadAnswers};

use crate::entry_line::scan_entry;
use crate::fault::{JournalFault, ReadFault, TextFault};
use crate::journal::{Journal, steps_in};
use crate::numbers::{STEP_LIMIT, scan_count, scan_word};
use crate::recent_paths::RecentPaths;
use itoa::Buffer;
use shim_base::{List, NoMemory};
use shim_run_log::Entry;
use std::alloc::Global;

#[tactic(auto, unfolding(crate::specs::Scanning::scan_budget))]
fn scan_budget(bytes: &[u8]) -> Result<(u64, &[u8]), ReadFault>
    ensures is { ReadsAs (λ x. (x.0, x.1.now)) result (lists.scan_budget bytes.now) }
{
    let behind = scan_word(b"journal ", bytes)?;
    let (budget, rest) = scan_count(STEP_LIMIT, behind)?;
    let rest = scan_word(b"\n", rest)?;
    Ok((budget, rest))
}

// The bytes after the sum of steps and the line feed of the last line.
fn scan_steps_line(sum: u64, bytes: &[u8]) -> Result<&[u8], ReadFault>
    ensures { ReadsAs (λ x. x.now) result (lists.scan_steps_line sum bytes.now) }
{
    let mut buffer = Buffer::new();
    let behind = scan_word(buffer.format(sum).as_bytes(), bytes)?;
    scan_word(b"\n", behind)
}

// Whether the last line is right, and nothing follows it; else the fault, with its line.
fn scan_stop(line: u64, sum: u64, bytes: &[u8]) -> Result<(), TextFault>
    requires { line < 4294967298 }
    ensures { ReadsTextAs (λ u. []) result (lists.scan_stop line sum bytes.now) }
{
    match scan_steps_line(sum, bytes) {
        Ok(rest) if rest.is_empty() => Ok(()),
        Ok(_) => Err(TextFault::Malformed(line + 1)),
        Err(ReadFault::Malformed) => Err(TextFault::Malformed(line)),
        Err(ReadFault::NoMemory) => Err(TextFault::NoMemory),
    }
}

// The line of an entry, which has this number.
fn scan_line<'a>(
    recent: &mut RecentPaths,
    line: u64,
    bytes: &'a [u8],
) -> Result<(Entry, &'a [u8]), TextFault>
    ensures is { ReadsTextAs (λ x. (entry_of x.0, x.1.now)) result (lists.ok_or_line line (lists.scan_entry bytes.now)) }
    ensures name { IfOk result (λ x. IsUnnamed x.0) }
    ensures few { IfOk result (λ x. steps_in (entry_of x.0) ≤ 4000000) }
{
    match scan_entry(recent, bytes) {
        Ok(found) => Ok(found),
        Err(ReadFault::Malformed) => Err(TextFault::Malformed(line)),
        Err(ReadFault::NoMemory) => Err(TextFault::NoMemory),
    }
}

// The entries of the lines from line 2 on, the last of which is `stop S`.
#[tactic(auto, using(crate::proofs::Lines::goes_on, crate::proofs::Lines::fails, crate::proofs::Lines::stops, crate::proofs::Lines::stop_fails, crate::proofs::Lines::done))]
fn scan_lines(alloc: Global, bytes: &[u8]) -> Result<List<Entry>, TextFault>
    ensures is { ReadsTextAs entries_of result (lists.scan_lines 4294967295 2 0 bytes.now) }
    ensures names { IfOk result (All IsUnnamed) }
{
    let mut recent = RecentPaths::new(alloc)?;
    let mut entries = List::new(alloc);
    let mut rest = bytes;
    let mut sum = 0u64;
    for count in 0..u32::MAX {
        let line = count as u64 + 2;
        if rest.starts_with(b"stop ") {
            let (_, behind) = rest.split_at(5);
            scan_stop(line, sum, behind)?;
            return Ok(entries);
        }
        let (entry, after) = scan_line(&mut recent, line, rest)?;
        sum += steps_in(&entry);
        entries.push(entry)?;
        rest = after;
    }
    Err(TextFault::Malformed(u32::MAX as u64 + 2))
}

#[tactic(auto, unfolding(crate::specs::Scanning::scan_journal))]
fn scan_journal(alloc: Global, bytes: &[u8]) -> Result<Journal, TextFault>
    ensures is { ReadsTextAs (λ j. (j.budget, entries_of j.entries)) result (lists.scan_journal bytes.now) }
    ensures names { IfOk result (λ j. All IsUnnamed j.entries) }
{
    match scan_budget(bytes) {
        Ok((budget, rest)) => {
            let entries = scan_lines(alloc, rest)?;
            Ok(Journal { budget, entries })
        }
        Err(ReadFault::Malformed) => Err(TextFault::Malformed(1)),
        Err(ReadFault::NoMemory) => Err(TextFault::NoMemory),
    }
}

/// Reads the text of a journal, which has fewer than 2^32 - 1 line feeds. The channels of its entries have the name
/// number 0.
#[tactic(auto, using(crate::proofs::Answered::is_found, crate::proofs::Answered::is_in_range, crate::proofs::Answered::is_faulty, crate::proofs::Answered::is_small))]
pub fn read_journal(alloc: Global, text: &[u8]) -> Result<Journal, JournalFault>
    requires { line_feeds text.now < 4294967295 }
    ensures answers { ReadAnswers text.now result }
    ensures names { IfOk result (λ j. All IsUnnamed j.entries) }
    ensures range { IfOk result (λ j. IsInRange j.budget (entries_of j.entries)) }
{
    match scan_journal(alloc, text) {
        Ok(journal) => Ok(journal),
        Err(TextFault::Malformed(line)) => Err(JournalFault::Malformed { line: line as u32 }),
        Err(TextFault::NoMemory) => Err(JournalFault::NoMemory),
    }
}
