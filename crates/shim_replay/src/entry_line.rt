// The line of an entry at the front of a text.
ghost use Rattle.std.specs.Prelude.{◌≡◌, ◌≤◌, IfOk};
ghost use Rattle.shim_replay.specs.Entries.{entry_of, IsUnnamed};
ghost use Rattle.shim_replay.specs.Scanning as lists;
ghost use Rattle.shim_laws_journals.specs.Ranges.{steps_in};
ghost use Rattle.shim_replay.specs.Scanning.{ReadsAs};

use crate::fault::ReadFault;
use crate::numbers::{STEP_LIMIT, scan_count, scan_word};
use crate::paths::{scan_channel, scan_path};
use crate::recent_paths::RecentPaths;
use shim_base::Path;
use shim_run_log::{Entry, Event};

#[tactic(auto, unfolding(crate::specs::Scanning::scan_quiet))]
fn scan_quiet<'a>(recent: &mut RecentPaths, bytes: &'a [u8]) -> Result<(Entry, &'a [u8]), ReadFault>
    ensures is { ReadsAs (λ x. (entry_of x.0, x.1.now)) result (lists.scan_quiet bytes.now) }
    ensures name { IfOk result (λ x. IsUnnamed x.0) }
    ensures few { IfOk result (λ x. steps_in (entry_of x.0) ≤ 4000000) }
{
    let (path, rest) = scan_path(recent, bytes)?;
    let behind = scan_word(b" ", rest)?;
    let (steps, rest) = scan_count(STEP_LIMIT, behind)?;
    let rest = scan_word(b"\n", rest)?;
    Ok((Entry::Quiet { path, steps }, rest))
}

// A path and the end of its line.
fn scan_path_line<'a>(
    recent: &mut RecentPaths,
    bytes: &'a [u8],
) -> Result<(Path, &'a [u8]), ReadFault>
    ensures { ReadsAs (λ x. (x.0, x.1.now)) result (lists.scan_path_line bytes.now) }
{
    let (path, rest) = scan_path(recent, bytes)?;
    let rest = scan_word(b"\n", rest)?;
    Ok((path, rest))
}

#[tactic(auto, unfolding(crate::specs::Scanning::scan_meet))]
fn scan_meet<'a>(recent: &mut RecentPaths, bytes: &'a [u8]) -> Result<(Entry, &'a [u8]), ReadFault>
    ensures is { ReadsAs (λ x. (entry_of x.0, x.1.now)) result (lists.scan_meet bytes.now) }
    ensures name { IfOk result (λ x. IsUnnamed x.0) }
    ensures few { IfOk result (λ x. steps_in (entry_of x.0) ≤ 4000000) }
{
    let (chan, rest) = scan_channel(recent, bytes)?;
    let rest = scan_word(b"\n", rest)?;
    Ok((Entry::Did(Event::Meet(chan)), rest))
}

#[tactic(auto, unfolding(crate::specs::Scanning::scan_poison))]
fn scan_poison<'a>(
    recent: &mut RecentPaths,
    bytes: &'a [u8],
) -> Result<(Entry, &'a [u8]), ReadFault>
    ensures is { ReadsAs (λ x. (entry_of x.0, x.1.now)) result (lists.scan_poison bytes.now) }
    ensures name { IfOk result (λ x. IsUnnamed x.0) }
    ensures few { IfOk result (λ x. steps_in (entry_of x.0) ≤ 4000000) }
{
    let (path, rest) = scan_path(recent, bytes)?;
    let behind = scan_word(b" ", rest)?;
    let (chan, rest) = scan_channel(recent, behind)?;
    let rest = scan_word(b"\n", rest)?;
    Ok((Entry::Did(Event::Poison(path, chan)), rest))
}

/// The line of an entry at the front.
#[tactic(auto, unfolding(crate::specs::Scanning::scan_entry))]
pub(crate) fn scan_entry<'a>(
    recent: &mut RecentPaths,
    bytes: &'a [u8],
) -> Result<(Entry, &'a [u8]), ReadFault>
    ensures is { ReadsAs (λ x. (entry_of x.0, x.1.now)) result (lists.scan_entry bytes.now) }
    ensures name { IfOk result (λ x. IsUnnamed x.0) }
    ensures few { IfOk result (λ x. steps_in (entry_of x.0) ≤ 4000000) }
{
    if bytes.starts_with(b"quiet ") {
        scan_quiet(recent, bytes.split_at(6).1)
    } else if bytes.starts_with(b"meet ") {
        scan_meet(recent, bytes.split_at(5).1)
    } else if bytes.starts_with(b"own ") {
        let (path, rest) = scan_path_line(recent, bytes.split_at(4).1)?;
        Ok((Entry::Did(Event::Own(path)), rest))
    } else if bytes.starts_with(b"end ") {
        let (path, rest) = scan_path_line(recent, bytes.split_at(4).1)?;
        Ok((Entry::Did(Event::End(path)), rest))
    } else if bytes.starts_with(b"close ") {
        let (path, rest) = scan_path_line(recent, bytes.split_at(6).1)?;
        Ok((Entry::Did(Event::Close(path)), rest))
    } else if bytes.starts_with(b"poison ") {
        scan_poison(recent, bytes.split_at(7).1)
    } else {
        Err(ReadFault::Malformed)
    }
}
