// Paths and channels at the front of a text.
ghost use Rattle.std.specs.Prelude.{◌≡◌, IfOk, length};
ghost use Rattle.shim_replay.specs.Scanning as lists;
ghost use Rattle.shim_replay.specs.Scanning.{ReadsAs};

use crate::fault::ReadFault;
use crate::numbers::{NUMBER_LIMIT, scan_number, scan_word};
use crate::recent_paths::RecentPaths;
use shim_base::{Chan, List, NoMemory, Path};
use std::alloc::Global;
use std::sync::Arc;

fn scan_number32(bytes: &[u8]) -> Result<(u32, &[u8]), ReadFault>
    ensures { ReadsAs (λ x. (x.0, x.1.now)) result (lists.scan_number lists.number_limit bytes.now) }
{
    let (number, rest) = scan_number(NUMBER_LIMIT, bytes)?;
    Ok((number as u32, rest))
}

#[tactic(auto, unfolding(crate::specs::Scanning::scan_pair))]
fn scan_pair(bytes: &[u8]) -> Result<((u32, u32), &[u8]), ReadFault>
    ensures { ReadsAs (λ x. (x.0, x.1.now)) result (lists.scan_pair bytes.now) }
{
    let (fork, rest) = scan_number32(bytes)?;
    let behind = scan_word(b".", rest)?;
    let (branch, rest) = scan_number32(behind)?;
    Ok(((fork, branch), rest))
}

// The pairs at the front, each after a slash.
#[tactic(auto, using(crate::proofs::Pairs::goes_on, crate::proofs::Pairs::fails, crate::proofs::Pairs::stops, crate::proofs::Pairs::done))]
fn scan_pairs(alloc: Global, bytes: &[u8]) -> Result<(List<(u32, u32)>, &[u8]), ReadFault>
    ensures { ReadsAs (λ x. (x.0, x.1.now)) result (lists.scan_pairs (length bytes.now) bytes.now) }
{
    let mut pairs = List::new(alloc);
    let mut rest = bytes;
    for _ in 0..bytes.len() {
        if !rest.starts_with(b"/") {
            return Ok((pairs, rest));
        }
        let (_, behind) = rest.split_at(1);
        let (pair, after) = scan_pair(behind)?;
        pairs.push(pair)?;
        rest = after;
    }
    Ok((pairs, rest))
}

/// The path at the front.
#[tactic(auto, unfolding(crate::specs::Scanning::scan_path))]
pub(crate) fn scan_path<'a>(
    recent: &mut RecentPaths,
    bytes: &'a [u8],
) -> Result<(Path, &'a [u8]), ReadFault>
    ensures { ReadsAs (λ x. (x.0, x.1.now)) result (lists.scan_path bytes.now) }
{
    let behind = scan_word(b"main", bytes)?;
    let (pairs, rest) = scan_pairs(recent.allocator(), behind)?;
    Ok((recent.path_of(pairs.as_slice())?, rest))
}

/// The channel at the front, with the name number 0.
#[tactic(auto, unfolding(crate::specs::Scanning::scan_channel))]
pub(crate) fn scan_channel<'a>(
    recent: &mut RecentPaths,
    bytes: &'a [u8],
) -> Result<(Chan, &'a [u8]), ReadFault>
    ensures is { ReadsAs (λ x. (x.0.channel, x.1.now)) result (lists.scan_channel bytes.now) }
    ensures name { IfOk result (λ x. x.0.name ≡ 0) }
{
    let (home, rest) = scan_path(recent, bytes)?;
    let behind = scan_word(b"#", rest)?;
    let (serial, rest) = scan_number32(behind)?;
    Ok((chan_of(recent.allocator(), home, serial)?, rest))
}

fn chan_of(alloc: Global, home: Path, serial: u32) -> Result<Chan, NoMemory>
    ensures { IfOk result (λ c. c ≡ record { channel = record { home = home; serial = serial }; name = 0 }) }
{
    let home = Arc::new(alloc, home)?;
    Ok(Chan::new(home, serial, 0))
}
