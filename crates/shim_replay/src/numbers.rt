// Numbers and words at the front of a text.
ghost use Rattle.std.specs.Prelude.{◌≡◌, ◌≤◌, ◌<◌, IfOk};
ghost use Rattle.shim_base.specs.Tokens as tokens;
ghost use Rattle.shim_replay.specs.Scanning as lists;
ghost use Rattle.shim_replay.specs.Scanning.{ReadsAs};

use crate::fault::ReadFault;

/// What numbers of a path and of a channel are below.
pub(crate) const NUMBER_LIMIT: u64 = 4294967296;

/// What counts of steps are below.
pub(crate) const STEP_LIMIT: u64 = 4000001;

fn is_digit(c: u8) -> bool
    ensures { result ≡ tokens.is_digit c }
{
    b'0' <= c && c <= b'9'
}

/// The bytes after `word`, where the text begins with it.
pub(crate) fn scan_word<'a>(word: &[u8], bytes: &'a [u8]) -> Result<&'a [u8], ReadFault>
    ensures { ReadsAs (λ x. x.now) result (lists.scan_word word.now bytes.now) }
{
    if !bytes.starts_with(word) {
        return Err(ReadFault::Malformed);
    }
    let (_, rest) = bytes.split_at(word.len());
    Ok(rest)
}

// The number of the digits at the front.
fn scan_digits(limit: u64, bytes: &[u8]) -> Result<(u64, &[u8]), ReadFault>
    requires { (1 ≤ limit) × (limit ≤ 4294967296) }
    ensures is { ReadsAs (λ x. (x.0, x.1.now)) result (lists.scan_digits limit 0 bytes.now) }
    ensures below { IfOk result (λ x. x.0 < limit) }
{
    let mut number = 0u64;
    for (at, c) in bytes.iter().enumerate() {
        if !is_digit(*c) {
            let (_, rest) = bytes.split_at(at);
            return Ok((number, rest));
        }
        number = number * 10 + (*c - b'0') as u64;
        if number >= limit {
            return Err(ReadFault::Malformed);
        }
    }
    Ok((number, &[]))
}

/// A number without leading zeros, below the limit.
#[tactic(auto, unfolding(crate::specs::Scanning::scan_number))]
pub(crate) fn scan_number(limit: u64, bytes: &[u8]) -> Result<(u64, &[u8]), ReadFault>
    requires { (1 ≤ limit) × (limit ≤ 4294967296) }
    ensures is { ReadsAs (λ x. (x.0, x.1.now)) result (lists.scan_number limit bytes.now) }
    ensures below { IfOk result (λ x. x.0 < limit) }
{
    let Some((first, rest)) = bytes.split_first() else {
        return Err(ReadFault::Malformed);
    };
    if *first == b'0' {
        return Ok((0, rest));
    }
    if !is_digit(*first) {
        return Err(ReadFault::Malformed);
    }
    scan_digits(limit, bytes)
}

/// A number from 1 on, without leading zeros and below the limit.
#[tactic(auto, unfolding(crate::specs::Scanning::scan_count))]
pub(crate) fn scan_count(limit: u64, bytes: &[u8]) -> Result<(u64, &[u8]), ReadFault>
    requires { (1 ≤ limit) × (limit ≤ 4294967296) }
    ensures is { ReadsAs (λ x. (x.0, x.1.now)) result (lists.scan_count limit bytes.now) }
    ensures below { IfOk result (λ x. x.0 < limit) }
{
    let (number, rest) = scan_number(limit, bytes)?;
    if number == 0 {
        return Err(ReadFault::Malformed);
    }
    Ok((number, rest))
}
