// The input of a program, byte by byte.
ghost use Rattle.std.specs.Prelude.{◌≡◌, slice_get};
ghost use Rattle.shim_process.specs.Steps as step;

/// The next byte, or -1 where the input is over or the process doesn't have it.
pub fn next_byte(at: Option<usize>, input: &[u8]) -> i64
    ensures { result ≡ step.next_byte at input.now }
{
    match at {
        None => -1,
        Some(at) => byte_at(at, input),
    }
}

fn byte_at(at: usize, input: &[u8]) -> i64
    ensures { result ≡ step.byte_or_end (slice_get input.now at) }
{
    match input.get(at) {
        None => -1,
        Some(byte) => i64::from(*byte),
    }
}

/// How many bytes of the input were read once `next_byte` gave its byte. At the end of the input the count stays;
/// where the process doesn't have the input there is none.
pub fn read_on(at: Option<usize>, input: &[u8]) -> Option<usize>
    ensures { result ≡ step.read_on at input.now }
{
    match at {
        None => None,
        Some(at) => Some(if input.len() <= at { at } else { at + 1 }),
    }
}
