// Numbers as text.
ghost use Rattle.std.specs.Prelude.{◌≡◌, ◌++◌, decimal, OnOk, OnErr};

use crate::{List, NoMemory};
use itoa::Buffer;

/// Adds a number in decimal at the end of a text. A refusal leaves the text as it was.
pub fn push_decimal(text: &mut List<u8>, number: u64) -> Result<(), NoMemory>
    ensures ok { OnOk result (text.new ≡ text.old ++ decimal number) }
    ensures err { OnErr result (text.new ≡ text.old) }
{
    let mut buffer = Buffer::new();
    text.extend_from_slice(buffer.format(number).as_bytes())
}
