// The words of a report's lines.
ghost use Rattle.std.specs.Prelude.{◌≡◌, ◌++◌, ◌<◌, OnOk, flat_map};
ghost use Rattle.shim_report.specs.Report.{hex_byte, hex_digit, hex_part, name_text, number_text, trap_word};

use shim_base::{List, Name, NoMemory, Trap, push_decimal};

// A digit from 0 to 9 or from a to f.
fn hex_digit(n: u8) -> u8
    requires { n < 16 }
    ensures { result ≡ hex_digit n }
{
    if n < 10 { b'0' + n } else { b'a' - 10 + n }
}

// Adds each byte as two hexadecimal digits.
fn push_digits(text: &mut List<u8>, bytes: &[u8]) -> Result<(), NoMemory>
    ensures { OnOk result (text.new ≡ text.old ++ flat_map hex_byte bytes.now) }
{
    for byte in bytes {
        text.push(hex_digit(*byte / 16))?;
        text.push(hex_digit(*byte % 16))?;
    }
    Ok(())
}

/// Adds a space and then the bytes as hexadecimal digits, or nothing where there are no bytes.
pub(super) fn push_hex_part(text: &mut List<u8>, bytes: &[u8]) -> Result<(), NoMemory>
    ensures { OnOk result (text.new ≡ text.old ++ hex_part bytes.now) }
{
    if bytes.is_empty() {
        return Ok(());
    }
    text.push(b' ')?;
    push_digits(text, bytes)
}

/// Adds a number in decimal, with a `-` before a negative one.
pub(super) fn push_signed(text: &mut List<u8>, number: i64) -> Result<(), NoMemory>
    ensures { OnOk result (text.new ≡ text.old ++ number_text number) }
{
    if number < 0 {
        text.extend_from_slice(b"-")?;
    }
    push_decimal(text, number.unsigned_abs())
}

/// Adds the name of a number, or `?` where the number is past the names.
pub(super) fn push_name(text: &mut List<u8>, names: &[Name], number: u32) -> Result<(), NoMemory>
    ensures { OnOk result (text.new ≡ text.old ++ name_text names.now number) }
{
    match names.get(number as usize) {
        Some(name) => text.extend_from_slice(name.as_bytes()),
        None => text.extend_from_slice(b"?"),
    }
}

/// The word of a trap.
pub(super) fn trap_word(trap: Trap) -> &'static str
    ensures { result.now ≡ trap_word trap }
{
    match trap {
        Trap::Overflow => "overflow",
        Trap::Zero => "zero",
        Trap::Shift => "shift",
        Trap::Depth => "depth",
    }
}
