// The words of a trace.
use shim_base::{Chan, List, Name, NoMemory, Trap, push_decimal};

// Begins a word: a space stands between two of them.
fn space(reply: &mut List<u8>) -> Result<(), NoMemory> {
    if reply.is_empty() {
        Ok(())
    } else {
        reply.extend_from_slice(b" ")
    }
}

pub fn word(reply: &mut List<u8>, text: &[u8]) -> Result<(), NoMemory> {
    space(reply)?;
    reply.extend_from_slice(text)
}

// A word that ends with this number.
pub fn count(reply: &mut List<u8>, text: &[u8], number: u64) -> Result<(), NoMemory> {
    word(reply, text)?;
    push_decimal(reply, number)
}

// The number after this sign, with a `-` where the number is below 0.
pub fn value(reply: &mut List<u8>, sign: &[u8], number: i64) -> Result<(), NoMemory> {
    reply.extend_from_slice(sign)?;
    if number < 0 {
        reply.extend_from_slice(b"-")?;
    }
    push_decimal(reply, number.unsigned_abs())
}

pub fn name(reply: &mut List<u8>, names: &[Name], number: u32) -> Result<(), NoMemory> {
    match names.get(number as usize) {
        Some(name) => reply.extend_from_slice(name.as_bytes()),
        None => reply.extend_from_slice(b"?"),
    }
}

// A name and the line of its place, as in `T@3`.
pub fn at_line(
    reply: &mut List<u8>,
    names: &[Name],
    number: u32,
    line: u32,
) -> Result<(), NoMemory> {
    name(reply, names, number)?;
    reply.extend_from_slice(b"@")?;
    push_decimal(reply, line as u64)
}

// A channel: its name, the path of its home and its serial, as in `a#3` and `a/0.1#3`.
pub fn channel(reply: &mut List<u8>, names: &[Name], chan: &Chan) -> Result<(), NoMemory> {
    name(reply, names, chan.name())?;
    for pair in chan.home().pairs() {
        reply.extend_from_slice(b"/")?;
        push_decimal(reply, pair.0 as u64)?;
        reply.extend_from_slice(b".")?;
        push_decimal(reply, pair.1 as u64)?;
    }
    reply.extend_from_slice(b"#")?;
    push_decimal(reply, chan.serial() as u64)
}

fn kind_word(kind: Trap) -> &'static [u8] {
    match kind {
        Trap::Overflow => b"overflow".as_slice(),
        Trap::Zero => b"zero".as_slice(),
        Trap::Shift => b"shift".as_slice(),
        Trap::Depth => b"depth".as_slice(),
    }
}

// A trap and the line of its statement, as in `trap zero@3`.
pub fn trap(reply: &mut List<u8>, kind: Trap, line: u32) -> Result<(), NoMemory> {
    word(reply, b"trap ")?;
    reply.extend_from_slice(kind_word(kind))?;
    reply.extend_from_slice(b"@")?;
    push_decimal(reply, line as u64)
}
