// Code as text.
ghost use Rattle.std.specs.Prelude.{◌≡◌, ◌++◌, IfOk, OnOk};
ghost use Rattle.shim_code.specs.declared.instr.Instr.TheVariants.{Mark, Num, Try};
ghost use Rattle.shim_code.specs.Programs.{code_units};
ghost use Rattle.shim_code.specs.Listing.{bin_word, instr_text, kind_word, line_text, lines_text, listing, then_number, un_word, unit_text};

use crate::instr::{Instr, MarkKind};
use crate::program::code_unit;
use crate::unit::CodeUnit;
use shim_base::{BinOp, List, NoMemory, UnOp, push_decimal};
use shim_units::Accepted;
use std::alloc::Global;

/// The units of a program in their order: for each a line with its title, and then a line for each of its
/// instructions, which begins with the instruction's place.
pub fn listing(alloc: Global, program: &Accepted) -> Result<List<u8>, NoMemory>
    ensures { IfOk result (λ text. text ≡ listing (code_units program.now.units)) }
{
    let units = program.units();
    let mut text = List::new(alloc);
    for unit in units {
        let made = code_unit(alloc, unit, units)?;
        push_unit(&mut text, &made)?;
    }
    Ok(text)
}

fn push_unit(text: &mut List<u8>, unit: &CodeUnit) -> Result<(), NoMemory>
    ensures { OnOk result (text.new ≡ text.old ++ unit_text unit.now) }
{
    text.extend_from_slice(b"unit ")?;
    text.extend_from_slice(unit.title.as_slice())?;
    text.push(b'\n')?;
    push_lines(text, unit.code.as_slice())
}

fn push_lines(text: &mut List<u8>, code: &[Instr]) -> Result<(), NoMemory>
    ensures { OnOk result (text.new ≡ text.old ++ lines_text 0 code.now) }
{
    for at in 0..code.len() {
        push_line(text, at as u64, &code[at])?;
    }
    Ok(())
}

fn push_line(text: &mut List<u8>, place: u64, instr: &Instr) -> Result<(), NoMemory>
    ensures { OnOk result (text.new ≡ text.old ++ line_text place instr.now) }
{
    push_decimal(text, place)?;
    text.push(b' ')?;
    push_instr(text, instr)?;
    text.push(b'\n')
}

fn push_instr(text: &mut List<u8>, instr: &Instr) -> Result<(), NoMemory>
    ensures { OnOk result (text.new ≡ text.old ++ instr_text instr.now) }
{
    match instr {
        Instr::Mark(kind, line) => push_mark(text, *kind, *line),
        Instr::Num(number) => push_num(text, *number),
        Instr::Var(slot) => push_number(text, b"var", *slot),
        Instr::Un(op) => text.extend_from_slice(un_word(*op)),
        Instr::Bin(op) => text.extend_from_slice(bin_word(*op)),
        Instr::Bool => text.extend_from_slice(b"bool"),
        Instr::Jump(place) => push_number(text, b"jump", *place),
        Instr::JumpZ(place) => push_number(text, b"jumpz", *place),
        Instr::Declare(slot) => push_number(text, b"declare", *slot),
        Instr::Set(slot) => push_number(text, b"set", *slot),
        Instr::Get(slot) => push_number(text, b"get", *slot),
        Instr::Put(slot) => push_number(text, b"put", *slot),
        Instr::Next(slot) => push_number(text, b"next", *slot),
        Instr::Ref(slot) => push_number(text, b"ref", *slot),
        Instr::Pass(slot) => push_number(text, b"pass", *slot),
        Instr::Fresh => text.extend_from_slice(b"fresh"),
        Instr::Call(unit, args, _) => push_two(text, b"call", *unit, *args),
        Instr::Branch(unit, args, _) => push_two(text, b"branch", *unit, *args),
        Instr::Fork(many) => push_number(text, b"fork", *many),
        Instr::Try(place, exception, slot) => push_try(text, *place, *exception, slot),
        Instr::Untry => text.extend_from_slice(b"untry"),
        Instr::Throw(exception) => push_number(text, b"throw", *exception),
        Instr::End => text.extend_from_slice(b"end"),
    }
}

fn push_mark(text: &mut List<u8>, kind: MarkKind, line: u32) -> Result<(), NoMemory>
    ensures { OnOk result (text.new ≡ text.old ++ instr_text (Mark kind line)) }
{
    text.extend_from_slice(b"mark ")?;
    push_number(text, kind_word(kind), line)
}

fn push_num(text: &mut List<u8>, number: i64) -> Result<(), NoMemory>
    ensures { OnOk result (text.new ≡ text.old ++ instr_text (Num number)) }
{
    text.extend_from_slice(b"num ")?;
    if number < 0 {
        text.extend_from_slice(b"-")?;
    }
    push_decimal(text, number.unsigned_abs())
}

// Adds a word, a space and a number.
fn push_number(text: &mut List<u8>, word: &[u8], number: u32) -> Result<(), NoMemory>
    ensures { OnOk result (text.new ≡ text.old ++ then_number word.now number) }
{
    text.extend_from_slice(word)?;
    text.push(b' ')?;
    push_decimal(text, u64::from(number))
}

fn push_two(text: &mut List<u8>, word: &[u8], one: u32, other: u32) -> Result<(), NoMemory>
    ensures { OnOk result (text.new ≡ text.old ++ then_number (then_number word.now one) other) }
{
    push_number(text, word, one)?;
    text.push(b' ')?;
    push_decimal(text, u64::from(other))
}

// A `try`, with the slot of its handler's variable where it has one.
fn push_try(
    text: &mut List<u8>,
    place: u32,
    exception: u32,
    slot: &Option<u32>,
) -> Result<(), NoMemory>
    ensures { OnOk result (text.new ≡ text.old ++ instr_text (Try place exception slot.now)) }
{
    push_two(text, b"try", place, exception)?;
    match slot {
        None => Ok(()),
        Some(slot) => {
            text.push(b' ')?;
            push_decimal(text, u64::from(*slot))
        }
    }
}

fn kind_word(kind: MarkKind) -> &'static [u8]
    ensures { result.now ≡ kind_word kind }
{
    match kind {
        MarkKind::Quiet => b"quiet",
        MarkKind::Next => b"next",
        MarkKind::Put => b"put",
        MarkKind::Fork => b"fork",
        MarkKind::Throw => b"throw",
    }
}

fn un_word(op: UnOp) -> &'static [u8]
    ensures { result.now ≡ un_word op }
{
    match op {
        UnOp::Neg => b"un neg",
        UnOp::Not => b"un not",
        UnOp::Flip => b"un flip",
    }
}

fn bin_word(op: BinOp) -> &'static [u8]
    ensures { result.now ≡ bin_word op }
{
    match op {
        BinOp::Mul => b"bin mul",
        BinOp::Div => b"bin div",
        BinOp::Rem => b"bin rem",
        BinOp::Add => b"bin add",
        BinOp::Sub => b"bin sub",
        BinOp::Shl => b"bin shl",
        BinOp::Shr => b"bin shr",
        BinOp::Lt => b"bin lt",
        BinOp::Le => b"bin le",
        BinOp::Gt => b"bin gt",
        BinOp::Ge => b"bin ge",
        BinOp::Eq => b"bin eq",
        BinOp::Ne => b"bin ne",
        BinOp::BitAnd => b"bin and",
        BinOp::BitXor => b"bin xor",
        BinOp::BitOr => b"bin or",
        BinOp::And => b"bin and",
        BinOp::Or => b"bin or",
    }
}
