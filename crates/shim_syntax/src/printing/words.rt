// Names, numbers and types as tokens of the canonical text, each with the space after it; operators' signs and rows.
ghost use Rattle.std.specs.Prelude.{◌≡◌, ◌∷◌, [], ◌++◌, OnOk};
ghost use Rattle.std.specs.Fmt.{signed_decimal};
ghost use Rattle.shim_syntax.specs.Printing.{type_piece, sort_piece, name_piece, number_piece, row_of_operator, sign_of_operator, sign_of_unary, sign_text, pieces_text};

use crate::tree::Sort;
use shim_base::{BinOp, List, Name, NoMemory, Ty, UnOp, push_decimal};

pub(super) fn push_word(text: &mut List<u8>, word: &Name) -> Result<(), NoMemory>
    ensures { OnOk result (text.new ≡ text.old ++ pieces_text (name_piece word.now ∷ [])) }
{
    text.extend_from_slice(word.as_bytes())?;
    text.push(b' ')
}

pub(super) fn push_number(text: &mut List<u8>, number: i64) -> Result<(), NoMemory>
    ensures { OnOk result (text.new ≡ text.old ++ (signed_decimal number ++ 32 ∷ [])) }
{
    if number < 0 {
        text.push(b'-')?;
        push_decimal(text, number.unsigned_abs())?;
        text.push(b' ')
    } else {
        push_decimal(text, number.unsigned_abs())?;
        text.push(b' ')
    }
}

pub(super) fn push_sort(text: &mut List<u8>, sort: Sort) -> Result<(), NoMemory>
    ensures { OnOk result (text.new ≡ text.old ++ pieces_text (sort_piece sort ∷ [])) }
{
    match sort {
        Sort::Value(ty) => push_type(text, ty),
        Sort::Input => text.extend_from_slice(b"istream "),
        Sort::Output => text.extend_from_slice(b"ostream "),
    }
}

pub(super) fn push_type(text: &mut List<u8>, ty: Ty) -> Result<(), NoMemory>
    ensures { OnOk result (text.new ≡ text.old ++ pieces_text (type_piece ty ∷ [])) }
{
    text.extend_from_slice(type_word(ty))?;
    text.push(b' ')
}

fn type_word(ty: Ty) -> &'static [u8]
    ensures { result.now ≡ (type_piece ty).text }
{
    match ty {
        Ty::Bool => b"bool",
        Ty::Int8 => b"int8",
        Ty::Int16 => b"int16",
        Ty::Int32 => b"int32",
        Ty::Uint8 => b"uint8",
        Ty::Uint16 => b"uint16",
        Ty::Uint32 => b"uint32",
        Ty::Int64 => b"int64",
    }
}

pub(super) fn unary_sign(op: UnOp) -> &'static [u8]
    ensures { result.now ≡ sign_text (sign_of_unary op) }
{
    match op {
        UnOp::Neg => b"-",
        UnOp::Not => b"!",
        UnOp::Flip => b"~",
    }
}

pub(super) fn binary_sign(op: BinOp) -> &'static [u8]
    ensures { result.now ≡ sign_text (sign_of_operator op) }
{
    match op {
        BinOp::Mul => b"*",
        BinOp::Div => b"/",
        BinOp::Rem => b"%",
        BinOp::Add => b"+",
        BinOp::Sub => b"-",
        BinOp::Shl => b"<<",
        BinOp::Shr => b">>",
        BinOp::Lt => b"<",
        BinOp::Le => b"<=",
        BinOp::Gt => b">",
        BinOp::Ge => b">=",
        BinOp::Eq => b"==",
        BinOp::Ne => b"!=",
        BinOp::BitAnd => b"&",
        BinOp::BitXor => b"^",
        BinOp::BitOr => b"|",
        BinOp::And => b"&&",
        BinOp::Or => b"||",
    }
}

// The row of an operator, from the one that binds tightest.
pub(super) fn binary_row(op: BinOp) -> u8
    ensures { result ≡ row_of_operator op }
{
    match op {
        BinOp::Mul | BinOp::Div | BinOp::Rem => 1,
        BinOp::Add | BinOp::Sub => 2,
        BinOp::Shl | BinOp::Shr => 3,
        BinOp::Lt | BinOp::Le | BinOp::Gt | BinOp::Ge => 4,
        BinOp::Eq | BinOp::Ne => 5,
        BinOp::BitAnd => 6,
        BinOp::BitXor => 7,
        BinOp::BitOr => 8,
        BinOp::And => 9,
        BinOp::Or => 10,
    }
}
