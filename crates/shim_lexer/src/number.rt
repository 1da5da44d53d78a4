// Numbers.
ghost use Rattle.std.specs.Prelude.{◌≡◌, false, IsTrue, slice_index, take};
ghost use Rattle.shim_base.specs.Tokens as tokens;
ghost use Rattle.shim_lexer.specs.Scanned.{FitsNumber, IsTokenPlace, IsScanned};

use crate::bytes::{digits_len, hex_digits_len, is_digit, is_hex_digit};
use crate::scanner::Scanned;
use shim_base::{LexKind, TokenKind};

/// The number that decimal digits stand for, if it is below 2^63.
fn decimal_value(digits: &[u8]) -> Option<i64>
    ensures { FitsNumber (tokens.decimal_value digits.now) result }
{
    let mut number: u64 = 0;
    for digit in digits {
        let tens = number.checked_mul(10)?;
        number = tens.checked_add(u64::from(digit.saturating_sub(b'0')))?;
    }
    i64::try_from(number).ok()
}

fn hex_digit_value(digit: u8) -> u8
    ensures { result ≡ tokens.hex_digit_value digit }
{
    if is_digit(digit) {
        digit - b'0'
    } else if b'a' <= digit {
        digit - (b'a' - 10)
    } else {
        digit.saturating_sub(b'A' - 10)
    }
}

/// The number that hexadecimal digits stand for, if it is below 2^63.
fn hex_value_of(digits: &[u8]) -> Option<i64>
    ensures { FitsNumber (tokens.hex_value digits.now) result }
{
    let mut number: u64 = 0;
    for digit in digits {
        let sixteens = number.checked_mul(16)?;
        number = sixteens.checked_add(u64::from(hex_digit_value(*digit)))?;
    }
    i64::try_from(number).ok()
}

/// Whether the text begins with `0x` or `0X` and a hexadecimal digit.
fn begins_hex(text: &[u8]) -> bool
    ensures { result ≡ tokens.is_hex_numeral (take 3 text.now) }
{
    let [zero, x, digit, ..] = text else {
        return false;
    };
    *zero == b'0' && (*x == b'x' || *x == b'X') && is_hex_digit(*digit)
}

fn hex_number(text: &[u8]) -> Scanned
    requires place { IsTokenPlace text.now }
    requires hex { IsTrue (tokens.is_hex_numeral (take 3 text.now)) }
    ensures { IsScanned text.now result }
{
    let (_, behind) = text.split_at(2);
    let (digits, _) = behind.split_at(hex_digits_len(behind));
    match hex_value_of(digits) {
        Some(value) => Scanned::Token(TokenKind::Number(value), digits.len() + 2),
        None => Scanned::Fault(LexKind::BigNumber),
    }
}

fn decimal_number(text: &[u8]) -> Scanned
    requires place { IsTokenPlace text.now }
    requires digit { IsTrue (tokens.is_digit (slice_index text.now 0)) }
    requires no_hex { tokens.is_hex_numeral (take 3 text.now) ≡ false }
    ensures { IsScanned text.now result }
{
    let (digits, _) = text.split_at(digits_len(text));
    match decimal_value(digits) {
        Some(value) => Scanned::Token(TokenKind::Number(value), digits.len()),
        None => Scanned::Fault(LexKind::BigNumber),
    }
}

/// What stands where a digit does.
pub(crate) fn number(text: &[u8]) -> Scanned
    requires place { IsTokenPlace text.now }
    requires digit { IsTrue (tokens.is_digit (slice_index text.now 0)) }
    ensures { IsScanned text.now result }
{
    if begins_hex(text) {
        hex_number(text)
    } else {
        decimal_number(text)
    }
}
