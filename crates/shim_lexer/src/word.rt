// Names, keywords and signs.
ghost use Rattle.std.specs.Prelude.{◌≡◌, ◌<◌, ◌≤◌, length, map, take, ℕ, false, IsNone, IfSome, IsTrue, slice_index};
ghost use Rattle.shim_base.specs.Tokens as tokens;
ghost use Rattle.shim_lexer.specs.Scanned.{IsTokenPlace, IsScanned};

use crate::bytes::name_len;
use crate::scanner::Scanned;
use shim_base::{Keyword, LexKind, Sign, TokenKind};

/// How many bytes a name may have.
const LONGEST_NAME: usize = 64;

// The keywords; all other names are words.
const KEYWORDS: [(&[u8], Keyword); 25] = [
    (b"void", Keyword::Void),
    (b"throws", Keyword::Throws),
    (b"bool", Keyword::Bool),
    (b"int", Keyword::Int),
    (b"int8", Keyword::Int8),
    (b"int16", Keyword::Int16),
    (b"int32", Keyword::Int32),
    (b"uint8", Keyword::Uint8),
    (b"uint16", Keyword::Uint16),
    (b"uint32", Keyword::Uint32),
    (b"istream", Keyword::Istream),
    (b"ostream", Keyword::Ostream),
    (b"next", Keyword::Next),
    (b"get", Keyword::Get),
    (b"put", Keyword::Put),
    (b"if", Keyword::If),
    (b"else", Keyword::Else),
    (b"while", Keyword::While),
    (b"for", Keyword::For),
    (b"try", Keyword::Try),
    (b"catch", Keyword::Catch),
    (b"throw", Keyword::Throw),
    (b"par", Keyword::Par),
    (b"true", Keyword::TrueKey),
    (b"false", Keyword::FalseKey),
];

// What a table has beside a spelling. The table is a parameter, since goals about a constant repeat
// all of its rows.
fn entry<T: Copy>(table: &[(&[u8], T)], text: &[u8]) -> Option<T>
    ensures { result ≡ tokens.row_for (map (λ row. (row.0.now, row.1)) table.now) text.now }
{
    for (spelling, value) in table {
        if *spelling == text {
            return Some(*value);
        }
    }
    None
}

#[tactic(auto, unfolding(shim_base::specs::Tokens::keyword_of))]
fn keyword_of(text: &[u8]) -> Option<Keyword>
    ensures { result ≡ tokens.keyword_of text.now }
{
    entry(&KEYWORDS, text)
}

#[tactic(auto, unfolding(shim_base::specs::Tokens::sign_of))]
fn sign_of(text: &[u8]) -> Option<Sign>
    ensures { result ≡ tokens.sign_of text.now }
{
    match text {
        b"<<" => Some(Sign::Shl),
        b">>" => Some(Sign::Shr),
        b"<=" => Some(Sign::Le),
        b">=" => Some(Sign::Ge),
        b"==" => Some(Sign::EqEq),
        b"!=" => Some(Sign::NotEq),
        b"&&" => Some(Sign::AndAnd),
        b"||" => Some(Sign::OrOr),
        b"(" => Some(Sign::LeftParen),
        b")" => Some(Sign::RightParen),
        b"{" => Some(Sign::LeftBrace),
        b"}" => Some(Sign::RightBrace),
        b"," => Some(Sign::Comma),
        b";" => Some(Sign::Semicolon),
        b"=" => Some(Sign::Equal),
        b"&" => Some(Sign::Amp),
        b"^" => Some(Sign::Caret),
        b"|" => Some(Sign::Bar),
        b"+" => Some(Sign::Plus),
        b"-" => Some(Sign::Minus),
        b"*" => Some(Sign::Star),
        b"/" => Some(Sign::Slash),
        b"%" => Some(Sign::Percent),
        b"~" => Some(Sign::Tilde),
        b"!" => Some(Sign::Bang),
        b"<" => Some(Sign::Less),
        b">" => Some(Sign::Greater),
        _ => None,
    }
}

/// What stands where a letter does: a keyword, another name of at most 64 bytes, or the fault of a longer one.
pub(crate) fn name(text: &[u8]) -> Scanned
    requires place { IsTokenPlace text.now }
    requires letter { IsTrue (tokens.is_letter (slice_index text.now 0)) }
    ensures { IsScanned text.now result }
{
    let (name, _) = text.split_at(name_len(text));
    match keyword_of(name) {
        Some(keyword) => Scanned::Token(TokenKind::Key(keyword), name.len()),
        None if name.len() <= LONGEST_NAME => Scanned::Token(TokenKind::Word, name.len()),
        None => Scanned::Fault(LexKind::LongName),
    }
}

// The longest sign at the front, and its length.
fn sign_at(text: &[u8]) -> Option<(Sign, usize)>
    ensures within { IfSome result (λ found. found.1 ≤ length text.now) }
    ensures spelled { IfSome result (λ found. tokens.sign_of (take found.1 text.now) ≡ Some found.0) }
    ensures longest { IfSome result
        (λ found. (m : ℕ) → found.1 < m → m ≤ 2 → m ≤ length text.now → tokens.sign_of (take m text.now) ≡ None) }
    ensures none { IsNone result → (m : ℕ) → 1 ≤ m → m ≤ 2 → tokens.sign_of (take m text.now) ≡ None }
{
    let (two, _) = text.split_at(text.len().min(2));
    if let Some(sign) = sign_of(two) {
        return Some((sign, two.len()));
    }
    let (one, _) = text.split_at(text.len().min(1));
    let sign = sign_of(one)?;
    Some((sign, one.len()))
}

/// What stands where a token may begin and neither a letter nor a digit stands: a sign, or the fault of a bad byte.
pub(crate) fn sign(text: &[u8]) -> Scanned
    requires place { IsTokenPlace text.now }
    requires no_letter { tokens.is_letter (slice_index text.now 0) ≡ false }
    requires no_digit { tokens.is_digit (slice_index text.now 0) ≡ false }
    ensures { IsScanned text.now result }
{
    match sign_at(text) {
        Some((sign, len)) => Scanned::Token(TokenKind::Sign(sign), len),
        None => Scanned::Fault(LexKind::BadByte),
    }
}
