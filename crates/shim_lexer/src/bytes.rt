// Kinds of bytes, and how many of a kind stand at the front.
ghost use Rattle.std.specs.Prelude.{◌≡◌, ◌≤◌, ◌==◌, length, count_by};
ghost use Rattle.std.specs.List.{prefix_len};
ghost use Rattle.shim_base.specs.Tokens as tokens;
ghost use Rattle.shim_lexer.specs.Scanned.{is_on_line};

pub(crate) fn is_spacing(b: u8) -> bool
    ensures { result ≡ tokens.is_spacing b }
{
    b == b' ' || (b'\t' <= b && b <= b'\r')
}

pub(crate) fn is_digit(b: u8) -> bool
    ensures { result ≡ tokens.is_digit b }
{
    b'0' <= b && b <= b'9'
}

pub(crate) fn is_letter(b: u8) -> bool
    ensures { result ≡ tokens.is_letter b }
{
    (b'A' <= b && b <= b'Z') || (b'a' <= b && b <= b'z') || b == b'_'
}

fn is_name_byte(b: u8) -> bool
    ensures { result ≡ tokens.is_name_byte b }
{
    is_letter(b) || is_digit(b)
}

pub(crate) fn is_hex_digit(b: u8) -> bool
    ensures { result ≡ tokens.is_hex_digit b }
{
    is_digit(b) || (b'a' <= b && b <= b'f') || (b'A' <= b && b <= b'F')
}

pub(crate) fn name_len(text: &[u8]) -> usize
    ensures is { result ≡ prefix_len tokens.is_name_byte text.now }
    ensures within { result ≤ length text.now }
{
    text.iter().take_while(|b| is_name_byte(**b)).count()
}

pub(crate) fn digits_len(text: &[u8]) -> usize
    ensures is { result ≡ prefix_len tokens.is_digit text.now }
    ensures within { result ≤ length text.now }
{
    text.iter().take_while(|b| is_digit(**b)).count()
}

pub(crate) fn hex_digits_len(text: &[u8]) -> usize
    ensures is { result ≡ prefix_len tokens.is_hex_digit text.now }
    ensures within { result ≤ length text.now }
{
    text.iter().take_while(|b| is_hex_digit(**b)).count()
}

/// How many bytes stand before the first line feed, or in the whole text if it has none.
pub(crate) fn line_len(text: &[u8]) -> usize
    ensures is { result ≡ prefix_len is_on_line text.now }
    ensures within { result ≤ length text.now }
{
    text.iter().take_while(|b| **b != b'\n').count()
}

/// How many line feeds there are.
pub fn line_feeds(text: &[u8]) -> u32
    requires { length text.now ≤ 1048576 }
    ensures is { result ≡ count_by (λ b. b == 10) text.now }
    ensures within { result ≤ length text.now }
{
    let mut count = 0;
    for b in text {
        if *b == b'\n' {
            count += 1;
        }
    }
    count
}
