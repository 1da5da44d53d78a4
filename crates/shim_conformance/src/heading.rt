// The headings of a case. Whatever begins like one and is none is a fault, so that no mistyped heading
// passes for a line of a file.
use crate::fault::CaseFault;

/// How a file or the expected text is written.
#[derive(Clone, Copy)]
pub enum TextForm {
    /// As it is, each line with its line break.
    Whole,
    /// As it is, but without the last line break.
    Bare,
    Hex,
}

#[derive(Clone, Copy)]
pub enum Heading<'a> {
    Case(&'a str),
    Words(&'a str),
    Inside(&'a str),
    File(&'a str, TextForm),
    Repeat(&'a str),
    FailingReads(&'a str),
    FailingWrites(&'a str),
    Most(&'a str),
    Status(&'a str),
    Text(TextForm),
    End,
}

fn heading_of_text(text: &str) -> Option<Heading<'_>> {
    let (word, rest) = text.split_once(' ').unwrap_or((text, ""));
    match word {
        "case" => Some(Heading::Case(rest)),
        "words" => Some(Heading::Words(rest)),
        "inside" => Some(Heading::Inside(rest)),
        "file" => Some(Heading::File(rest, TextForm::Whole)),
        "bare" => Some(Heading::File(rest, TextForm::Bare)),
        "hex" => Some(Heading::File(rest, TextForm::Hex)),
        "repeat" => Some(Heading::Repeat(rest)),
        "failing-reads" => Some(Heading::FailingReads(rest)),
        "failing-writes" => Some(Heading::FailingWrites(rest)),
        "most" => Some(Heading::Most(rest)),
        "status" => Some(Heading::Status(rest)),
        "text" if rest.is_empty() => Some(Heading::Text(TextForm::Whole)),
        "text" if rest == "bare" => Some(Heading::Text(TextForm::Bare)),
        "text" if rest == "hex" => Some(Heading::Text(TextForm::Hex)),
        "end" if rest.is_empty() => Some(Heading::End),
        _ => None,
    }
}

/// The heading that a line is, if it begins like one.
pub fn heading_of(line: &str) -> Result<Option<Heading<'_>>, CaseFault> {
    if !line.trim_start().starts_with("==") {
        return Ok(None);
    }
    let Some(text) = line.strip_prefix("=== ") else {
        return Err(CaseFault::LikeHeading);
    };
    let text = text.strip_suffix('\n').unwrap_or(text);
    if text.bytes().any(|byte| byte < b' ') {
        return Err(CaseFault::Control);
    }
    match heading_of_text(text) {
        Some(heading) => Ok(Some(heading)),
        None => Err(CaseFault::Unknown),
    }
}
