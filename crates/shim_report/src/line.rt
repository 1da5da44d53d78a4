// The four forms of a refusal's line.
ghost use Rattle.std.specs.Prelude.{◌≡◌, ◌++◌, IfOk, codes, decimal};
ghost use Rattle.shim_report.specs.Refusal.{refusal_with_branches, refusal_with_name, refusal_with_place, refusal_without_place, many_words};

use shim_base::{List, Name, NoMemory, push_decimal};
use shim_parser::Many;
use std::alloc::Global;

// How a line begins, up to its cause and with that.
fn begun(alloc: Global, line: u32, cause: &str) -> Result<List<u8>, NoMemory>
    ensures { IfOk result (λ text. text ≡ codes "refused " ++ (decimal line ++ (codes " " ++ cause.now))) }
{
    let mut text = List::new(alloc);
    text.extend_from_slice(b"refused ")?;
    push_decimal(&mut text, line as u64)?;
    text.extend_from_slice(b" ")?;
    text.extend_from_slice(cause.as_bytes())?;
    Ok(text)
}

/// The line of a cause that is at a place of the source.
#[tactic(auto, unfolding(crate::specs::Refusal::refusal_with_place))]
pub(crate) fn line_with_place(
    alloc: Global,
    line: u32,
    cause: &str,
    at: usize,
) -> Result<List<u8>, NoMemory>
    ensures { IfOk result (λ text. text ≡ refusal_with_place line cause.now at) }
{
    let mut text = begun(alloc, line, cause)?;
    text.extend_from_slice(b" ")?;
    push_decimal(&mut text, at as u64)?;
    text.extend_from_slice(b"\n")?;
    Ok(text)
}

/// The line of a cause that is at a name.
#[tactic(auto, unfolding(crate::specs::Refusal::refusal_with_name))]
pub(crate) fn line_with_name(
    alloc: Global,
    line: u32,
    cause: &str,
    name: &Name,
) -> Result<List<u8>, NoMemory>
    ensures { IfOk result (λ text. text ≡ refusal_with_name line cause.now name.now) }
{
    let mut text = begun(alloc, line, cause)?;
    text.extend_from_slice(b" ")?;
    text.extend_from_slice(name.as_bytes())?;
    text.extend_from_slice(b"\n")?;
    Ok(text)
}

/// The line of a fork of which two branches write one variable.
#[tactic(auto, unfolding(crate::specs::Refusal::refusal_with_branches))]
pub(crate) fn two_writers(
    alloc: Global,
    line: u32,
    name: &Name,
    first: u32,
    second: u32,
) -> Result<List<u8>, NoMemory>
    ensures { IfOk result (λ text. text ≡ refusal_with_branches line name.now first second) }
{
    let mut text = List::new(alloc);
    text.extend_from_slice(b"refused ")?;
    push_decimal(&mut text, line as u64)?;
    text.extend_from_slice(b" two writers ")?;
    text.extend_from_slice(name.as_bytes())?;
    text.extend_from_slice(b" ")?;
    push_decimal(&mut text, first as u64)?;
    text.extend_from_slice(b" ")?;
    push_decimal(&mut text, second as u64)?;
    text.extend_from_slice(b"\n")?;
    Ok(text)
}

/// The line of a cause that has no place but its line.
#[tactic(auto, unfolding(crate::specs::Refusal::refusal_without_place))]
pub(crate) fn line_without_place(
    alloc: Global,
    line: u32,
    cause: &str,
) -> Result<List<u8>, NoMemory>
    ensures { IfOk result (λ text. text ≡ refusal_without_place line cause.now) }
{
    let mut text = begun(alloc, line, cause)?;
    text.extend_from_slice(b"\n")?;
    Ok(text)
}

/// The line of a source that has too many of something.
pub(crate) fn too_many(alloc: Global, line: u32, what: Many) -> Result<List<u8>, NoMemory>
    ensures { IfOk result (λ text. text ≡ refusal_without_place line (many_words what)) }
{
    match what {
        Many::Functions => line_without_place(alloc, line, "too many functions"),
        Many::Parameters => line_without_place(alloc, line, "too many parameters"),
        Many::Arguments => line_without_place(alloc, line, "too many arguments"),
        Many::Throws => line_without_place(alloc, line, "too many throws"),
        Many::Locals => line_without_place(alloc, line, "too many locals"),
        Many::Branches => line_without_place(alloc, line, "too many branches"),
        Many::Operators => line_without_place(alloc, line, "too many operators"),
    }
}
