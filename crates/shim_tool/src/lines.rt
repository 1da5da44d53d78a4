// The answers to words and to files, of which no source comes.
ghost use Rattle.std.specs.Prelude.{◌≡◌, IfOk};
ghost use Rattle.shim_results.specs.Views.{answer_view};
ghost use Rattle.shim_tool.specs.Answer as answers;

use shim_base::{List, NoMemory, push_decimal};
use shim_results::{Answer, ExitStatus};
use std::alloc::Global;

/// The answer to words that ask for nothing.
#[tactic(auto, unfolding(crate::specs::Answer::usage_line))]
pub(crate) fn usage(alloc: Global) -> Result<Answer, NoMemory>
    ensures { IfOk result (λ a. answer_view a ≡ answers.usage) }
{
    let line =
        "usage: shim MODE FILE [INPUT]... [--input FILE] [--workers N] [--budget B] [--quantum Q] [--size N] [--journal FILE] [--steal]\n";
    Ok(Answer {
        status: ExitStatus::Usage,
        text: List::from_slice(alloc, line.as_bytes())?,
    })
}

/// The answer to a file that could not be read.
#[tactic(auto, unfolding(crate::specs::Answer::failed_line))]
pub(crate) fn file_failed(alloc: Global, name: &[u8]) -> Result<Answer, NoMemory>
    ensures { IfOk result (λ a. answer_view a ≡ answers.file_failed name.now) }
{
    let mut text = List::new(alloc);
    text.extend_from_slice(b"file failed ")?;
    text.extend_from_slice(name)?;
    text.extend_from_slice(b"\n")?;
    Ok(Answer {
        status: ExitStatus::FileFault,
        text,
    })
}

/// The answer to a file that has more bytes than these.
#[tactic(auto, unfolding(crate::specs::Answer::longer_line))]
pub(crate) fn file_too_long(alloc: Global, name: &[u8], limit: usize) -> Result<Answer, NoMemory>
    ensures { IfOk result (λ a. answer_view a ≡ answers.file_too_long name.now limit) }
{
    let mut text = List::new(alloc);
    text.extend_from_slice(b"file too long ")?;
    text.extend_from_slice(name)?;
    text.extend_from_slice(b" ")?;
    push_decimal(&mut text, limit as u64)?;
    text.extend_from_slice(b"\n")?;
    Ok(Answer {
        status: ExitStatus::FileFault,
        text,
    })
}
