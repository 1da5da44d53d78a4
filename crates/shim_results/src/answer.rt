// Answers, and the lines of what is refused.
ghost use Rattle.std.specs.Prelude.{◌≡◌, ◌≢◌, IfOk};
ghost use Rattle.shim_scopes.specs.declared.ScopeFault.TheVariants as scope_faults;
ghost use Rattle.shim_parser.specs.declared.ParseFault.TheVariants as parse_faults;
ghost use Rattle.shim_sharing.specs.declared.ShareFault.TheVariants as share_faults;
ghost use Rattle.shim_front_end.specs.declared.SourceFault.TheVariants as faults;
ghost use Rattle.shim_results.specs.Answer as answers;
ghost use Rattle.shim_results.specs.Recorded.{journal_line};
ghost use Rattle.shim_results.specs.Views.{answer_view};

use crate::status::ExitStatus;
use shim_base::{List, NoMemory, push_decimal};
use shim_report::{SourceFault, fault_text};
use std::alloc::Global;

/// A status, and the text that is written with it.
#[derive(Drop)]
pub struct Answer {
    pub status: ExitStatus,
    pub text: List<u8>,
}

/// The answer to a source that has this fault; `NoMemory` where the fault is that memory ran out.
pub fn refused(alloc: Global, fault: SourceFault) -> Result<Answer, NoMemory>
    ensures { IfOk result (λ a. (fault ≢ faults.Parse parse_faults.NoMemory) × (fault ≢ faults.Scope scope_faults.NoMemory)
        × (fault ≢ faults.Share share_faults.NoMemory) × (answer_view a ≡ answers.refused fault)) }
{
    Ok(Answer {
        status: ExitStatus::Refused,
        text: fault_text(alloc, &fault)?,
    })
}

/// The answer to a journal that is refused at this line for this cause.
#[tactic(auto, unfolding(crate::specs::Recorded::journal_line))]
pub fn journal_refused(alloc: Global, line: u32, cause: &str) -> Result<Answer, NoMemory>
    ensures { IfOk result (λ a. answer_view a ≡ answers.journal_refused (journal_line line cause.now)) }
{
    let mut text = List::new(alloc);
    text.extend_from_slice(b"journal ")?;
    push_decimal(&mut text, line as u64)?;
    text.extend_from_slice(b" ")?;
    text.extend_from_slice(cause.as_bytes())?;
    text.extend_from_slice(b"\n")?;
    Ok(Answer {
        status: ExitStatus::JournalFault,
        text,
    })
}
