// The lines that say who waits for whom, and a cycle of waits.
ghost use Rattle.std.specs.Prelude.{◌≡◌, ◌++◌, OnOk, flat_map};
ghost use Rattle.shim_reasons.specs.Reasons.{because_line, cycle_line, reasons, spaced_path};

use shim_base::{List, NoMemory, Path, push_channel, push_path};
use shim_waits::{Explained, Wait};

/// Adds a line for each process that waits, and then a line with a cycle of waits. The line of a process
/// has its path, the process that holds it up, and the process that it waits for. It ends with the channel
/// at which this last process waits.
#[tactic(auto, unfolding(crate::specs::Reasons::reasons))]
pub fn push_reasons(text: &mut List<u8>, explained: &Explained) -> Result<(), NoMemory>
    ensures { OnOk result (text.new ≡ text.old ++ reasons explained.now) }
{
    push_waits(text, explained.waits.as_slice())?;
    push_cycle(text, explained.cycle.as_slice())
}

fn push_waits(text: &mut List<u8>, waits: &[Wait]) -> Result<(), NoMemory>
    ensures { OnOk result (text.new ≡ text.old ++ flat_map because_line waits.now) }
{
    for wait in waits {
        push_because(text, wait)?;
    }
    Ok(())
}

#[tactic(auto, unfolding(crate::specs::Reasons::because_line))]
fn push_because(text: &mut List<u8>, wait: &Wait) -> Result<(), NoMemory>
    ensures { OnOk result (text.new ≡ text.old ++ because_line wait.now) }
{
    text.extend_from_slice(b"because")?;
    push_spaced_path(text, &wait.path)?;
    push_spaced_path(text, &wait.holder)?;
    push_spaced_path(text, &wait.by)?;
    text.extend_from_slice(b" ")?;
    push_channel(text, &wait.at)?;
    text.extend_from_slice(b"\n")
}

#[tactic(auto, unfolding(crate::specs::Reasons::cycle_line))]
fn push_cycle(text: &mut List<u8>, cycle: &[Path]) -> Result<(), NoMemory>
    ensures { OnOk result (text.new ≡ text.old ++ cycle_line cycle.now) }
{
    text.extend_from_slice(b"cycle")?;
    push_paths(text, cycle)?;
    text.extend_from_slice(b"\n")
}

// Adds a space and then the path.
#[tactic(auto, unfolding(crate::specs::Reasons::spaced_path))]
fn push_spaced_path(text: &mut List<u8>, path: &Path) -> Result<(), NoMemory>
    ensures { OnOk result (text.new ≡ text.old ++ spaced_path path.now) }
{
    text.extend_from_slice(b" ")?;
    push_path(text, path)
}

fn push_paths(text: &mut List<u8>, paths: &[Path]) -> Result<(), NoMemory>
    ensures { OnOk result (text.new ≡ text.old ++ flat_map spaced_path paths.now) }
{
    for path in paths {
        push_spaced_path(text, path)?;
    }
    Ok(())
}
