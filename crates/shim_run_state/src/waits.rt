// Who waits in a run state.
ghost use Rattle.std.specs.Prelude.{◌≡◌, OnOk};
ghost use Rattle.shim_semantics.specs.Nodes.{next_channel};
ghost use Rattle.shim_semantics.specs.Endings.{wait_of};
ghost use Rattle.shim_run_log.specs.Waits.{with_waits};
ghost use Rattle.shim_run_state.specs.Gathering.{AddsWaits};

use shim_base::NoMemory;
use shim_local::{Local, Stop};
use shim_process_table::ProcessTable;
use shim_records::Status;
use shim_run_log::Waits;

// Adds this live process, if it is at a channel.
fn gather_live<L: Local>(process: &L, waits: &mut Waits) -> Result<(), NoMemory>
    ensures { OnOk result (waits.new ≡ with_waits waits.old (wait_of (L.ops.path process.now) (next_channel (L.ops.stop process.now)))) }
{
    match process.stop() {
        Stop::Next(chan) => waits.add(process.path(), chan),
        Stop::Quiet => Ok(()),
        Stop::Put => Ok(()),
        Stop::Fork => Ok(()),
        Stop::Finish => Ok(()),
        Stop::Throw(_) => Ok(()),
        Stop::Trapped(_, _) => Ok(()),
    }
}

/// Adds each live process at and below this number that waits at a channel, in the order of the tree, on so many
/// levels, of which that of the number itself is the first.
pub(crate) fn gather<L: Local>(
    table: &ProcessTable<L>,
    levels: u64,
    number: usize,
    waits: &mut Waits,
) -> Result<(), NoMemory>
    ensures { OnOk result (AddsWaits L.ops table.now levels number waits.old waits.new) }
{
    if levels == 0 {
        return Ok(());
    }
    let Some(process) = table.state(number) else {
        return Ok(());
    };
    let Some(here) = table.record(number) else {
        return Ok(());
    };
    match here.status {
        Status::Live => gather_live(process, waits),
        Status::Free => Ok(()),
        Status::Ended => Ok(()),
        Status::Dead(_) => Ok(()),
        Status::Forked(count) => {
            let first = here.first as usize;
            for branch in 0..count {
                gather(table, levels - 1, first + branch as usize, waits)?;
            }
            Ok(())
        }
    }
}
