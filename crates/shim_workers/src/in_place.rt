// Pieces that are done where the process stands, by who has the net: nothing is given out for them.
ghost use Rattle.std.specs.Prelude.{◌≡◌, ◌≤◌, IfOk, OnOk};
ghost use Rattle.shim_net.specs.Progress.{GoesOn};
ghost use Rattle.shim_workers.specs.Progress.{StepsOn};
ghost use Rattle.shim_workers.specs.Workers.{SameName};

use shim_base::NoMemory;
use shim_local::Local;
use shim_net::{Gate, Net};

/// The process that is next at home does up to `most` quiet steps in place, behind the gate, and it is answered
/// how many; `None` where none is at home, or nothing is left of the budget.
pub(crate) fn step_next<L: Local, G: Gate>(
    net: &mut Net<L>,
    most: u64,
    gate: &G,
) -> Result<Option<u64>, NoMemory>
    requires most { 1 ≤ most }
    ensures name { SameName net.old net.new }
    ensures goes_on { OnOk result (GoesOn L.ops net.old net.new) }
    ensures same { OnOk result (net.new.grants ≡ net.old.grants) }
    ensures did { IfOk result (λ taken. StepsOn L.ops net.old net.new taken) }
{
    match net.enter_and_step(most, gate)? {
        None => Ok(None),
        Some(quiet) => {
            if quiet.short {
                return Err(NoMemory);
            }
            Ok(Some(quiet.taken))
        }
    }
}
