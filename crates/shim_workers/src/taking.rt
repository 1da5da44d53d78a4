// Taking back the work of a round.
ghost use Rattle.std.specs.Prelude.{OnOk};
ghost use Rattle.shim_net.specs.Progress.{GoesOn};
ghost use Rattle.shim_workers.specs.Progress.{HaveSteps};

use shim_base::NoMemory;
use shim_local::{Finished, Local};
use shim_net::{Absorbed, Net};

// Drops a piece of no grant, which changes nothing. The work of its grant is done by `redo_all`, at the end of the
// round.
fn discard<L: Local>(_finished: Finished<L>) -> Result<(), NoMemory> {
    Ok(())
}

// Takes in a piece that was done. One that ran out of memory is `NoMemory`.
fn take<L: Local>(net: &mut Net<L>, finished: Finished<L>) -> Result<(), NoMemory>
    requires steps { HaveSteps L.ops net.old.grants }
    ensures goes_on { OnOk result (GoesOn L.ops net.old net.new) }
    ensures steps { OnOk result (HaveSteps L.ops net.new.grants) }
{
    match net.absorb(finished) {
        Absorbed::Taken => Ok(()),
        Absorbed::Short => Err(NoMemory),
        Absorbed::Stranger(finished) => discard(finished),
    }
}

/// Takes in all that one assignment did.
pub(crate) fn take_in_all<L: Local>(
    net: &mut Net<L>,
    done: Vec<Finished<L>>,
) -> Result<(), NoMemory>
    requires steps { HaveSteps L.ops net.old.grants }
    ensures goes_on { OnOk result (GoesOn L.ops net.old net.new) }
    ensures steps { OnOk result (HaveSteps L.ops net.new.grants) }
{
    for finished in done {
        take(net, finished)?;
    }
    Ok(())
}
