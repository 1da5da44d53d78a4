// What the children of a fork bring back, read off its code.
ghost use Rattle.std.specs.Prelude.{◌≡◌, drop, map};
ghost use Rattle.shim_machine.specs.Forking.{back_by};

use shim_code::MachineInstr;
use shim_walk::has_process::HasProcess;
use shim_walk::process::Process;

/// What the children took by reference comes back, each by the code of its branch, of which the first
/// begins at a place.
pub fn restore<P: HasProcess>(
    process: &mut Process,
    code: &[MachineInstr],
    start: usize,
    children: &[P],
)
    ensures { process.new ≡ record process.old { locations = back_by process.old.frame.slots 0 (map P.state children.now) (drop start code.now) process.old.locations } }
{
    let mut rest = children;
    let mut number = 0;
    let mut place = start;
    while place < code.len() {
        let Some((child, after)) = rest.split_first() else {
            return;
        };
        match &code[place] {
            MachineInstr::Ref(slot) => {
                process.restore_from(*slot, child.process(), number);
                number += 1;
            }
            MachineInstr::Pass(_, _) => number += 1,
            MachineInstr::Fresh(_, _) => number += 1,
            MachineInstr::Branch(_) => {
                rest = after;
                number = 0;
            }
            MachineInstr::Fork(_) => return,
            _ => {}
        }
        place += 1;
    }
}
