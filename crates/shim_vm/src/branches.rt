// The branches that the code of a fork gathers, with the children that are made of them, and the place
// after it.
ghost use Rattle.std.specs.Prelude.{◌≡◌, ◌+◌, ◌||◌, ◌++◌, ◌∷◌, [], List as ListOf, drop, length, Err, IfOk, OnOk, if◌then◌else◌};
ghost use Rattle.std.specs.Option.{option_copied};
ghost use Rattle.shim_base.specs.declared.operators.Trap.{Trap as TrapOf};
ghost use Rattle.shim_base.specs.declared.operators.Trap.TheVariants.{Depth};
ghost use Rattle.shim_local.specs.Process.{Parted, Trapped};
ghost use Rattle.shim_process.specs.Forks.{fork, is_far};
ghost use Rattle.shim_process.specs.LocalState.{LocalState, is_full, trapped};
ghost use Rattle.shim_process.specs.Steps.{line_of};
ghost use Rattle.shim_locations.specs.Given.{arguments_of};
ghost use Rattle.shim_locations.specs.Lendings.{remainder_of};
ghost use Rattle.shim_locations.specs.declared.argument_fault.ArgumentFault.TheVariants as fault;
ghost use Rattle.shim_machine.specs.Forking.{after_fork, child_of, lending_by};
ghost use Rattle.shim_machine.specs.Machine.{CodedUnit, GatheredBranch};
ghost use Rattle.shim_vm.specs.Gathering.{ComesToFork, Gathered, Gathers, NextBranch, branch_of, is_fork_instr};

use crate::computing::Computation;
use crate::instrs::instr_at;
use shim_base::{List, NoMemory};
use shim_code::{Callee, MachineInstr};
use shim_locations::argument::Argument;
use shim_locations::argument_fault::ArgumentFault;
use shim_locations::location::Location;
use shim_locations::remainder::Remainder;
use shim_walk::process::Process;

/// Computes from a place on the arguments of the next branch of a fork, and answers its callee; `None` where the
/// fork itself is there. Code that comes to neither counts as out of memory: the code of no fork
/// is such.
pub fn next_branch<'a>(
    computation: &mut Computation,
    place: usize,
    code: &'a [MachineInstr],
    locations: &[Option<Location>],
    slots: &[usize],
) -> Result<Option<&'a Callee>, ArgumentFault>
    ensures { (l : LocalState) (gs : ListOf GatheredBranch) (r : Gathered) → l.locations ≡ locations.now → l.frame.slots ≡ slots.now → Gathers l code.now gs place r → NextBranch l code.now gs r result computation.new }
{
    computation.begin(place);
    computation.run(code, locations, slots)?;
    match instr_at(code, computation.place()) {
        Some(MachineInstr::Branch(callee)) => Ok(Some(callee)),
        Some(MachineInstr::Fork(_)) => Ok(None),
        _ => Err(ArgumentFault::NoMemory),
    }
}

// Most forks have no more branches than these.
const USUAL_BRANCHES: usize = 2;

// The child of one branch more, with these arguments, is made of what is left.
fn make_child(
    process: &Process,
    callee: &Callee,
    given: &[Argument],
    remainder: &mut Remainder,
    children: &mut List<Process>,
) -> Result<(), NoMemory>
    ensures child { OnOk result (children.new ≡ children.old ++ child_of (remainder_of process.now remainder.old) (length children.old) (branch_of process.now callee.now (arguments_of given.now)) ∷ []) }
    ensures left { OnOk result (remainder_of process.now remainder.new ≡ lending_by (remainder_of process.now remainder.old) (branch_of process.now callee.now (arguments_of given.now))) }
{
    let place = u32::try_from(children.len()).map_err(|_| NoMemory)?;
    let throws = callee.throws.as_slice();
    let child = process.child(remainder, place, callee.unit, throws, given)?;
    children.push(child)?;
    process.lend_given(remainder, callee.unit, given)
}

/// The children of the branches that the code of a fork gathers from a place on, each of what those before
/// it have left, which is the whole process at first. The limits of forks aren't asked for.
pub fn make_children(
    process: &Process,
    code: &[MachineInstr],
    start: usize,
    remainder: &mut Remainder,
) -> Result<List<Process>, ArgumentFault>
    requires whole { remainder_of process.now remainder.old ≡ process.now }
    requires forks { (u : CodedUnit) × (u.code ≡ code.now) × ComesToFork u process.now start }
    ensures children { IfOk result (λ children. fork process.now ≡ (if is_far process.now || is_full process.now then Trapped (trapped Depth (line_of process.now.frame.todo) process.now) else Parted (record (remainder_of process.now remainder.new) { forks = process.now.forks + 1 }) children)) }
    ensures trap { (t : TrapOf) → result ≡ Err (fault.Trapped t) → fork process.now ≡ Trapped (trapped t (line_of process.now.frame.todo) process.now) }
{
    let alloc = remainder.taken.allocator();
    let mut computation = Computation::new(alloc);
    let mut children = List::with_capacity(alloc, USUAL_BRANCHES)?;
    let mut place = start;
    for _ in 0..=code.len() {
        let next = next_branch(
            &mut computation,
            place,
            code,
            process.locations(),
            process.slots(),
        )?;
        let Some(callee) = next else {
            return Ok(children);
        };
        make_child(
            process,
            callee,
            computation.given(),
            remainder,
            &mut children,
        )?;
        place = computation.place().checked_add(1).ok_or(NoMemory)?;
    }
    Err(ArgumentFault::NoMemory)
}

fn is_fork_instr(instr: Option<&MachineInstr>) -> bool
    ensures { result ≡ is_fork_instr (option_copied instr.entry) }
{
    match instr {
        Some(MachineInstr::Fork(_)) => true,
        _ => false,
    }
}

/// The place after the first fork that is at a place or later.
pub fn after_fork(code: &[MachineInstr], place: usize) -> usize
    ensures { result ≡ after_fork place (drop place code.now) }
{
    let mut place = place;
    while place < code.len() {
        if is_fork_instr(instr_at(code, place)) {
            return place + 1;
        }
        place += 1;
    }
    place
}
