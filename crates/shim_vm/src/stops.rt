// At what a process stands, by the mark at its place and the instructions after it.
ghost use Rattle.std.specs.Prelude.{◌≡◌, ◌<◌, ◌+◌, ◌^◌, true, drop, length, slice_get};
ghost use Rattle.std.specs.Option.{option_copied};
ghost use Rattle.shim_process.specs.Locations.{Locations};
ghost use Rattle.shim_process.specs.Stops.{at_put};
ghost use Rattle.shim_walk.specs.StatementContexts.{context_view};
ghost use Rattle.shim_machine.specs.MarkStops.{instr_stop, mark_stop};
ghost use Rattle.shim_code.specs.declared.instr.MarkKind.TheVariants as kind;
ghost use Rattle.shim_vm.specs.KeptStops.{is_kept_quiet, kept_view};
ghost use Rattle.shim_vm.specs.MarkedStops.{fork_stop, meeting_stop, throw_label};
ghost use Rattle.shim_vm.specs.Bursts.{is_quiet_kind, is_quiet_mark};

use crate::instrs::instr_at;
use shim_base::Trap;
use shim_code::{MachineInstr, Mark, MarkKind};
use shim_locations::locations::number_of;
use shim_walk::labels::label_for;
use shim_walk::next_action::StatementContext;

/// At what a process is, so that it can be kept beside the process: a rendezvous has the number of the
/// location whose channel it is on.
#[derive(Clone, Copy)]
pub enum KeptStop {
    Quiet,
    Next(usize),
    Put,
    Fork,
    Finish,
    Throw(u32),
    Trapped(Trap, u32),
}

impl KeptStop {
    /// At a statement that concerns its process alone.
    pub fn is_quiet(self) -> bool
        ensures { result ≡ is_kept_quiet self }
    {
        match self {
            KeptStop::Quiet => true,
            _ => false,
        }
    }
}

// At a rendezvous, which names its slot.
fn at_meeting(behind: Option<&MachineInstr>, context: &StatementContext<'_>) -> KeptStop
    ensures { kept_view context.now.locations.now result ≡ meeting_stop (option_copied behind.entry) (context_view context.now) }
{
    match behind {
        Some(MachineInstr::Next(slot)) => KeptStop::Next(number_of(context.slots, *slot)),
        _ => KeptStop::Finish,
    }
}

// The exception that an instruction throws.
fn thrown_by(instr: &MachineInstr) -> Option<u32>
    ensures { result ≡ throw_label instr.now }
{
    match instr {
        MachineInstr::Throw(exception) => Some(*exception),
        _ => None,
    }
}

// At a throw, whose instruction names its exception, behind those that compute its number.
#[tactic(auto, using(crate::proofs::MarkedStops::throws_here, crate::proofs::MarkedStops::throws_later, crate::proofs::MarkedStops::throws_nowhere))]
fn at_throw(behind: &[MachineInstr], context: &StatementContext<'_>) -> KeptStop
    requires { context.now.first + length context.now.places.now < 2 ^ 32 }
    ensures { kept_view context.now.locations.now result ≡ mark_stop kind.Throw behind.now (context_view context.now) }
{
    for place in 0..behind.len() {
        if let Some(instr) = behind.get(place) {
            if let Some(exception) = thrown_by(instr) {
                return KeptStop::Throw(label_for(context, exception));
            }
        }
    }
    KeptStop::Finish
}

// At a `put`, if the process has the output.
fn at_put(holds_output: bool) -> KeptStop
    ensures { (locations : Locations) → kept_view locations result ≡ at_put holds_output }
{
    if holds_output {
        KeptStop::Put
    } else {
        KeptStop::Finish
    }
}

// At a fork, or at the end if the fork's own instruction comes at once after the mark: it then has no branches.
fn at_fork(behind: Option<&MachineInstr>) -> KeptStop
    ensures { (locations : Locations) → kept_view locations result ≡ fork_stop (option_copied behind.entry) }
{
    match behind {
        Some(MachineInstr::Fork(_)) => KeptStop::Finish,
        _ => KeptStop::Fork,
    }
}

#[tactic(auto, using(crate::proofs::MarkedStops::meets_by, crate::proofs::MarkedStops::forks_by))]
fn mark_stop(mark: &Mark, behind: &[MachineInstr], context: &StatementContext<'_>) -> KeptStop
    requires { context.now.first + length context.now.places.now < 2 ^ 32 }
    ensures { kept_view context.now.locations.now result ≡ mark_stop mark.now.kind behind.now (context_view context.now) }
{
    match mark.kind {
        MarkKind::Quiet => KeptStop::Quiet,
        MarkKind::Next => at_meeting(instr_at(behind, 0), context),
        MarkKind::Put => at_put(context.holds_output),
        MarkKind::Throw => at_throw(behind, context),
        MarkKind::Fork => at_fork(instr_at(behind, 0)),
    }
}

/// At a place of the code of a process that isn't trapped.
pub fn stop_at(code: &[MachineInstr], place: usize, context: &StatementContext<'_>) -> KeptStop
    requires { context.now.first + length context.now.places.now < 2 ^ 32 }
    ensures { kept_view context.now.locations.now result ≡ instr_stop (slice_get code.now place) (drop (place + 1) code.now) (context_view context.now) }
{
    match instr_at(code, place) {
        Some(MachineInstr::Mark(mark)) => mark_stop(mark, &code[place + 1..], context),
        _ => KeptStop::Finish,
    }
}

fn is_quiet(kind: MarkKind) -> bool
    ensures { result ≡ is_quiet_kind kind }
{
    match kind {
        MarkKind::Quiet => true,
        _ => false,
    }
}

/// Whether the mark of a statement that concerns its process alone is at the place.
pub fn is_quiet_at(code: &[MachineInstr], place: usize) -> bool
    ensures is { result ≡ is_quiet_mark (slice_get code.now place) }
    ensures within { result ≡ true → place < length code.now }
{
    match instr_at(code, place) {
        Some(MachineInstr::Mark(mark)) => is_quiet(mark.kind),
        _ => false,
    }
}
