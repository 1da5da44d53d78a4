// Laws of compiled code.
ghost use Rattle.std.specs.Prelude.{◌≡◌, ◌⊎◌, ◌+◌, ℕ, List, [], length};
ghost use Rattle.shim_local.specs.Process.{AtFork};
ghost use Rattle.shim_scopes.specs.declared.tree.UExpr.{UExpr};
ghost use Rattle.shim_units.specs.OfText.{IsAcceptedForm};
ghost use Rattle.shim_process.specs.LocalState.{LocalState, env_of, unit_at};
ghost use Rattle.shim_process.specs.Steps.{Wait, next_action};
ghost use Rattle.shim_process.specs.Stops.{stop};
ghost use Rattle.shim_process.specs.Values.{Env, value};
ghost use Rattle.shim_walk_frames.specs.Pieces.{left_all};
ghost use Rattle.shim_code.specs.MachineCode.{machine_expr};
ghost use Rattle.shim_machine.specs.Simulation.{NextSuits};
ghost use Rattle.shim_machine.specs.Machine.{CodedUnit};
ghost use Rattle.shim_machine.specs.Correspondence.{HasAt, IsPlaceOf};
ghost use Rattle.shim_vm.specs.Actions.{EndAgrees};
ghost use Rattle.shim_vm.specs.Computing.{Computation, Computed, Computes, ComputesValue};
ghost use Rattle.shim_vm.specs.Gathering.{ComesToFork};

/// The code of an expression, wherever it stands, computes its value, and leaves all else as it was; or
/// it traps as the expression does.
pub fn expressions_are_computed()
    ensures { (u : CodedUnit) (env : Env) (slots : List ℕ) (e : UExpr) (c : Computation) (n : ℕ) → HasAt u n c.place (machine_expr e c.place) → ComputesValue env slots u.code c (c.place + length (machine_expr e c.place)) (value e env) }
{}

/// From the mark at which a process stands its code computes, and comes to an instruction that does what
/// the statement asks for, where the code of what comes then stands after it; or it traps as the
/// statement does. Or the statement isn't quiet.
pub fn a_mark_leads_to_what_is_asked_for()
    ensures { (u : CodedUnit) (l : LocalState) (place : ℕ) → u.units ≡ l.program.units → NextSuits l.frame.todo l → IsPlaceOf u place l.frame.todo l.frame.halfway → (next_action l ≡ Wait) ⊎ ((r : Computed) × (Computes (env_of l.locations l.frame.slots) l.frame.slots u.code (record { place = place + 1; stack = []; given = [] }) r × EndAgrees u l r (next_action l))) }
{}

/// Where a process of an accepted program is at a number of its unit, a call there has an argument for
/// each parameter.
pub fn a_call_suits_its_unit()
    ensures { (l : LocalState) (number : ℕ) → IsAcceptedForm l.program → l.frame.todo ≡ left_all (unit_at l.program l.frame.unit).body number → NextSuits l.frame.todo l }
{}

/// From the mark of a fork its code gathers the branches, each with its arguments, in order, and comes to
/// the fork of these, which makes the children that the definition says; or it traps as the first argument
/// does that has no value. After the fork stands the code of what comes then.
pub fn a_fork_gathers_its_branches()
    ensures { (u : CodedUnit) (l : LocalState) (place : ℕ) → u.units ≡ l.program.units → NextSuits l.frame.todo l → IsPlaceOf u place l.frame.todo l.frame.halfway → stop l ≡ AtFork → ComesToFork u l (place + 1) }
{}
