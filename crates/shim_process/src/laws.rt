// Laws of the states of a process.
ghost use Rattle.std.specs.Prelude.{ℕ, List, true, false, ◌≡◌, ◌⊎◌, ◌↔◌};
ghost use Rattle.shim_base.specs.Paths.{Channel};
ghost use Rattle.shim_local.specs.Laws.{LocalLaws};
ghost use Rattle.shim_units.specs.declared.form.Form.{Form};
ghost use Rattle.shim_process.specs.Forks.{root};
ghost use Rattle.shim_process.specs.Sharers.{shares};
ghost use Rattle.shim_process.specs.Ops.{process_ops};
ghost use Rattle.shim_process.specs.OwnSlots.{UsesOwnSlots};
ghost use Rattle.shim_process.specs.SerialRuns.{is_in_runs, with_serial, without_serial};
ghost use Rattle.shim_process.specs.Sound.{Sound};
ghost use Rattle.shim_process.specs.declared.serial_run.SerialRun.{SerialRun};

/// The functions of the definition meet the laws of each kind of process.
pub fn process_obeys_the_laws()
    ensures { LocalLaws process_ops }
{}

/// The state in which the process that runs `main` begins is sound if the units of the program use slots of
/// their own. Those of each accepted program do.
pub fn root_is_sound()
    ensures { (program : Form) (input : List ℕ) → UsesOwnSlots program → Sound (root program input) }
{}

/// The process that runs `main` shares no channel at first: it was given none and made none.
pub fn root_shares_nothing()
    ensures { (program : Form) (input : List ℕ) (c : Channel) → shares (root program input) c ≡ false }
{}

/// With one more, runs have that number and those that they had, and no others.
pub fn a_number_is_added()
    ensures { (i n : ℕ) (runs : List SerialRun) → (is_in_runs i (with_serial n runs) ≡ true) ↔ ((i ≡ n) ⊎ (is_in_runs i runs ≡ true)) }
{}

/// Without one, runs have those that they had but for that number, and no others.
pub fn a_number_is_taken_out()
    ensures { (i n : ℕ) (runs : List SerialRun) → (is_in_runs i (without_serial n runs) ≡ true) ↔ ((is_in_runs i runs ≡ true) × (i ≡ n → ⊥)) }
{}
