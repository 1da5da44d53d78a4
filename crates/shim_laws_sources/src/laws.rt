// Laws of the units of an accepted program, and of the trees that runs of a program reach.
ghost use Rattle.std.specs.Prelude.{ℕ, List};
ghost use Rattle.shim_semantics.specs.Trees.{Tree};
ghost use Rattle.shim_units.specs.declared.form.Form.{Form};
ghost use Rattle.shim_process.specs.LocalState.{LocalState};
ghost use Rattle.shim_units.specs.OfText.{IsAcceptedForm};
ghost use Rattle.shim_process.specs.OwnSlots.{UsesOwnSlots};
ghost use Rattle.shim_laws_sources.specs.DeclaredSorts.{HasDeclaredSorts};
ghost use Rattle.shim_laws_sources.specs.Sources.{IsReachable, HasOneInput, HasSources};

/// The units of an accepted program declare slots of their own, which come after those of their
/// parameters, and each call and each branch has one argument for each parameter.
pub fn units_use_slots_of_their_own()
    ensures { (form : Form) → IsAcceptedForm form → UsesOwnSlots form }
{}

/// In each unit of an accepted program the slot of a declaration, in a block of any depth too, has the
/// sort of the declaration. The slot of a handler's variable is that of an `int32`.
pub fn declared_slots_have_their_sorts()
    ensures { (form : Form) → IsAcceptedForm form → HasDeclaredSorts form }
{}

/// In each tree that a run of an accepted program reaches at most one process has the input, and where a live
/// process is at a `next`, some process of the tree has the own variable of that channel.
pub fn sources()
    ensures input { (program : Form) (input : List ℕ) (t : Tree LocalState) → IsAcceptedForm program → IsReachable program input t → HasOneInput t }
    ensures carried { (program : Form) (input : List ℕ) (t : Tree LocalState) → IsAcceptedForm program → IsReachable program input t → HasSources t }
{}
