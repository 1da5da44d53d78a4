// Laws of the units of an accepted program, and of the trees that its runs reach.
ghost use Rattle.std.specs.Prelude.{ℕ, List};
ghost use Rattle.shim_semantics.specs.Trees.{Tree};
ghost use Rattle.shim_units.specs.declared.form.Form.{Form};
ghost use Rattle.shim_units.specs.OfText.{IsAcceptedForm};
ghost use Rattle.shim_process.specs.LocalState.{LocalState};
ghost use Rattle.shim_laws_sources.specs.Sources.{IsReachable};
ghost use Rattle.shim_laws_stops.specs.InForce.{AllInForce};
ghost use Rattle.shim_laws_stops.specs.InScope.{AllInScope};
ghost use Rattle.shim_laws_stops.specs.Ends.{EndsHaveNothingLeft};
ghost use Rattle.shim_laws_stops.specs.Streams.{GetsHaveInput, PutsHaveOutput};
ghost use Rattle.shim_laws_stops.specs.Named.{ArgumentsHaveLocations, ForksHaveBranches, NextsHaveLocations, VariablesHaveLocations};
ghost use Rattle.shim_laws_stops.specs.Thrown.{ThrownHavePlaces};

/// In the units of an accepted program each exception that a statement throws or hands on is in force
/// there: its unit was given it, or the statement stands in the body of its `try`. Each call and each
/// branch hands on an exception for each that its unit is given.
pub fn what_is_thrown_is_in_force()
    ensures { (form : Form) → IsAcceptedForm form → AllInForce form }
{}

/// In the units of an accepted program each variable that a statement stores in, waits at, reads in an
/// expression or gives to a call or a branch is in scope there: it is a parameter of its unit, or its
/// declaration stands before in the same block or in one around it, or it is the variable of a handler around the
/// statement. It holds what is asked for: a number, the input at a `get`, or the output at a `put`. Each call and
/// each branch has one argument for each parameter, of its kind, and is given no slot by reference twice; no two
/// branches of a fork are given one slot by reference, and each fork has a branch.
pub fn what_is_named_is_in_scope()
    ensures { (form : Form) → IsAcceptedForm form → AllInScope form }
{}

/// In each tree that a run of an accepted program reaches each exception that a live process throws has a
/// place: that of a `try` in force, its own or one of a process that waits around it, or else it is one
/// of those that `main` throws.
pub fn thrown_exceptions_have_places()
    ensures { (program : Form) (input : List ℕ) (t : Tree LocalState) → IsAcceptedForm program → IsReachable program input t → ThrownHavePlaces program t }
{}

/// In each tree that a run of an accepted program reaches the variable of each `next` at which a live
/// process stands has a location: the frame in which the process is has a number for the variable's slot,
/// and the location of that number is there. In the other laws of this module "has a location" means the same.
pub fn nexts_have_locations()
    ensures { (program : Form) (input : List ℕ) (t : Tree LocalState) → IsAcceptedForm program → IsReachable program input t → NextsHaveLocations t }
{}

/// In each tree that a run of an accepted program reaches, each variable that the statement at which a live process
/// stands may read or store in has a location. These are the variables in its expressions, of which a loop's is its
/// test, and in its arguments those of expressions and those given as a copy. The target of an assignment, a `next`
/// or a `get` is among them, too. What a declaration declares isn't: it gets its location there.
pub fn variables_have_locations()
    ensures { (program : Form) (input : List ℕ) (t : Tree LocalState) → IsAcceptedForm program → IsReachable program input t → VariablesHaveLocations t }
{}

/// In each tree that a run of an accepted program reaches, each fork at which a live process stands has a branch.
pub fn forks_have_branches()
    ensures { (program : Form) (input : List ℕ) (t : Tree LocalState) → IsAcceptedForm program → IsReachable program input t → ForksHaveBranches t }
{}

/// In each tree that a run of an accepted program reaches, each argument of a branch or a call at which a live
/// process stands has a location where it is a variable that holds a number. There is one argument for each
/// parameter.
pub fn arguments_have_locations()
    ensures { (program : Form) (input : List ℕ) (t : Tree LocalState) → IsAcceptedForm program → IsReachable program input t → ArgumentsHaveLocations t }
{}

/// In each tree that a run of an accepted program reaches, each live process that is at a `put` has the output.
pub fn puts_have_output()
    ensures { (program : Form) (input : List ℕ) (t : Tree LocalState) → IsAcceptedForm program → IsReachable program input t → PutsHaveOutput t }
{}

/// In each tree that a run of an accepted program reaches, each live process that is at a `get` has the input.
pub fn gets_have_input()
    ensures { (program : Form) (input : List ℕ) (t : Tree LocalState) → IsAcceptedForm program → IsReachable program input t → GetsHaveInput t }
{}

/// In each tree that a run of an accepted program reaches, a live process is at its end only where nothing is left
/// to do in the unit that it is in, and no unit waits for that one. So a process that stands at a `next`, a `put`
/// or a fork never has the stop of an end.
pub fn ends_have_nothing_left()
    ensures { (program : Form) (input : List ℕ) (t : Tree LocalState) → IsAcceptedForm program → IsReachable program input t → EndsHaveNothingLeft t }
{}
