// Laws of the sharing rule.
ghost use Rattle.std.specs.Prelude.{◌≡◌, ◌↔◌, ℕ, List, [], None, Some, Ok};
ghost use Rattle.shim_syntax.specs.declared.tree.Sort.{Sort};
ghost use Rattle.shim_scopes.specs.declared.form.Form.{Form as Resolved};
ghost use Rattle.shim_scopes.specs.Resolving.{IsFormOfText};
ghost use Rattle.shim_sharing.specs.declared.fault.ShareFault.{ShareFault};
ghost use Rattle.shim_sharing.specs.declared.fork.Clash.{Clash};
ghost use Rattle.shim_sharing.specs.declared.found.Offence.{Offence};
ghost use Rattle.shim_units.specs.declared.found.Given.{Given};
ghost use Rattle.shim_units.specs.declared.form.Form.{Form};
ghost use Rattle.shim_sharing.specs.Accepting.{accepted};
ghost use Rattle.shim_sharing.specs.Laws.{HasTwoWriters, IsClash, IsLeast, IsLeftmostAlias, IsFirstOffence, IsFirstRefusal, IsAccepted};
ghost use Rattle.shim_sharing.specs.Sharing.{clash_from, given_again, first_offence};
ghost use Rattle.shim_units.specs.Sizes.{AreSmall};
ghost use Rattle.shim_units.specs.Captures.{Captures};
ghost use Rattle.shim_units.specs.OfText.{IsAcceptedForm};
ghost use Rattle.shim_units.specs.Parts.{SharingPlace};
ghost use Rattle.shim_units.specs.Rule.{Obeys};
ghost use Rattle.shim_sharing.specs.Refusals.{refusal};

/// Nothing of a program is refused exactly where every fork and call of it obeys the sharing rule.
pub fn refused_unless_obeyed()
    ensures { (p : Resolved) → (refusal p ≡ None) ↔ Obeys p }
{}

/// Where nothing is refused, no two branches of a fork take one variable or stream by reference.
pub fn accepted_has_no_two_writers()
    ensures { (p : Resolved) → refusal p ≡ None → HasTwoWriters p → ⊥ }
{}

/// The two branches that a refusal of a fork reports both take the reported variable by reference. No lesser
/// pair of branches takes one variable by reference, and this pair takes none that is declared earlier.
pub fn least_clash_is_reported()
    ensures { (n : ℕ) (branches : List Captures) (c : Clash) → clash_from n 0 branches ≡ Some c → IsClash n branches c × IsLeast n branches c }
{}

/// The variable that a refusal of a call reports is given by reference at one of its arguments and is
/// another argument, too; and no argument by reference left of that one is given again.
pub fn leftmost_alias_is_reported()
    ensures { (gs : List Given) (x : ℕ) → given_again [] gs ≡ Some x → IsLeftmostAlias gs x }
{}

/// The offence that is reported of some places is that of the first of them that does not obey the rule: all
/// before it do. The line is that of the fork or the call; of a fork the least clash is reported, of a call the
/// leftmost alias.
pub fn first_offence_is_reported()
    ensures { (sorts : List Sort) (places : List SharingPlace) (o : Offence) → first_offence sorts places ≡ Some o → IsFirstOffence sorts places o }
{}

/// What is reported of a program is the offence of its first place that does not obey the rule, in the
/// first function that has such a place, with the variable by its name in the text.
pub fn first_refusal_is_reported()
    ensures { (p : Resolved) (fault : ShareFault) → refusal p ≡ Some fault → IsFirstRefusal p fault }
{}

/// `from_form` of `shim_units` requires a condition that holds of exactly the units that `accepted` gives
/// for some program with a text of at most 1,048,576 bytes.
pub fn kept_is_accepted()
    ensures { (form : Form) → IsAcceptedForm form ↔ ∥ IsAccepted form ∥₁ }
{}

/// An accepted program with a text of at most 1,048,576 bytes has fewer than 2 ^ 21 units. The statements
/// of all its units have fewer than 2 ^ 21 numbers. The size of all its units, with the expressions and with
/// the arguments of calls, of functions and of lifted branches, is below 2 ^ 28.
pub fn units_are_small()
    ensures { (p : Resolved) (form : Form) → IsFormOfText p → accepted p ≡ Ok form → AreSmall form.units }
{}
