// Laws of what is printed of sources.
ghost use Rattle.std.specs.Prelude.{◌≡◌, ◌↔◌, List, Ok, length, map};
ghost use Rattle.std.specs.List.{All, Any};
ghost use Rattle.shim_syntax.specs.declared.Program.{Program};
ghost use Rattle.shim_front_end.specs.Source.{Source, checked};
ghost use Rattle.shim_process.specs.LocalState.{LocalState};
ghost use Rattle.shim_process.specs.OwnSlots.{UsesOwnSlots};
ghost use Rattle.shim_semantics.specs.Trees.{Tree};
ghost use Rattle.shim_results.specs.SourceActions.{functions_from};
ghost use Rattle.shim_results.specs.Batches.{greatest};
ghost use Rattle.shim_results.specs.RunEnds.{status_of, BeginAlike, Execution, IsBeginning, IsBlocked, IsDone, IsFailed, IsSpent};

/// What `check` prints of a source is how many functions its text has.
pub fn functions_are_counted()
    ensures { (program : Program) (source : Source) → checked program ≡ Ok source → functions_from 0 source.units ≡ length program.functions }
{}

/// Of two trees of one source on one input, let output and histories be prefixes of what as many rounds give as the
/// tree's budget has events. Then one of their outputs is a prefix of the other. Of each channel with a history in
/// both, one history is a prefix of the other, and both have one name. Which of the two is the longer may differ from
/// channel to channel.
pub fn stopped_runs_begin_alike()
    ensures { (x y : Execution) (t u : Tree LocalState) → x.source ≡ y.source → x.input ≡ y.input → IsBeginning x t → IsBeginning y u → BeginAlike t u }
{}

/// What the greatest status of several executions says, as a batch ends with it: 0 exactly where the meaning
/// of each is done, 4 exactly where that of one is stopped by its budget, 3 exactly where none is stopped and
/// one is blocked, and 1 exactly where none is stopped or blocked and one failed. It is asked that each source
/// uses slots of its own, as all sources do that are accepted.
pub fn batches_end_by_all()
    ensures done { (xs : List Execution) → All (λ x. UsesOwnSlots x.source) xs → (greatest (map status_of xs) ≡ 0) ↔ All IsDone xs }
    ensures spent { (xs : List Execution) → All (λ x. UsesOwnSlots x.source) xs → (greatest (map status_of xs) ≡ 4) ↔ Any IsSpent xs }
    ensures blocked { (xs : List Execution) → All (λ x. UsesOwnSlots x.source) xs → (greatest (map status_of xs) ≡ 3) ↔ (Any IsBlocked xs × (Any IsSpent xs → ⊥)) }
    ensures failed { (xs : List Execution) → All (λ x. UsesOwnSlots x.source) xs → (greatest (map status_of xs) ≡ 1) ↔ (Any IsFailed xs × (Any IsBlocked xs → ⊥) × (Any IsSpent xs → ⊥)) }
{}
