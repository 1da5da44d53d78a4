// The two kinds of process that are run, tied.
ghost use Rattle.shim_laws_tied.proofs.EqualStates.{AreEqual, equality_is_kept};
ghost use Rattle.shim_process.specs.Ops.{process_ops};

use shim_tree::laws::Tie;
use shim_vm::Body;
use shim_walk::Walk;

/// Processes over compiled code and those over syntax, tied where both have the same state.
///
/// The law `lift` of `shim_tree::laws` then says of `run` and `ref` that a tree of the one does what a tree
/// of the other does that has equal states: an event is enabled in both or in none, in the same order,
/// leads to equal states again, and the same is read off both. So every run of the compiled code, in
/// whatever order its events come, is a run of the syntax, and within every budget both come to one end.
pub struct CodeAndSyntax;

impl Tie for CodeAndSyntax {
    type One = Body;

    type Other = Walk;

    ghost tied = { AreEqual };

    ghost kept = { equality_is_kept process_ops };
}
