// Small processes that are tied.
ghost use Rattle.shim_laws_tied.proofs.EqualStates.{AreEqual, equality_is_kept};
ghost use Rattle.shim_tests_small.specs.Small.{small_ops};
ghost use Rattle.shim_tests_trees.specs.UnseenValues.{DifferUnseen, unseen_is_kept};

use shim_tests_small::Small;
use shim_tree::laws::{Tie, lift};

// A small process and itself.
struct Itself;

impl Tie for Itself {
    type One = Small;

    type Other = Small;

    ghost tied = { AreEqual };

    ghost kept = { equality_is_kept small_ops };
}

// Small processes that differ at most in values that no call tells.
struct Unseen;

impl Tie for Unseen {
    type One = Small;

    type Other = Small;

    ghost tied = { DifferUnseen };

    ghost kept = { unseen_is_kept };
}

#[test]
fn trees_of_equal_small_processes_do_the_same() {
    lift::<Itself>();
}

#[test]
fn trees_of_small_processes_with_other_unseen_values_do_the_same() {
    lift::<Unseen>();
}
