// The name of an exception that nobody caught, in place of its label.
ghost use Rattle.std.specs.Prelude.{◌≡◌};
ghost use Rattle.shim_reference.specs.Naming as naming;

use shim_local::{Ended, Outcome};

/// What is read off a run, where an exception that nobody caught has the number of its name and no longer its
/// label. `throws` are the names that stand after `throws` in the head of `main`, in order.
pub fn named(ended: Ended, throws: &[u32]) -> Ended
    ensures { result ≡ naming.named throws.now ended }
{
    Ended {
        outcome: named_outcome(ended.outcome, throws),
        ..ended
    }
}

fn named_outcome(outcome: Outcome, throws: &[u32]) -> Outcome
    ensures { result ≡ naming.named_outcome throws.now outcome }
{
    match outcome {
        Outcome::Uncaught(label) => Outcome::Uncaught(name_of(label, throws)),
        Outcome::Done | Outcome::Trapped | Outcome::Blocked | Outcome::Spent => outcome,
    }
}

// The number of the name of this label, where there is one. The first name has label 1, since 0 is a
// trap's.
fn name_of(label: u32, throws: &[u32]) -> u32
    ensures { result ≡ naming.label_name throws.now label }
{
    if label == 0 {
        return label;
    }
    match throws.get(label as usize - 1) {
        Some(name) => *name,
        None => label,
    }
}
