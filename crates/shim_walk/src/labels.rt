// The labels of exceptions.
ghost use Rattle.std.specs.Prelude.{◌≡◌, ◌<◌, ◌+◌, ◌^◌, length, IfOk};
ghost use Rattle.shim_process.specs.StatementViews.{label_of, passed_labels};
ghost use Rattle.shim_walk.specs.StatementContexts.{context_view};

use crate::next_action::StatementContext;
use shim_base::{List, NoMemory};
use shim_walk_frames::text::nth_label;
use std::alloc::Global;

/// The label of an exception of the innermost frame: that of its innermost exception place in force, or else the one
/// that the frame was given.
pub fn label_for(context: &StatementContext<'_>, exception: u32) -> u32
    requires { context.now.first + length context.now.places.now < 2 ^ 32 }
    ensures { result ≡ label_of (context_view context.now) exception }
{
    let mut label = nth_label(context.labels, exception);
    let mut next = context.first;
    for place in context.places {
        if place.exception == exception {
            label = next;
        }
        next += 1;
    }
    label
}

/// The labels of the exceptions that a call or a branch passes on.
pub fn labels_for(
    alloc: Global,
    context: &StatementContext<'_>,
    throws: &[u32],
) -> Result<List<u32>, NoMemory>
    requires { context.now.first + length context.now.places.now < 2 ^ 32 }
    ensures { IfOk result (λ passed. passed ≡ passed_labels (context_view context.now) throws.now) }
{
    let mut passed = List::with_capacity(alloc, throws.len())?;
    for exception in throws {
        passed.push(label_for(context, *exception))?;
    }
    Ok(passed)
}
