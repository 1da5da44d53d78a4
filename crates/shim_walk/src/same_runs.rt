// When the serial numbers of channels that no handler has taken are the same.
ghost use Rattle.std.specs.Prelude.{◌≡◌, ◌↔◌, IsTrue};

use shim_locations::serial_runs::SerialRuns;
use shim_process::SerialRun;

fn same_run(one: SerialRun, other: SerialRun) -> bool
    ensures { IsTrue result ↔ (one ≡ other) }
{
    one.first == other.first && one.more == other.more
}

// Whether the two lists of runs are the same, one by one.
fn same_slices(one: &[SerialRun], other: &[SerialRun]) -> bool
    ensures { IsTrue result ↔ (one.now ≡ other.now) }
{
    let mut remainder = other;
    for run in one {
        let Some((first, rest)) = remainder.split_first() else {
            return false;
        };
        if !same_run(*run, *first) {
            return false;
        }
        remainder = rest;
    }
    remainder.is_empty()
}

/// Whether they have the same runs.
pub fn same_runs(one: &SerialRuns, other: &SerialRuns) -> bool
    ensures { IsTrue result ↔ (one.now.runs ≡ other.now.runs) }
{
    same_slices(one.as_slice(), other.as_slice())
}
