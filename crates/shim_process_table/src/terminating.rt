// A live process ends or dies.
ghost use Rattle.std.specs.Prelude.{◌≡◌, ◌≤◌, ◌<◌, length, vec_len};
ghost use Rattle.shim_records.specs.Ways.{most_forks};
ghost use Rattle.shim_laws_table_events.specs.keeping.Acting.{TakesIn, Terminates};
ghost use Rattle.shim_process_table.specs.Touching.{ChangesOnlyRecords};

use shim_local::Local;
use shim_records::{Record, Status, count_off, lower_all_labels, update_all_counts};

// If the status is a death, takes its label in above the process's record, for each channel that the process was
// given and shares. The answer bounds how many forks above took it.
fn take_label<L: Local>(process: &L, status: Status, records: &mut Vec<Record>, at: usize) -> u32
    requires few { length (L.ops.given process.now) ≤ 18446744073709551615 }
    ensures takes { TakesIn L.ops process.now status most_forks at records.old.items records.new.items }
    ensures touches { ChangesOnlyRecords result at records.old.items records.new.items }
{
    match status {
        Status::Dead(death) => {
            lower_all_labels(process, records, at, death.label, u32::MAX);
            u32::MAX
        }
        Status::Free | Status::Live | Status::Forked(_) | Status::Ended => 0,
    }
}

/// The process of the record at this place ends or dies: its record has this status, and the labels and counts of
/// the forks above are brought up to date. It answers how many of these that concerns, at most.
pub(crate) fn terminate<L: Local>(
    process: &L,
    status: Status,
    records: &mut Vec<Record>,
    at: usize,
) -> u32
    requires within { at < vec_len records.old }
    requires few { length (L.ops.given process.now) ≤ 18446744073709551615 }
    ensures leaves { Terminates L.ops process.now status most_forks at records.old.items records.new.items }
    ensures touches { ChangesOnlyRecords result at records.old.items records.new.items }
{
    records[at].status = status;
    let labelled = take_label(process, status, records, at);
    let counted = update_all_counts(process, status, records, at, u32::MAX);
    count_off(records, at);
    // the process's parent, if it has one, counts one child less that goes on
    labelled.max(counted).max(1)
}
