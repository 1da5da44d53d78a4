// Laws of entries that say how many steps processes did.
ghost use Rattle.shim_run_log.specs.Counted.{StepCountsFollow};

/// Entries may be in any order, and an entry without steps counts nothing. Further steps of a process are counted at
/// any entry of that process.
pub fn step_counts_follow()
    ensures { StepCountsFollow }
{}
