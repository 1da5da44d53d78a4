// Runs that are left to workers.
use shim_base::List;
use shim_command::{Job, Showing};
use shim_sharing::Accepted;

/// A run that workers are to do: of an accepted source that reads these bytes, for a job.
#[derive(Drop)]
pub struct PreparedRun {
    pub job: Job,
    /// What is printed of how the run ended.
    pub showing: Showing,
    pub source: Accepted,
    pub input: List<u8>,
}

/// Runs of one accepted source, of which each takes in one of these: one for each input that the arguments
/// name, in their order.
#[derive(Drop)]
pub struct RunOfEach {
    pub job: Job,
    pub source: Accepted,
    pub inputs: List<List<u8>>,
}

/// A run that workers are to do, of which the journal is printed.
#[derive(Drop)]
pub struct RunToRecord {
    pub job: Job,
    pub source: Accepted,
    pub input: List<u8>,
}
