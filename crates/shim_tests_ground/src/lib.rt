//! Tests of the ground: values, paths and channels, the system's files and output, and one small process.
#![tactic(auto)]

#[cfg(test)]
mod channels;
#[cfg(test)]
mod files_and_sinks;
/// Paths and channels from what a test writes of them.
pub mod made;
#[cfg(test)]
mod small_process;
#[cfg(test)]
mod values;
