//! The files that are read and the sink that is written: what any of them keeps to, one of each in
//! memory that fails on request, and the system's own.
#![tactic(auto)]

mod files;
mod host;
mod memory_files;
mod memory_sink;
mod sink;

pub use files::{FileFault, Files, Got};
pub use host::{HostFiles, HostSink};
pub use memory_files::MemFiles;
pub use memory_sink::MemSink;
pub use sink::{Sink, SinkFault, write_all};
