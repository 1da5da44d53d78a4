//! What lies below the tool, as words of cases ask for it: processes and their code, nets, lanes and workers, stages
//! of sources, files and sinks.
#![tactic(auto)]

mod edges;
mod forms;
mod jobs;
mod nets;
mod replies;
mod runs;
mod setup;
mod steps;
mod tokens;
mod values;
mod words;

pub use nets::gate_of;
pub use replies::reply_to;
pub use setup::{Edges, HeldFile, Setup, files_of, sink_with_room};
pub use words::word;
