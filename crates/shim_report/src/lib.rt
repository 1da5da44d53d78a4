//! Reports: the text of a run, and the lines that say why a source is refused.
#![tactic(auto)]

mod fault;
mod line;
mod report;

pub use fault::fault_text;
pub use report::{summary, text};
pub use shim_front_end::SourceFault;
pub use shim_local::{Ended, History, Log, LogWhat, Outcome, OwnSteps, WaitAt};
pub use shim_parser::ParseFault;
pub use shim_scopes::{ScopeFault, ScopeKind};
pub use shim_sharing::ShareFault;
