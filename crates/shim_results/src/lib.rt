//! What is done with a source and how that ends, as a status and a text; and what is printed of its meaning.
#![tactic(auto)]

mod answer;
mod explain;
pub mod laws;
mod meaning;
mod status;

pub use answer::{Answer, journal_refused, refused};
pub use explain::answer_reasons;
pub use meaning::{answer_meaning, shown};
pub use status::ExitStatus;
