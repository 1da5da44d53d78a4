//! That a program of version 1 is accepted in version 2, too, with the new type's word replaced among its names.
#![tactic(auto)]

/// What is proved of programs, texts, forms and units with identifiers replaced.
pub mod laws;
