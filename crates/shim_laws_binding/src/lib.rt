//! What binding means, apart from the walk that defines it: what the numbers of a form stand for, and in which order.
#![tactic(auto)]

/// What is proved of the form of a program, of what a name means at a place, and of the names of a text.
pub mod laws;
