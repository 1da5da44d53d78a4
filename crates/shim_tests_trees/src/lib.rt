//! Tests of trees over small processes: what is read off a tree, and quiet steps that happen at once; and ties of
//! small processes.
#![tactic(auto)]

#[cfg(test)]
mod small_trees;
#[cfg(test)]
mod telling;
#[cfg(test)]
mod ties;
