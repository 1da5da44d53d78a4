//! The records of a tree of processes, side by side with their states: what came of each process, who made
//! it, and of a fork how its children are at the channels that they share.
//!
//! A process's number is its place among the records, and that of its state. The laws of
//! `shim_laws_table` say which tree they show.
#![tactic(auto)]

mod acted;
mod blocks;
mod counting_off;
mod died;
mod fresh;
mod killed;
mod labels;
/// What the calls do to records, and what records show.
pub mod laws;
mod pair;
mod receiving;
mod recomputing;
mod record;
mod upward;
mod worklist;

pub use acted::update_all_counts;
pub use blocks::put_block;
pub use counting_off::count_off;
pub use died::lower_all_labels;
pub use fresh::fork_pairs;
pub use killed::kill_all;
pub use labels::lower_min_labels;
pub use pair::{ChildStatus, Pair, Sharing, going_child_status, place_in, tally_ready};
pub use receiving::is_at_channel;
pub use recomputing::recompute_min_labels;
pub use record::{Record, Status, fork_size, is_free};
pub use upward::{propagate_stop_above, update_counts_above};
pub use worklist::Worklist;
