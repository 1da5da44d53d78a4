// The laws of trees: what their events keep, what holds of every order of events, and of trees of tied kinds
// of process.
pub use shim_laws_schedules::laws::{
    diamond, length, meetings, numbers, poisons, rounds, thrown, walk_lists_once,
};
pub use shim_laws_tied::laws::{Tie, lift};
pub use shim_semantics::laws::{given, holders, walk_lists_enabled};
