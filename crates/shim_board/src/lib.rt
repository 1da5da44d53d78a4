//! A table of slots over which workers hand out pieces of work and hand them back, with one turn that at most one of
//! them has. Each word changes in single atomic steps, and a value moves while its place is one chair's alone. No
//! call waits, and none but `Board::new` and `Board::close` takes memory.
#![tactic(auto)]

mod board;
mod chair;
mod closing;
mod content;
pub mod laws;
mod slots;
mod steps;
mod turn;
mod view;

pub use board::Board;
pub use chair::Chair;
pub use closing::Closed;
pub use view::View;
