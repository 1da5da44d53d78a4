//! What a process runs: the units of an accepted program as lists of instructions, and these lists as text.
#![tactic(auto)]

mod calls;
mod code;
mod draft;
mod exprs;
mod instr;
pub mod laws;
mod machine_instr;
mod program;
mod published;
mod stmts;
mod text;
mod unit;

pub use code::Code;
pub use instr::{Instr, MarkKind};
pub use machine_instr::{Callee, MachineInstr, Mark};
pub use program::{code_unit, compile};
pub use text::listing;
pub use unit::CodeUnit;
