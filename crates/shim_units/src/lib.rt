//! What a program's units are made of: what a text uses and takes, and block branches as units of their own; the
//! sharing rule as a definition, and accepted programs.
#![tactic(auto)]

mod accepted;
mod branch;
mod calls;
mod captures;
mod exceptions;
mod form;
mod found;
mod lift_context;
mod moving;
mod naming;
mod own;
mod slot_map;
mod unit;
mod uses;
mod word;

pub use accepted::{Accepted, from_form};
pub use branch::{BranchCaptures, call_branch, close_branch, make_unit, open_branch, open_unit};
pub use calls::{behind_first, copy_params, give, params_at};
pub use captures::{capture_at, is_reference, take_all};
pub use exceptions::ExceptionList;
pub use form::Form;
pub use found::{Capture, Given, How, Use};
pub use lift_context::LiftContext;
pub use moving::{move_call, move_expr, move_option, slot_index, slot_index_of_option};
pub use naming::copy_text;
pub use own::{declares_in, tries_in};
pub use slot_map::SlotMap;
pub use unit::{Arg, UBranch, UCall, UStmt, UWhat, Unit};
pub use uses::uses_in_branch;
pub use word::{name_of, number, number_after};
