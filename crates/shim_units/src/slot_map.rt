// What a unit has of a function.
use crate::exceptions::ExceptionList;
use shim_base::List;

/// The function's variables and exceptions that a unit has, each in the order of the unit's own numbers.
#[derive(Drop)]
pub struct SlotMap {
    pub slots: List<u32>,
    pub exceptions: ExceptionList,
}
