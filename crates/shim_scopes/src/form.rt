// What a resolved program holds.
use crate::tree::RFunction;
use shim_base::{List, Name};

// The functions in the order of the source, the list of names to which their numbers refer, and the number
// of `main` among the functions.
#[derive(Drop)]
pub struct Form {
    pub functions: List<RFunction>,
    pub names: List<Name>,
    pub main: u32,
}
