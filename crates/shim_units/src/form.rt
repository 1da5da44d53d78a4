// What an accepted program holds.
use crate::unit::Unit;
use shim_base::{List, Name};

/// The units, the program's list of names, the number of the unit of `main`, and the numbers of the names that
/// `main` throws.
#[derive(Drop)]
pub struct Form {
    pub units: List<Unit>,
    pub names: List<Name>,
    pub main: u32,
    pub main_throws: List<u32>,
}
