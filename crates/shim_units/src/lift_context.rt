// The function whose branches are lifted.
use shim_base::Name;
use shim_scopes::RFunction;

/// A function of a program: its number, its name, and the number of the first unit that is lifted out of it.
#[derive(Clone, Copy)]
pub struct LiftContext<'a> {
    pub functions: &'a [RFunction],
    pub function: &'a RFunction,
    pub number: u32,
    pub name: &'a Name,
    pub first: u32,
}
