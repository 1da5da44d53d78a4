// What is found in a function's text on the way: uses of variables, arguments, captures.

/// How a place uses a variable.
#[derive(Clone, Copy, Debug, PartialEq, Eq)]
pub enum How {
    Declared,
    // It is assigned to, or passed by reference.
    Written,
    Named,
}

/// A place that uses a variable.
#[derive(Clone, Copy, Debug, PartialEq, Eq)]
pub struct Use {
    pub slot: u32,
    pub how: How,
}

/// How a branch takes a variable from around it.
#[derive(Clone, Copy, Debug, PartialEq, Eq)]
pub enum Capture {
    Nothing,
    Copy,
    Reference,
}

/// An argument of a call: whether its parameter takes it by reference, and the variable that it is, where it is bare.
#[derive(Clone, Copy, Debug, PartialEq, Eq)]
pub struct Given {
    pub lent: bool,
    pub bare: Option<u32>,
}
