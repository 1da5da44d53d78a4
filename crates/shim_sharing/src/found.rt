// What the sharing rule refuses at a place.
#[derive(Clone, Copy, Debug, PartialEq, Eq)]
pub enum Offence {
    // Two branches of a fork take a variable by reference.
    TwoWriters {
        line: u32,
        first: usize,
        second: usize,
        slot: usize,
    },
    // A call gives a variable by reference that is another bare argument.
    Alias {
        line: u32,
        slot: u32,
    },
}
