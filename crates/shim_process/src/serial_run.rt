// Consecutive serial numbers of channels.

/// The first of them, and how many follow it.
#[derive(Clone, Copy, Debug, PartialEq, Eq)]
pub struct SerialRun {
    pub first: u32,
    pub more: u32,
}
