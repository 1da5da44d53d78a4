// What came of one process of a tree.
use shim_local::Death;

/// What came of a process, which is lent, whether it lives or not.
#[derive(Drop)]
pub enum ProcessView<'a, L> {
    Live(&'a L),
    /// The fork's number at the process, which each child's path has in its last pair, and how many children
    /// it has, 4,294,967,295 where there are more.
    Forked(&'a L, u32, u32),
    Ended(&'a L),
    Dead(&'a L, Death),
}
