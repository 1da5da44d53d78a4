// What a worker passes before a piece of work.

/// It is entered before each piece of work, with the number of the process and whether that runs compiled
/// code. It promises nothing, and no answer depends on it.
pub trait Gate: Sync {
    fn enter(&self, pid: u64, compiled: bool);
}

/// A gate at which nothing happens.
#[derive(Drop)]
pub struct NoOpGate;

impl NoOpGate {
    pub fn new() -> NoOpGate {
        NoOpGate
    }
}

impl Gate for NoOpGate {
    fn enter(&self, _pid: u64, _compiled: bool) {}
}
