// Values that hold a process, whatever steps it.
ghost use Rattle.std.specs.Prelude.{◌≡◌};
ghost use Rattle.shim_process.specs.LocalState.{LocalState};

use crate::process::Process;

/// A process together with what steps it.
pub trait HasProcess {
    /// The state of its process.
    ghost state: { Self → LocalState };

    /// The process itself.
    fn process(&self) -> &Process
        ensures { result.now ≡ state self.now };
}
