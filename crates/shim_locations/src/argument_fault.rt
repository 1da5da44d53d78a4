// Why arguments have no values.
ghost use Rattle.std.specs.Prelude.{◌≡◌};
ghost use Rattle.shim_locations.specs.declared.argument_fault.ArgumentFault.TheVariants as v;

use shim_base::Trap;

/// Why arguments have no values.
#[derive(Debug, Drop)]
pub enum ArgumentFault {
    Trapped(Trap),
    /// No memory was found. This may come in place of any other answer.
    NoMemory,
}

impl From<Trap> for ArgumentFault {
    ghost from_gives = { λ trap fault. fault ≡ v.Trapped trap };

    fn from(trap: Trap) -> ArgumentFault {
        ArgumentFault::Trapped(trap)
    }
}

impl From<shim_base::NoMemory> for ArgumentFault {
    ghost from_gives = { λ _ fault. fault ≡ v.NoMemory };

    fn from(_error: shim_base::NoMemory) -> ArgumentFault {
        ArgumentFault::NoMemory
    }
}
