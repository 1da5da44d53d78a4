// Counts that may grow too long.
ghost use Rattle.std.specs.Prelude.{◌≡◌, ◌+◌, IfOk};

use shim_base::NoMemory;

/// One more than the count. A count that 32 bits do not hold counts as out of memory; no process comes to one.
pub fn one_more(count: u32) -> Result<u32, NoMemory>
    ensures { IfOk result (λ more. more ≡ count + 1) }
{
    count.checked_add(1).ok_or(NoMemory)
}
