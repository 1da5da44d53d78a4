// Identifiers as they are copied and compared.
ghost use Rattle.std.specs.Prelude.{◌≡◌, IfOk};
ghost use Rattle.std.specs.Str.{bytes_eq};

use shim_base::{Name, NoMemory};
use std::alloc::Global;

/// The same name once more.
pub fn copy(alloc: Global, name: &Name) -> Result<Name, NoMemory>
    ensures { IfOk result (λ copy. copy ≡ name.now) }
{
    Name::new(alloc, name.as_bytes())
}

/// Whether two names have the same bytes.
pub fn is_same(name: &Name, other: &Name) -> bool
    ensures { result ≡ bytes_eq name.now other.now }
{
    name.as_bytes() == other.as_bytes()
}
