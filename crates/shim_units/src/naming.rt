// The names of a program by their numbers.
ghost use Rattle.std.specs.Prelude.{◌≡◌, IfOk};
ghost use Rattle.shim_units.specs.Units.{name_or_mark};

use shim_base::{Name, NoMemory};
use std::alloc::Global;

/// The name of that number, and a question mark where there is none.
pub fn copy_text(alloc: Global, names: &[Name], number: u32) -> Result<Name, NoMemory>
    ensures { IfOk result (λ name. name ≡ name_or_mark names.now number) }
{
    match names.get(number as usize) {
        Some(name) => Name::new(alloc, name.as_bytes()),
        None => Name::new(alloc, b"?".as_slice()),
    }
}
