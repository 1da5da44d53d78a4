// A list in parts that stand one after the other.
ghost use Rattle.std.specs.Prelude.{◌≡◌, ◌≤◌, IfOk};
ghost use Rattle.shim_batch.specs.Parts.{concatenated, JoinsTo};

use shim_base::{List, NoMemory};
use std::alloc::Global;

/// The list in parts of so many values, the last of which may have fewer.
pub(crate) fn cut<T: Drop>(
    alloc: Global,
    values: List<T>,
    size: usize,
) -> Result<Vec<List<T>>, NoMemory>
    requires { 1 ≤ size }
    ensures { IfOk result (λ parts. concatenated parts.items ≡ values) }
{
    let mut parts = Vec::new(alloc);
    let mut rest = values.into_vec();
    while rest.len() > size {
        let behind = rest.split_off(size)?;
        parts.push(List::from(rest))?;
        rest = behind;
    }
    parts.push(List::from(rest))?;
    Ok(parts)
}

/// The values of all parts in order. Where a part is out of memory, so is the whole.
pub(crate) fn join<T: Drop>(
    alloc: Global,
    parts: Vec<Result<List<T>, NoMemory>>,
) -> Result<List<T>, NoMemory>
    ensures { IfOk result (λ values. JoinsTo parts.items values) }
{
    let mut values = List::new(alloc);
    for part in parts {
        values.append(part?)?;
    }
    Ok(values)
}
