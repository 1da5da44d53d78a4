// Paths and channels from what a test writes of them.
use shim_base::{Chan, NoMemory, Path};
use std::alloc::Global;
use std::sync::Arc;

/// A path, as a test writes it.
pub type Pairs<'a> = &'a [(u32, u32)];

/// The path of these pairs.
pub fn path(alloc: Global, pairs: Pairs) -> Result<Path, NoMemory> {
    let mut path = Path::root(alloc);
    for pair in pairs {
        path = path.child(pair.0, pair.1)?;
    }
    Ok(path)
}

/// The channel of this home, serial and number of its name.
pub fn chan(alloc: Global, home: Pairs, serial: u32, name: u32) -> Result<Chan, NoMemory> {
    Ok(Chan::new(Arc::new(alloc, path(alloc, home)?)?, serial, name))
}
