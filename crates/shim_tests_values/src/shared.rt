// Which of the root's channels a process shares, written down.
use crate::tell::{count, word};
use shim_base::{Chan, List, NoMemory, Path};
use shim_local::{Forked, Local, Stop};
use std::sync::Arc;

// Tells the serials below 4 of the root's channels that the process shares, as in `#0 #2`.
fn tell_serials<L: Local>(process: &L, reply: &mut List<u8>) -> Result<(), NoMemory> {
    let alloc = reply.allocator();
    let home = Arc::new(alloc, Path::root(alloc))?;
    for serial in 0..4 {
        let chan = Chan::new(Arc::try_clone(&home)?, serial, 0);
        if process.shares(&chan) {
            count(reply, b"#", serial as u64)?;
        }
    }
    Ok(())
}

// Tells the serials of each of these processes, each time after a bar.
fn tell_each<L: Local>(processes: &[L], reply: &mut List<u8>) -> Result<(), NoMemory> {
    for process in processes {
        word(reply, b"|")?;
        tell_serials(process, reply)?;
    }
    Ok(())
}

/// Tells the serials of a process and, if it stands at a fork, those of each child that it makes, each after a bar.
pub fn tell_shared<L: Local>(process: &mut L, reply: &mut List<u8>) -> Result<(), NoMemory> {
    tell_serials(process, reply)?;
    if let Stop::Fork = process.stop() {
        if let Forked::Children(children) = process.fork()? {
            tell_each(children.as_slice(), reply)?;
        }
    }
    Ok(())
}
