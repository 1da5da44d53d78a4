// Explanations with something changed.
use shim_base::{List, NoMemory, Path};
use shim_waits::{Explained, Wait};
use std::alloc::Global;

/// What is changed.
#[derive(Clone, Copy, Debug, PartialEq, Eq)]
pub enum Change {
    Nothing,
    /// The cycle begins at its second path.
    Turned,
    /// The cycle goes the other way.
    Backwards,
    /// The cycle is its first path alone.
    OnePath,
    /// The first two entries exchange the process that is waited for.
    ExchangedBy,
    /// The last entry is missing.
    Missing,
    /// The first entry stands there twice.
    Doubled,
    /// The first entry is of `main/0.1/0.1`.
    OfOther,
    /// The first entry has, in place of its channel, the one at which the process that is waited for waits itself.
    OtherChannel,
}

// The place of the entry from which the changed entry of this place takes the process that is waited for.
fn by_place(change: Change, place: usize) -> usize {
    match change {
        Change::ExchangedBy => match place {
            0 => 1,
            1 => 0,
            _ => place,
        },
        _ => place,
    }
}

// The entry, changed.
fn changed_wait(
    e: &Explained,
    other: &Path,
    change: Change,
    place: usize,
    w: &Wait,
) -> Result<Wait, NoMemory> {
    let by = match e.waits.get(by_place(change, place)) {
        None => &w.by,
        Some(there) => &there.by,
    };
    let path = if place == 0 && change == Change::OfOther {
        other
    } else {
        &w.path
    };
    let chan = if place == 0 && change == Change::OtherChannel {
        &w.at
    } else {
        &w.chan
    };
    Ok(Wait {
        path: path.copy()?,
        chan: chan.copy()?,
        holder: w.holder.copy()?,
        by: by.copy()?,
        at: w.at.copy()?,
    })
}

fn changed_waits(
    alloc: Global,
    e: &Explained,
    other: &Path,
    change: Change,
) -> Result<List<Wait>, NoMemory> {
    let mut waits = List::new(alloc);
    for place in 0..e.waits.len() {
        if let Some(w) = e.waits.get(place) {
            let last = place.saturating_add(1) == e.waits.len();
            if !(last && change == Change::Missing) {
                waits.push(changed_wait(e, other, change, place, w)?)?;
            }
        }
    }
    if change == Change::Doubled {
        if let Some(w) = e.waits.get(0) {
            waits.push(changed_wait(e, other, change, 0, w)?)?;
        }
    }
    Ok(waits)
}

// The place in the old cycle of what stands at a place in the new one.
fn cycle_place(change: Change, place: usize, count: usize) -> usize {
    match change {
        Change::Turned => {
            if place.saturating_add(1) < count {
                place.saturating_add(1)
            } else {
                0
            }
        }
        Change::Backwards => count.saturating_sub(1).saturating_sub(place),
        _ => place,
    }
}

fn changed_cycle(alloc: Global, e: &Explained, change: Change) -> Result<List<Path>, NoMemory> {
    let count = if change == Change::OnePath {
        1
    } else {
        e.cycle.len()
    };
    let mut cycle = List::new(alloc);
    for place in 0..count {
        if let Some(path) = e.cycle.get(cycle_place(change, place, count)) {
            cycle.push(path.copy()?)?;
        }
    }
    Ok(cycle)
}

/// The explanation with this changed. The path is that of a process that doesn't wait.
pub fn changed(
    alloc: Global,
    e: &Explained,
    other: &Path,
    change: Change,
) -> Result<Explained, NoMemory> {
    Ok(Explained {
        waits: changed_waits(alloc, e, other, change)?,
        cycle: changed_cycle(alloc, e, change)?,
    })
}
