// The wait of each live process.
ghost use Rattle.std.specs.Prelude.{◌≡◌, IfOk, map};
ghost use Rattle.std.specs.Option.{option_copied};
ghost use Rattle.shim_semantics.specs.Nodes.{next_channel};
ghost use Rattle.shim_waits.specs.Gathering.{numbered_wait, wait_found, number_found};
ghost use Rattle.shim_waits.specs.Waits.{present};

use crate::explained::Wait;
use crate::gathering::Holder;
use shim_base::{Chan, List, NoMemory};
use shim_local::{Local, Stop};
use std::alloc::Global;
use std::collections::BTreeMap;

/// The channel at which the process stands, if it stands at one.
pub(crate) fn stands_at<L: Local>(process: &L) -> Option<&Chan>
    ensures { option_copied result ≡ next_channel (L.ops.stop process.now) }
{
    match process.stop() {
        Stop::Next(c) => Some(c),
        Stop::Quiet
        | Stop::Put
        | Stop::Fork
        | Stop::Finish
        | Stop::Throw(_)
        | Stop::Trapped(_, _) => None,
    }
}

// The wait of a live process, and the number of the one that it waits for.
fn numbered_wait<L: Local>(
    process: &L,
    lives: &[&L],
    holders: &BTreeMap<Chan, Holder, Global>,
) -> Result<Option<(Wait, usize)>, NoMemory>
    ensures { IfOk result (λ found. found ≡ numbered_wait L.ops (map (λ x. x.now) lives.now) holders.now process.now) }
{
    let Some(chan) = stands_at(process) else {
        return Ok(None);
    };
    let Some(holder) = holders.get(chan) else {
        return Ok(None);
    };
    let Some(by) = lives.get(holder.number) else {
        return Ok(None);
    };
    let Some(at) = stands_at(*by) else {
        return Ok(None);
    };
    let wait = Wait {
        path: process.path().copy()?,
        chan: chan.copy()?,
        holder: holder.path.copy()?,
        by: by.path().copy()?,
        at: at.copy()?,
    };
    Ok(Some((wait, holder.number)))
}

/// The waits of these live processes, and of each the number of the one that it waits for.
pub(crate) fn numbered_waits<L: Local>(
    alloc: Global,
    lives: &[&L],
    holders: &BTreeMap<Chan, Holder, Global>,
) -> Result<(List<Wait>, Vec<usize>), NoMemory>
    ensures waits { IfOk result (λ r. r.0 ≡ present (map (wait_found L.ops (map (λ x. x.now) lives.now) holders.now) (map (λ x. x.now) lives.now))) }
    ensures next { IfOk result (λ r. r.1.items ≡ present (map (number_found L.ops (map (λ x. x.now) lives.now) holders.now) (map (λ x. x.now) lives.now))) }
{
    let mut waits = List::new(alloc);
    let mut next = Vec::new(alloc);
    for i in 0..lives.len() {
        if let Some((wait, number)) = numbered_wait(lives[i], lives, holders)? {
            waits.push(wait)?;
            next.push(number)?;
        }
    }
    Ok((waits, next))
}
