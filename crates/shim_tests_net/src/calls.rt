// The calls of a net, one after another.
use crate::starting::start;
use crate::telling::{add_net, add_number, add_path};
use shim_base::{List, NoMemory};
use shim_local::{Finished, Local, Parcel, work};
use shim_net::{Absorbed, Net};
use shim_tests_small::Step;
use std::alloc::Global;

/// What is changed in a parcel before it is done.
#[derive(Clone, Copy, PartialEq, Eq)]
pub enum Change {
    Slot,
    Round,
    Pid,
    Grant,
    /// Its process has done a step.
    Start,
}

/// What is done with a net and the parcels that it gave.
#[derive(Clone, Copy)]
pub enum Call {
    /// Asks for work of so many steps at most, with this slot.
    Grant(u64, u64),
    /// The last parcel is done and taken in.
    Absorb,
    /// The last parcel is changed, done and brought to the net.
    AbsorbChanged(Change),
    /// A second net of the same root gives out a piece of at most so many steps with this slot, which is done and
    /// brought to the first net.
    AbsorbOfAnother(u64, u64),
    /// The last parcel is lost.
    Lose,
    Redo,
    RedoAll,
    Settle,
    Finish,
}

fn add_given<L: Local>(reply: &mut List<u8>, parcel: &Parcel<L>) -> Result<(), NoMemory> {
    add_path(reply, b"gave", parcel.start.path())?;
    add_number(reply, b" number ", parcel.pid)?;
    add_number(reply, b" steps ", parcel.grant)?;
    reply.push(b'\n')
}

// Asks for work, but not with a slot that is out.
fn grant<L: Local>(
    reply: &mut List<u8>,
    net: &mut Net<L>,
    parcels: &mut Vec<Parcel<L>>,
    most: u64,
    slot: u64,
) -> Result<(), NoMemory> {
    if net.is_out(slot, 0) {
        return reply.extend_from_slice(b"slot is out\n");
    }
    match net.grant(most.max(1), slot, 0)? {
        None => reply.extend_from_slice(b"gave none\n"),
        Some(parcel) => {
            add_given(reply, &parcel)?;
            parcels.push(parcel)?;
            Ok(())
        }
    }
}

// The parcel with one thing changed.
fn changed<L: Local>(parcel: Parcel<L>, change: Change) -> Result<Parcel<L>, NoMemory> {
    let Parcel {
        slot,
        round,
        pid,
        start,
        grant,
        ..
    } = parcel;
    let mut work = start.copy()?;
    if change == Change::Start {
        let _quiet = work.quiet(1);
    }
    Ok(Parcel {
        slot: slot.wrapping_add(u64::from(change == Change::Slot)),
        round: round.wrapping_add(u64::from(change == Change::Round)),
        pid: pid.wrapping_add(u64::from(change == Change::Pid)),
        start: work.copy()?,
        work,
        grant: grant.wrapping_add(u64::from(change == Change::Grant)),
    })
}

fn absorb<L: Local>(
    reply: &mut List<u8>,
    net: &mut Net<L>,
    finished: Finished<L>,
) -> Result<(), NoMemory> {
    match net.absorb(finished) {
        Absorbed::Taken => reply.extend_from_slice(b"taken\n"),
        Absorbed::Short => reply.extend_from_slice(b"short\n"),
        Absorbed::Stranger(_) => reply.extend_from_slice(b"stranger\n"),
    }
}

// Does the last parcel, and takes it in.
fn absorb_last<L: Local>(
    reply: &mut List<u8>,
    net: &mut Net<L>,
    parcels: &mut Vec<Parcel<L>>,
) -> Result<(), NoMemory> {
    match parcels.pop() {
        Some(parcel) => absorb(reply, net, work(parcel)),
        None => reply.extend_from_slice(b"no parcel\n"),
    }
}

// Does the last parcel, which was changed, and takes it in.
fn absorb_changed<L: Local>(
    reply: &mut List<u8>,
    net: &mut Net<L>,
    parcels: &mut Vec<Parcel<L>>,
    change: Change,
) -> Result<(), NoMemory> {
    match parcels.pop() {
        Some(parcel) => absorb(reply, net, work(changed(parcel, change)?)),
        None => reply.extend_from_slice(b"no parcel\n"),
    }
}

// A piece that another net gives out is done and brought to this one.
fn absorb_of_another<L: Local>(
    reply: &mut List<u8>,
    net: &mut Net<L>,
    other: &mut Net<L>,
    most: u64,
    slot: u64,
) -> Result<(), NoMemory> {
    let mut given = Vec::new(reply.allocator());
    grant(reply, other, &mut given, most, slot)?;
    absorb_last(reply, net, &mut given)
}

fn lose<L: Local>(reply: &mut List<u8>, parcels: &mut Vec<Parcel<L>>) -> Result<(), NoMemory> {
    match parcels.pop() {
        Some(_) => reply.extend_from_slice(b"lost\n"),
        None => reply.extend_from_slice(b"no parcel\n"),
    }
}

fn redo<L: Local>(reply: &mut List<u8>, net: &mut Net<L>) -> Result<(), NoMemory> {
    match net.redo() {
        Ok(true) => reply.extend_from_slice(b"redone\n"),
        Ok(false) => reply.extend_from_slice(b"nothing to redo\n"),
        Err(_) => reply.extend_from_slice(b"redo refused\n"),
    }
}

fn redo_all<L: Local>(reply: &mut List<u8>, net: &mut Net<L>) -> Result<(), NoMemory> {
    match net.redo_all() {
        Ok(()) => reply.extend_from_slice(b"all redone\n"),
        Err(_) => reply.extend_from_slice(b"redo refused\n"),
    }
}

fn settle<L: Local>(reply: &mut List<u8>, net: &mut Net<L>) -> Result<(), NoMemory> {
    add_number(reply, b"settled ", net.settle()?)?;
    reply.push(b'\n')
}

fn finish<L: Local>(reply: &mut List<u8>, net: &mut Net<L>) -> Result<(), NoMemory> {
    match net.finish() {
        Ok(()) => reply.extend_from_slice(b"finished\n"),
        Err(_) => reply.extend_from_slice(b"finish refused\n"),
    }
}

fn do_call<L: Local>(
    reply: &mut List<u8>,
    net: &mut Net<L>,
    other: &mut Net<L>,
    parcels: &mut Vec<Parcel<L>>,
    call: Call,
) -> Result<(), NoMemory> {
    match call {
        Call::Grant(most, slot) => grant(reply, net, parcels, most, slot),
        Call::Absorb => absorb_last(reply, net, parcels),
        Call::AbsorbChanged(change) => absorb_changed(reply, net, parcels, change),
        Call::AbsorbOfAnother(most, slot) => absorb_of_another(reply, net, other, most, slot),
        Call::Lose => lose(reply, parcels),
        Call::Redo => redo(reply, net),
        Call::RedoAll => redo_all(reply, net),
        Call::Settle => settle(reply, net),
        Call::Finish => finish(reply, net),
    }
}

// Makes the calls, and tells what each answers.
fn do_calls<L: Local>(
    reply: &mut List<u8>,
    net: &mut Net<L>,
    other: &mut Net<L>,
    calls: &[Call],
) -> Result<(), NoMemory> {
    let mut parcels = Vec::new(reply.allocator());
    for call in calls {
        do_call(reply, net, other, &mut parcels, *call)?;
    }
    Ok(())
}

// Tells what each call answers, and then what can be seen of the net.
fn reply_of<L: Local>(
    alloc: Global,
    net: &mut Net<L>,
    other: &mut Net<L>,
    calls: &[Call],
) -> Result<List<u8>, NoMemory> {
    let mut reply = List::new(alloc);
    do_calls(&mut reply, net, other, calls)?;
    add_net(&mut reply, net)?;
    Ok(reply)
}

/// What each call of a net answers, and what can be seen of the net then. The net has a root with these steps to do
/// and this budget, which is 1 at least. A call has one line, and `AbsorbOfAnother` two.
pub fn answers_of(
    alloc: Global,
    left: &[Step],
    budget: u16,
    calls: &[Call],
) -> Result<List<u8>, NoMemory> {
    let mut net = start(alloc, left, budget)?;
    let mut other = start(alloc, left, budget)?;
    reply_of(alloc, &mut net, &mut other, calls)
}

// How many records a net has where it has come to its end or to the budget.
fn records_at_end<L: Local>(net: &mut Net<L>) -> Result<usize, NoMemory> {
    net.finish()?;
    Ok(net.records())
}

/// How many records a net of a root with these steps and this budget has at its end, or where the budget is spent.
pub fn records_after(alloc: Global, left: &[Step], budget: u16) -> Result<u64, NoMemory> {
    let mut net = start(alloc, left, budget)?;
    Ok(records_at_end(&mut net)? as u64)
}
