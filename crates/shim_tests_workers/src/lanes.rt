// The calls of lanes, one by one, on one thread.
use crate::runs::add_number;
use shim_base::{List, NoMemory};
use shim_steal::{Lane, Piece, lanes};
use std::alloc::Global;
use std::sync::Wait;

fn add_home(reply: &mut List<u8>, lane: &Lane<u64>) -> Result<(), NoMemory> {
    add_number(reply, b"lane ", lane.home())?;
    add_number(reply, b" of ", lane.count())?;
    reply.push(b'\n')
}

// Tells the home, the number and the value of a piece, if there is one.
fn add_piece(
    reply: &mut List<u8>,
    before: &[u8],
    piece: Option<Piece<u64>>,
) -> Result<(), NoMemory> {
    reply.extend_from_slice(before)?;
    match piece {
        Some(piece) => {
            add_number(reply, b" from ", piece.home)?;
            add_number(reply, b" number ", piece.number)?;
            add_number(reply, b" value ", piece.value)?;
        }
        None => reply.extend_from_slice(b" none")?,
    }
    reply.push(b'\n')
}

// Pushes a value, and tells the number of its piece.
fn push(reply: &mut List<u8>, lane: &mut Lane<u64>, value: u64) -> Result<(), NoMemory> {
    match lane.push(value) {
        Ok(number) => add_number(reply, b"pushed ", number)?,
        Err(_refused) => reply.extend_from_slice(b"refused")?,
    }
    reply.push(b'\n')
}

// Steals a piece, where the other lane isn't its own.
fn steal<R: Wait>(
    rt: &R,
    reply: &mut List<u8>,
    lane: &mut Lane<u64>,
    from: u64,
) -> Result<(), NoMemory> {
    if from == lane.home() || from >= lane.count() {
        return reply.extend_from_slice(b"no such lane\n");
    }
    add_piece(reply, b"stole", lane.steal(rt, from))
}

// Pushes 5, 6 and 7, and then both take by turns.
fn take_by_turns<R: Wait>(
    rt: &R,
    reply: &mut List<u8>,
    zero: &mut Lane<u64>,
    one: &mut Lane<u64>,
) -> Result<(), NoMemory> {
    for value in 5..8 {
        push(reply, zero, value)?;
    }
    add_home(reply, one)?;
    for _ in 0..2 {
        steal(rt, reply, one, 0)?;
        add_piece(reply, b"took", zero.pop())?;
    }
    steal(rt, reply, one, 0)
}

/// A line for each call of two lanes: three pieces are pushed into the first, the other steals, and the first takes.
pub fn two_lanes_text<R: Wait>(rt: &R, alloc: Global) -> Result<Option<List<u8>>, NoMemory> {
    let mut lanes = lanes(alloc, 2)?.into_vec();
    let Some(mut one) = lanes.pop() else {
        return Ok(None);
    };
    let Some(mut zero) = lanes.pop() else {
        return Ok(None);
    };
    let mut reply = List::new(alloc);
    take_by_turns(rt, &mut reply, &mut zero, &mut one)?;
    Ok(Some(reply))
}

// Whether so many values are pushed and popped in their order, and then no more. The lane grows beyond what it was
// made to hold. There is no runtime here, so neither call asks for `Wait`.
fn goes_through(lane: &mut Lane<u64>, values: u64) -> bool {
    for value in 0..values {
        if lane.push(value).is_err() {
            return false;
        }
    }
    for value in 0..values {
        match lane.pop() {
            Some(piece) if piece.home == 0 && piece.number == value && piece.value == value => {}
            _ => return false,
        }
    }
    lane.pop().is_none()
}

/// The home and the count of a lane that is alone, and whether it gives so many values in the order in which they
/// were pushed.
pub fn one_lane_text(alloc: Global, values: u64) -> Result<Option<List<u8>>, NoMemory> {
    let mut lanes = lanes(alloc, 1)?.into_vec();
    let Some(mut lane) = lanes.pop() else {
        return Ok(None);
    };
    let mut reply = List::new(alloc);
    add_home(&mut reply, &lane)?;
    let word = if goes_through(&mut lane, values) {
        b"in order\n".as_slice()
    } else {
        b"not in order\n".as_slice()
    };
    reply.extend_from_slice(word)?;
    Ok(Some(reply))
}
