// Pieces of work of a small process: how many steps are taken, why no more, and what is kept.
use crate::small::{Small, Step};
use shim_base::{Chan, List, NoMemory, Path, push_decimal};
use shim_local::{Finished, Local, Parcel, Stop, work};
use std::alloc::Global;
use std::process::Abort;
use std::sync::Arc;
use std::test::Fail;

// A root with these steps to do.
fn root(alloc: Global, left: &[Step]) -> Result<Small, NoMemory> {
    let home = Arc::new(alloc, Path::root(alloc))?;
    let left = Vec::from_slice(alloc, left)?;
    Ok(Small::new(Path::root(alloc), left, Chan::new(home, 3, 0)))
}

// A piece of its work of at most so many steps.
fn parcel<L: Local>(start: L, grant: u64) -> Result<Parcel<L>, NoMemory> {
    let work = start.copy()?;
    Ok(Parcel {
        slot: 4,
        round: 7,
        pid: 2,
        start,
        work,
        grant,
    })
}

fn tell(reply: &mut List<u8>, what: &[u8], number: u64) -> Result<(), NoMemory> {
    reply.extend_from_slice(what)?;
    push_decimal(reply, number)
}

fn stop_word(stop: Stop) -> &'static [u8] {
    match stop {
        Stop::Quiet => b" quiet",
        Stop::Next(_) => b" next",
        Stop::Put => b" put",
        Stop::Fork => b" fork",
        Stop::Finish => b" finish",
        Stop::Throw(_) => b" throw",
        Stop::Trapped(_, _) => b" trapped",
    }
}

// Tells the piece's numbers, how many steps were taken, whether memory was refused, and at what the process
// stood and stands.
fn tell_finished<L: Local>(reply: &mut List<u8>, finished: &Finished<L>) -> Result<(), NoMemory> {
    tell(reply, b"piece ", finished.slot)?;
    tell(reply, b".", finished.round)?;
    tell(reply, b" of ", finished.pid)?;
    tell(reply, b": used ", finished.used)?;
    tell(reply, b" of ", finished.grant)?;
    if finished.short {
        reply.extend_from_slice(b" short")?;
    }
    reply.extend_from_slice(b", from")?;
    reply.extend_from_slice(stop_word(finished.start.stop()))?;
    reply.extend_from_slice(b" to")?;
    reply.extend_from_slice(stop_word(finished.last.stop()))
}

// Whether this is told of a piece of so many steps of a root with these steps to do.
fn is_told(alloc: Global, left: &[Step], grant: u64, text: &[u8]) -> Result<bool, NoMemory> {
    let finished = work(parcel(root(alloc, left)?, grant)?);
    let mut reply = List::new(alloc);
    tell_finished(&mut reply, &finished)?;
    Ok(reply.as_slice() == text)
}

// What is told of a piece, by the steps that its process has to do and the most that are granted.
type Reply<'a> = &'a [(&'a [Step], u64, &'a [u8])];

fn expect_told(rt: &impl Abort, alloc: Global, rows: Reply) -> Result<(), Fail> {
    for row in rows {
        assert!(rt; is_told(alloc, row.0, row.1, row.2)?);
    }
    Ok(())
}

#[test]
fn a_piece_ends_with_its_grant_or_at_another_stop(rt: HostRuntime) -> Result<(), Fail> {
    expect_told(
        &rt,
        rt.alloc(),
        &[
            (
                &[Step::Quiet, Step::Quiet, Step::Quiet, Step::Put],
                2,
                b"piece 4.7 of 2: used 2 of 2, from quiet to quiet",
            ),
            (
                &[Step::Quiet, Step::Try(3, 20), Step::Put],
                5,
                b"piece 4.7 of 2: used 2 of 5, from quiet to put",
            ),
            (
                &[Step::Quiet, Step::Quiet],
                2,
                b"piece 4.7 of 2: used 2 of 2, from quiet to finish",
            ),
        ],
    )
}

#[test]
fn a_piece_takes_no_step_without_a_grant_or_a_quiet_stop(rt: HostRuntime) -> Result<(), Fail> {
    expect_told(
        &rt,
        rt.alloc(),
        &[
            (
                &[Step::Quiet],
                0,
                b"piece 4.7 of 2: used 0 of 0, from quiet to quiet",
            ),
            (
                &[Step::Next, Step::Quiet],
                5,
                b"piece 4.7 of 2: used 0 of 5, from next to next",
            ),
        ],
    )
}

// The fourth place would be the fifth in force.
#[test]
fn a_piece_that_wants_memory_is_short(rt: HostRuntime) -> Result<(), Fail> {
    expect_told(
        &rt,
        rt.alloc(),
        &[(
            &[
                Step::Try(3, 20),
                Step::Try(4, 21),
                Step::Quiet,
                Step::Try(5, 22),
                Step::Try(6, 23),
                Step::Put,
            ],
            9,
            b"piece 4.7 of 2: used 4 of 9 short, from quiet to quiet",
        )],
    )
}
