// Paths and channels: what they hold, their copies, and their order.
use crate::made::{Pairs, chan, path};
use shim_base::{Chan, NoMemory};
use std::alloc::Global;
use std::cmp::Ordering;
use std::process::Abort;
use std::test::Fail;

// Whether the path of these pairs has them, and is the same as its copy.
fn is_its_pairs(alloc: Global, pairs: Pairs) -> Result<bool, NoMemory> {
    let path = path(alloc, pairs)?;
    let copy = path.copy()?;
    Ok(path.pairs() == pairs && copy == path)
}

#[test]
fn a_path_is_its_pairs_and_so_is_its_copy(rt: HostRuntime) -> Result<(), Fail> {
    let alloc = rt.alloc();
    assert!(rt; is_its_pairs(alloc, &[])?);
    assert!(rt; is_its_pairs(alloc, &[(2, 1), (0, 3)])?);
    Ok(())
}

// Whether the path of the first pairs stands before that of the second ones, and is another.
fn is_less(alloc: Global, less: Pairs, greater: Pairs) -> Result<bool, NoMemory> {
    let less = path(alloc, less)?;
    let greater = path(alloc, greater)?;
    Ok(less.cmp(&greater) == Ordering::Less && less != greater)
}

fn expect_less(rt: &impl Abort, alloc: Global, rows: &[(Pairs, Pairs)]) -> Result<(), Fail> {
    for row in rows {
        assert!(rt; is_less(alloc, row.0, row.1)?);
    }
    Ok(())
}

#[test]
fn a_path_stands_before_those_that_go_on_from_it_and_they_before_the_next(
    rt: HostRuntime,
) -> Result<(), Fail> {
    expect_less(
        &rt,
        rt.alloc(),
        &[
            (&[], &[(2, 1)]),
            (&[(2, 1)], &[(2, 1), (0, 3)]),
            (&[(2, 1), (0, 3)], &[(2, 2)]),
            (&[(2, 2)], &[(10, 0)]),
        ],
    )
}

// A channel, as a test writes it: its home, its serial and the number of its name.
type Reply<'a> = (Pairs<'a>, u32, u32);

fn channels(alloc: Global, reply: &[Reply]) -> Result<Vec<Chan>, NoMemory> {
    let mut channels = Vec::new(alloc);
    for reply in reply {
        channels.push(chan(alloc, reply.0, reply.1, reply.2)?)?;
    }
    Ok(channels)
}

fn is_same(chan: &Chan, other: &Chan) -> bool {
    chan == other
}

fn is_before(chan: &Chan, other: &Chan) -> bool {
    chan < other
}

// Expects of each other channel whether the first one is the same, and whether the first stands before it.
fn expect_compared(rt: &impl Abort, channels: &[Chan], wanted: &[(bool, bool)]) {
    assert!(rt; channels.len() == 1 + wanted.len());
    let Some((first, others)) = channels.split_first() else {
        return;
    };
    for (other, is) in others.iter().zip(wanted) {
        assert!(rt; is_same(first, other) == is.0);
        assert!(rt; is_before(first, other) == is.1);
    }
}

#[test]
fn channels_are_told_apart_by_home_and_serial_alone(rt: HostRuntime) -> Result<(), Fail> {
    let reply: [Reply; 5] = [
        (&[(0, 1)], 3, 7),
        (&[(0, 1)], 3, 8),
        (&[(0, 0)], 3, 7),
        (&[(0, 1)], 4, 0),
        (&[], 9, 9),
    ];
    let channels = channels(rt.alloc(), &reply)?;
    let wanted = [(true, false), (false, false), (false, true), (false, false)];
    expect_compared(&rt, &channels, &wanted);
    Ok(())
}

// Whether the channel has this home, this serial and this name.
fn is_told(chan: &Chan, reply: Reply) -> bool {
    chan.home().pairs() == reply.0 && chan.serial() == reply.1 && chan.name() == reply.2
}

#[test]
fn a_channel_has_its_home_serial_and_name(rt: HostRuntime) -> Result<(), Fail> {
    let chan = chan(rt.alloc(), &[(0, 1), (5, 2)], 3, 7)?;
    assert!(rt; is_told(&chan, (&[(0, 1), (5, 2)], 3, 7)));
    Ok(())
}

#[test]
fn a_copied_channel_has_the_home_the_serial_and_the_name_of_the_first(
    rt: HostRuntime,
) -> Result<(), Fail> {
    let copy = chan(rt.alloc(), &[(0, 1), (5, 2)], 3, 7)?.copy()?;
    assert!(rt; is_told(&copy, (&[(0, 1), (5, 2)], 3, 7)));
    Ok(())
}
