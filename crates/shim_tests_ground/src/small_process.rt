// A small process, taken through each of its stops by the calls of the trait.
ghost use Rattle.std.specs.Prelude.{◌≡◌};
ghost use Rattle.shim_local.specs.Process.{AtFork, AtThrow};

use crate::made::chan;
use shim_base::{Chan, List, NoMemory, Path, push_decimal};
use shim_local::{Forked, Local, Stop};
use shim_tests_small::{Small, Step};
use std::alloc::Global;
use std::process::Abort;
use std::test::Fail;

fn tell(reply: &mut List<u8>, what: &[u8], number: u32) -> Result<(), NoMemory> {
    reply.extend_from_slice(what)?;
    push_decimal(reply, number as u64)
}

// Tells at what the process stands, and takes it on from there, where it can go on. A rendezvous gives 5.
fn go_on<L: Local>(process: &mut L, reply: &mut List<u8>) -> Result<(), NoMemory> {
    match process.stop() {
        Stop::Quiet => {
            let quiet = process.quiet(2);
            tell(reply, b" quiet ", quiet.taken as u32)
        }
        Stop::Next(chan) => {
            tell(reply, b" next ", chan.serial())?;
            process.receive(5);
            Ok(())
        }
        Stop::Put => match process.put() {
            Some(byte) => tell(reply, b" put ", byte as u32),
            None => reply.extend_from_slice(b" put"),
        },
        Stop::Fork => {
            reply.extend_from_slice(b" fork")?;
            fork_and_join(process, reply)
        }
        Stop::Finish => reply.extend_from_slice(b" finish"),
        Stop::Throw(label) => {
            tell(reply, b" throw ", label)?;
            throw(process, label, reply)
        }
        Stop::Trapped(_, line) => tell(reply, b" trapped ", line),
    }
}

// The throw of this label: tells that it has no number, or its number if that isn't 0. If the handler is the
// process's own, tells it and goes to it.
fn throw<L: Local>(process: &mut L, label: u32, reply: &mut List<u8>) -> Result<(), NoMemory>
    requires { L.ops.stop process.old ≡ AtThrow label }
{
    let Some(number) = process.thrown() else {
        return reply.extend_from_slice(b" with none");
    };
    if number != 0 {
        reply.extend_from_slice(b" with ")?;
        push_decimal(reply, number.unsigned_abs())?;
    }
    if process.base() <= label && label < process.handlers() {
        let handler = process.handler(label);
        tell(reply, b" of ", handler.0)?;
        tell(reply, b".", handler.1)?;
        process.unwind(label, number);
    }
    Ok(())
}

fn tell_path(path: &Path, reply: &mut List<u8>) -> Result<(), NoMemory> {
    for pair in path.pairs() {
        tell(reply, b" ", pair.0)?;
        tell(reply, b".", pair.1)?;
    }
    Ok(())
}

// Tells the pairs of the path and of each child's path, and of each child how many exception places are
// around it and the channels that it was given. The first child receives 0 if it stands at a rendezvous, and
// the process goes on after the fork.
fn fork_and_join<L: Local>(process: &mut L, reply: &mut List<u8>) -> Result<(), NoMemory>
    requires { L.ops.stop process.old ≡ AtFork }
{
    tell_path(process.path(), reply)?;
    if let Forked::Children(children) = process.fork()? {
        let mut children = children.into_vec();
        for child in children.as_slice() {
            tell_path(child.path(), reply)?;
            tell(reply, b" in ", child.base())?;
            tell_given(child, reply)?;
        }
        meet_first(&mut children);
        process.join(children.as_slice(), true);
    }
    Ok(())
}

// Tells the first three of the channels that the process was given, as many as there are.
fn tell_given<L: Local>(process: &L, reply: &mut List<u8>) -> Result<(), NoMemory> {
    for at in 0..3 {
        if let Some(chan) = process.given(at) {
            tell(reply, b" with ", chan.serial())?;
        }
    }
    Ok(())
}

// Gives 0 to the first child if it stands at a rendezvous. The children stay those of their parent.
fn meet_first<L: Local>(children: &mut Vec<L>)
    ensures { (parent : L) → L.ops.born parent children.old.items → L.ops.born parent children.new.items }
{
    if let Some(first) = children.first_mut() {
        let _path = first.path(); // its state is sound
        if let Stop::Next(_) = first.stop() {
            first.receive(0);
        }
    }
}

// A process of this path with these steps to do, on a channel of the root.
fn small(
    path: Path,
    left: &[Step],
    serial: u32,
    name: u32,
    alloc: Global,
) -> Result<Small, NoMemory> {
    let chan = chan(alloc, &[], serial, name)?;
    Ok(Small::new(path, Vec::from_slice(alloc, left)?, chan))
}

// Whether this is told of a root with these steps to do that goes on so often.
fn is_told(alloc: Global, left: &[Step], times: u32, text: &[u8]) -> Result<bool, NoMemory> {
    let mut process = small(Path::root(alloc), left, 3, 0, alloc)?;
    let mut reply = List::new(alloc);
    for _ in 0..times {
        go_on(&mut process, &mut reply)?;
    }
    Ok(reply.as_slice() == text)
}

// What is told of a root, by the steps that it has to do and how often it goes on.
type Reply<'a> = &'a [(&'a [Step], u32, &'a [u8])];

fn expect_told(rt: &impl Abort, alloc: Global, rows: Reply) -> Result<(), Fail> {
    for row in rows {
        assert!(rt; is_told(alloc, row.0, row.1, row.2)?);
    }
    Ok(())
}

#[test]
fn each_stop_is_gone_through(rt: HostRuntime) -> Result<(), Fail> {
    expect_told(
        &rt,
        rt.alloc(),
        &[
            (
                &[
                    Step::Put,
                    Step::Quiet,
                    Step::Quiet,
                    Step::Quiet,
                    Step::Next,
                    Step::Put,
                ],
                6,
                b" put 0 quiet 2 quiet 1 next 3 put 1 finish",
            ),
            // Of each child its path, its base and its channel are told.
            (
                &[Step::Fork, Step::Try(6, 30), Step::Fork, Step::Put],
                4,
                b" fork 0.0 in 1 with 3 0.1 in 1 with 3 quiet 1 fork 1.0 in 2 with 3 1.1 in 2 with 3 put 0",
            ),
        ],
    )
}

#[test]
fn an_exception_goes_to_its_handler(rt: HostRuntime) -> Result<(), Fail> {
    expect_told(
        &rt,
        rt.alloc(),
        &[
            (
                &[
                    Step::Try(3, 20),
                    Step::Try(4, 21),
                    Step::Throw(2, 0),
                    Step::Put,
                ],
                4,
                b" quiet 2 throw 2 of 4.21 put 0 finish",
            ),
            // An inner place goes with the outer one.
            (
                &[
                    Step::Try(3, 20),
                    Step::Try(4, 21),
                    Step::Throw(1, 0),
                    Step::Throw(2, 0),
                ],
                3,
                b" quiet 2 throw 1 of 3.20 trapped 1",
            ),
            (&[Step::Throw(0, 0)], 1, b" throw 0"),
            // The process has the number that the exception gave.
            (
                &[Step::Try(3, 20), Step::Throw(1, 8), Step::Put],
                3,
                b" quiet 1 throw 1 with 8 of 3.20 put 1",
            ),
            (
                &[Step::Try(3, 20), Step::ThrowTrap(1), Step::Put],
                3,
                b" quiet 1 throw 1 with none trapped 1",
            ),
        ],
    )
}

#[test]
fn traps_are_stood_at_and_nothing_is_put_before_one(rt: HostRuntime) -> Result<(), Fail> {
    expect_told(
        &rt,
        rt.alloc(),
        &[
            (&[Step::Put, Step::Trap], 2, b" put trapped 1"),
            (&[Step::Fork, Step::Trap], 2, b" fork trapped 1"),
            (&[Step::Put, Step::Throw(1, 0)], 2, b" put trapped 1"),
            (&[Step::Put, Step::Throw(0, 0)], 2, b" put 0 throw 0"),
            (&[Step::Fork, Step::Throw(1, 0)], 2, b" fork trapped 1"),
        ],
    )
}

// The second branch of a root's first fork, with a put to do.
fn child(alloc: Global) -> Result<Small, NoMemory> {
    let path = Path::root(alloc).child(0, 1)?;
    small(path, &[Step::Put], 3, 0, alloc)
}

// Whether the process stands trapped.
fn is_trapped<L: Local>(process: &L) -> bool {
    match process.stop() {
        Stop::Trapped(_, _) => true,
        _ => false,
    }
}

#[test]
fn a_child_holds_no_output(rt: HostRuntime) -> Result<(), Fail> {
    let child = child(rt.alloc())?;
    assert!(rt; is_trapped(&child));
    assert!(rt; !child.holds_output());
    Ok(())
}

// The value of the channel that the process carries; nothing where it doesn't. It shares just what it
// carries.
fn value<L: Local>(rt: &impl Abort, process: &L, chan: &Chan) -> Option<i64> {
    assert!(rt; process.carries(chan) == process.shares(chan));
    if process.carries(chan) {
        Some(process.value(chan))
    } else {
        None
    }
}

// Expects this value of the root's channel of that serial.
fn expect_value<L: Local>(
    rt: &impl Abort,
    alloc: Global,
    process: &L,
    serial: u32,
    wanted: Option<i64>,
) -> Result<(), Fail> {
    let chan = chan(alloc, &[], serial, 0)?;
    assert!(rt; value(rt, process, &chan) == wanted);
    Ok(())
}

#[test]
fn a_root_carries_its_channel(rt: HostRuntime) -> Result<(), Fail> {
    let alloc = rt.alloc();
    let process = behind(alloc, &[Step::Next])?;
    expect_value(&rt, alloc, &process, 3, Some(5))?;
    expect_value(&rt, alloc, &process, 4, None)?;
    assert!(rt; process.holds_output());
    assert!(rt; process.given(0).is_none());
    Ok(())
}

// A root that had these steps to do, and went on once.
fn behind(alloc: Global, left: &[Step]) -> Result<Small, NoMemory> {
    let mut process = small(Path::root(alloc), left, 3, 0, alloc)?;
    let mut reply = List::new(alloc);
    go_on(&mut process, &mut reply)?;
    Ok(process)
}

// Whether the two are told apart, and each is the same as its copy.
fn are_apart<L: Local>(a: &L, b: &L) -> Result<bool, NoMemory> {
    let copy_of_a = a.copy()?;
    let copy_of_b = b.copy()?;
    Ok(!a.same(b) && !b.same(a) && a.same(&copy_of_a) && copy_of_b.same(b))
}

// Whether a root with a put to do is told apart from one with these steps, on this channel.
fn differs(alloc: Global, left: &[Step], serial: u32, name: u32) -> Result<bool, NoMemory> {
    let root = small(Path::root(alloc), &[Step::Put], 3, 0, alloc)?;
    let other = small(Path::root(alloc), left, serial, name, alloc)?;
    are_apart(&root, &other)
}

// Whether a root is told apart from a child.
fn child_differs(alloc: Global) -> Result<bool, NoMemory> {
    let root = small(Path::root(alloc), &[Step::Put], 3, 0, alloc)?;
    let child = child(alloc)?;
    are_apart(&root, &child)
}

// Whether two roots are told apart that had these steps to do, and went on once.
fn differ_after(alloc: Global, a: &[Step], b: &[Step]) -> Result<bool, NoMemory> {
    let a = behind(alloc, a)?;
    let b = behind(alloc, b)?;
    are_apart(&a, &b)
}

// Expects of roots with these steps to do, on these channels, that each differs from one with a put.
fn expect_differ(rt: &impl Abort, alloc: Global, rows: &[(&[Step], u32, u32)]) -> Result<(), Fail> {
    for row in rows {
        assert!(rt; differs(alloc, row.0, row.1, row.2)?);
    }
    Ok(())
}

// Expects of roots that had these steps to do, and went on once, that the two differ.
fn expect_differ_after(
    rt: &impl Abort,
    alloc: Global,
    rows: &[(&[Step], &[Step])],
) -> Result<(), Fail> {
    for row in rows {
        assert!(rt; differ_after(alloc, row.0, row.1)?);
    }
    Ok(())
}

#[test]
fn states_that_differ_are_told_apart(rt: HostRuntime) -> Result<(), Fail> {
    let alloc = rt.alloc();
    expect_differ(
        &rt,
        alloc,
        &[
            (&[Step::Quiet], 3, 0),
            (&[Step::Put], 4, 0),
            (&[Step::Put], 3, 1),
        ],
    )?;
    assert!(rt; child_differs(alloc)?);
    Ok(())
}

#[test]
fn what_was_done_tells_states_apart(rt: HostRuntime) -> Result<(), Fail> {
    expect_differ_after(
        &rt,
        rt.alloc(),
        &[
            (&[Step::Quiet], &[Step::Next]),
            (&[Step::Quiet], &[Step::Fork]),
            (&[Step::Try(3, 20)], &[Step::Try(3, 21)]),
            (&[Step::Try(3, 20)], &[Step::Try(4, 20)]),
        ],
    )
}
