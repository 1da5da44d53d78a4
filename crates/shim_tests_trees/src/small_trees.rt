// Trees of small processes: what is read off them, and quiet steps that happen at once.
ghost use Rattle.std.specs.Prelude.{◌≡◌, ◌≤◌, ◌⊎◌, IfOk, OnOk};
ghost use Rattle.shim_tests_small.specs.Small.{small_ops};
ghost use Rattle.shim_semantics.specs.Sound.{SharesItsOwn};
ghost use Rattle.shim_semantics.specs.Trees.{steps, IsQuiescent};

use crate::telling::{
    add_before_quiet, add_children, add_enabled, add_met, add_number, add_own, add_path, add_quiet,
    add_view, outcome_word,
};
use shim_base::{Chan, List, NoMemory, Path};
use shim_local::{Ended, Local};
use shim_tests_small::{Branch, Small, Step};
use shim_tree::Tree;
use std::alloc::Global;
use std::process::Abort;
use std::str;
use std::sync::Arc;
use std::test::Fail;

// Does so many first events, or fewer where none is enabled any more.
fn do_events<L: Local>(tree: &mut Tree<L>, most: u64) -> Result<(), NoMemory>
    requires fresh { steps tree.old ≡ 0 }
    requires few { most ≤ 255 }
    ensures { OnOk result (((steps tree.new ≤ most) × IsQuiescent L.ops tree.new) ⊎ (steps tree.new ≡ most)) }
{
    for _ in 0..most {
        match tree.first()? {
            None => return Ok(()),
            Some(event) => tree.do_event(&event)?,
        }
    }
    Ok(())
}

// A root with these steps to do, on a channel of its own.
fn root(alloc: Global, left: &[Step]) -> Result<Small, NoMemory>
    ensures { IfOk result (λ root. SharesItsOwn small_ops root) }
{
    let chan = Chan::new(Arc::new(alloc, Path::root(alloc))?, 2, 7);
    Ok(Small::new(Path::root(alloc), Vec::from_slice(alloc, left)?, chan))
}

// The tree of that root, to which nothing has happened.
fn start(alloc: Global, left: &[Step]) -> Result<Tree<Small>, NoMemory>
    ensures { IfOk result (λ tree. steps tree ≡ 0) }
{
    Tree::start(alloc, root(alloc, left)?)
}

// ---- what is asked of a tree

// What is told of a tree. The pairs are those of the path of a process.
#[derive(Clone, Copy)]
enum Ask<'a> {
    // What came of the process.
    View(&'a [(u32, u32)]),
    // Whether it stands before a quiet step.
    BeforeQuiet(&'a [(u32, u32)]),
    // The root and its first four children.
    Children,
    // What the rendezvous on the root's channel of this serial number gave.
    Met(u32),
    // What so many quiet steps of the process come to, and what is enabled then.
    Steps(&'a [(u32, u32)], u8),
}

// The path of these pairs.
fn path_of(alloc: Global, pairs: &[(u32, u32)]) -> Result<Path, NoMemory> {
    let mut path = Path::root(alloc);
    for pair in pairs {
        path = path.child(pair.0, pair.1)?;
    }
    Ok(path)
}

fn tell_steps<L: Local>(
    reply: &mut List<u8>,
    tree: &mut Tree<L>,
    path: &Path,
    count: u8,
) -> Result<(), NoMemory>
    requires { steps tree.old ≤ 255 }
{
    match tree.step_on(path, count as u64) {
        Ok(true) => reply.extend_from_slice(b" true")?,
        Ok(false) => reply.extend_from_slice(b" false")?,
        Err(NoMemory) => reply.extend_from_slice(b" no memory")?,
    }
    add_enabled(reply, tree)
}

fn tell<L: Local>(reply: &mut List<u8>, tree: &mut Tree<L>, ask: Ask<'_>) -> Result<(), NoMemory>
    requires { steps tree.old ≤ 255 }
{
    let alloc = reply.allocator();
    match ask {
        Ask::View(pairs) => add_view(reply, tree, &path_of(alloc, pairs)?),
        Ask::BeforeQuiet(pairs) => add_before_quiet(reply, tree, &path_of(alloc, pairs)?),
        Ask::Children => add_children(reply, tree),
        Ask::Met(serial) => add_met(reply, tree, serial),
        Ask::Steps(pairs, count) => tell_steps(reply, tree, &path_of(alloc, pairs)?, count),
    }
}

// What is told of this tree, which has had no events, after so many first events or fewer.
fn told_after<L: Local>(
    alloc: Global,
    tree: &mut Tree<L>,
    most: u8,
    ask: Ask<'_>,
) -> Result<List<u8>, NoMemory>
    requires { steps tree.old ≡ 0 }
{
    do_events(tree, most as u64)?;
    let mut reply = List::new(alloc);
    tell(&mut reply, tree, ask)?;
    Ok(reply)
}

fn answer(alloc: Global, left: &[Step], most: u8, ask: Ask<'_>) -> Result<List<u8>, NoMemory> {
    let mut tree = start(alloc, left)?;
    told_after(alloc, &mut tree, most, ask)
}

// How many events happen at most, what is asked then, and what is told.
type Row<'a> = (u8, Ask<'a>, &'a str);

// Expects these answers of the tree of a root with these steps to do.
fn expect(rt: &impl Abort, alloc: Global, left: &[Step], rows: &[Row<'_>]) -> Result<(), Fail> {
    for row in rows {
        let reply = answer(alloc, left, row.0, row.1)?;
        assert_eq!(rt; str::from_utf8(reply.as_slice())?, row.2);
    }
    Ok(())
}

#[test]
fn view_tells_what_came_of_the_process_of_a_path(rt: HostRuntime) -> Result<(), Fail> {
    expect(
        &rt,
        rt.alloc(),
        &[Step::Quiet, Step::Fork, Step::Quiet],
        &[
            (0, Ask::View(&[]), " live root"),
            (0, Ask::View(&[(0, 0)]), " none"),
            (2, Ask::View(&[]), " forked root by 0 into 2"),
            (2, Ask::View(&[(0, 1)]), " live root/0.1"),
            (2, Ask::View(&[(0, 2)]), " none"), // there is no such branch
            (2, Ask::View(&[(1, 0)]), " none"), // it has forked once
            (2, Ask::View(&[(0, 1), (0, 0)]), " none"),
            (4, Ask::View(&[(0, 0)]), " ended root/0.0"),
            (6, Ask::View(&[]), " live root"), // the fork has closed
            (6, Ask::View(&[(0, 0)]), " none"),
            (8, Ask::View(&[]), " ended root"),
        ],
    )
}

#[test]
fn view_tells_the_number_of_the_last_fork(rt: HostRuntime) -> Result<(), Fail> {
    expect(
        &rt,
        rt.alloc(),
        &[Step::Fork, Step::Fork],
        &[
            (1, Ask::View(&[]), " forked root by 0 into 2"),
            (6, Ask::View(&[]), " forked root by 1 into 2"),
            (6, Ask::View(&[(1, 0)]), " live root/1.0"),
            (6, Ask::View(&[(0, 0)]), " none"),
        ],
    )
}

#[test]
fn view_tells_how_a_process_died(rt: HostRuntime) -> Result<(), Fail> {
    expect(
        &rt,
        rt.alloc(),
        &[
            Step::Try(3, 20),
            Step::Three(Branch::Throw(1, 5), Branch::Next, Branch::Nothing),
        ],
        &[
            (2, Ask::View(&[]), " forked root by 0 into 3"),
            (2, Ask::View(&[(0, 0)]), " live root/0.0"),
            (3, Ask::View(&[(0, 0)]), " dead root/0.0 of 1 with 5"),
            (3, Ask::View(&[(0, 1)]), " live root/0.1"),
            (4, Ask::View(&[(0, 1)]), " dead root/0.1 of 1 with none"), // it was poisoned
        ],
    )
}

#[test]
fn root_lends_the_processes_below_it(rt: HostRuntime) -> Result<(), Fail> {
    expect(
        &rt,
        rt.alloc(),
        &[
            Step::Try(3, 20),
            Step::Three(Branch::Throw(1, 5), Branch::Next, Branch::Nothing),
        ],
        &[
            (
                0,
                Ask::Children,
                " root live goes 0; none; none; none; none;",
            ),
            (
                2,
                Ask::Children,
                " root goes 3; root/0.0 live goes 0; root/0.1 live goes 0; \
                 root/0.2 live goes 0; none;",
            ),
            (
                3,
                Ask::Children,
                " root goes 3; root/0.0 0; root/0.1 live goes 0; root/0.2 live goes 0; none;",
            ),
            (
                5,
                Ask::Children,
                " root goes 3; root/0.0 0; root/0.1 0; root/0.2 0; none;",
            ),
            (
                6,
                Ask::Children,
                " root live goes 0; none; none; none; none;",
            ),
            (7, Ask::Children, " root 0; none; none; none; none;"),
        ],
    )
}

#[test]
fn path_tells_whether_its_process_stands_before_a_quiet_step(rt: HostRuntime) -> Result<(), Fail> {
    expect(
        &rt,
        rt.alloc(),
        &[Step::Quiet, Step::Fork, Step::Quiet],
        &[
            (0, Ask::BeforeQuiet(&[]), " true"),
            (0, Ask::BeforeQuiet(&[(0, 0)]), " false"), // there is no such process
            (1, Ask::BeforeQuiet(&[]), " false"), // it stands at the fork
            (2, Ask::BeforeQuiet(&[]), " false"), // it has forked
            (2, Ask::BeforeQuiet(&[(0, 0)]), " false"), // it waits
            (6, Ask::BeforeQuiet(&[]), " true"), // the fork has closed
            (6, Ask::BeforeQuiet(&[(0, 0)]), " false"),
            (7, Ask::BeforeQuiet(&[]), " false"), // nothing is left to do
        ],
    )
}

#[test]
fn history_lends_what_the_meetings_on_a_channel_gave(rt: HostRuntime) -> Result<(), Fail> {
    expect(
        &rt,
        rt.alloc(),
        &[Step::Try(3, 20), Step::Next, Step::Throw(1, 7), Step::Next],
        &[
            (1, Ask::Met(2), " none"),
            (2, Ask::Met(2), " 0"),
            (255, Ask::Met(2), " 0 7"),
            (255, Ask::Met(3), " none"),
        ],
    )
}

#[test]
fn steps_on_a_path_are_none_or_stop_at_the_last_quiet_one(rt: HostRuntime) -> Result<(), Fail> {
    expect(
        &rt,
        rt.alloc(),
        &[Step::Quiet, Step::Quiet],
        &[
            (0, Ask::Steps(&[], 0), " true going: own root;"),
            (0, Ask::Steps(&[(0, 0)], 0), " true going: own root;"), // there is no such process
            (0, Ask::Steps(&[], 3), " false going: end root;"), // one too many
        ],
    )
}

#[test]
fn steps_on_a_path_may_want_memory(rt: HostRuntime) -> Result<(), Fail> {
    expect(
        &rt,
        rt.alloc(),
        &[
            Step::Try(1, 1),
            Step::Try(2, 2),
            Step::Try(3, 3),
            Step::Try(4, 4),
        ],
        &[
            (0, Ask::Steps(&[], 3), " true going: own root;"),
            (0, Ask::Steps(&[], 4), " no memory going: own root;"),
        ],
    )
}

// ---- the end, and quiet steps at once

fn add_ended(reply: &mut List<u8>, ended: &Ended) -> Result<(), NoMemory> {
    add_own(reply, ended.own.as_slice())?;
    add_number(reply, b" others ", ended.events)?;
    add_number(reply, b"; logs ", ended.logs.len() as u64)?;
    add_number(reply, b"; steps ", ended.steps)?;
    reply.extend_from_slice(b"; ")?;
    reply.extend_from_slice(outcome_word(ended.outcome))
}

// Tells what can happen to a tree, which processes stand before a quiet step, and what is read off it.
fn tell_end<L: Local>(reply: &mut List<u8>, tree: &Tree<L>, budget: u64) -> Result<(), NoMemory>
    requires { ((steps tree.now ≤ budget) × IsQuiescent L.ops tree.now) ⊎ (steps tree.now ≡ budget) }
{
    add_enabled(reply, tree)?;
    add_quiet(reply, tree)?;
    add_ended(reply, &tree.ended(budget)?)
}

// Takes up to so many quiet steps at once of the process that has this number among those before one,
// and answers how many; none where no process has the number.
fn advance_one<L: Local>(tree: &mut Tree<L>, at: usize, most: u64) -> Result<u64, NoMemory>
    requires fresh { steps tree.old ≡ 0 }
    requires few { most ≤ 255 }
    ensures { IfOk result (λ taken. steps tree.new ≡ taken) }
{
    let _rests = tree.quiescent(); // tells that the tree is sound, so the process stands where its path leads
    let mut last = match tree.at_quiet(at) {
        Some(process) => process.copy()?,
        None => return Ok(0),
    };
    let quiet = last.quiet(most);
    tree.advance(last, quiet.taken);
    Ok(quiet.taken)
}

// How something happens to a tree.
#[derive(Clone, Copy)]
enum Way {
    // So many first events, or fewer.
    Events(u8),
    // Up to so many quiet steps at once of the process that has this number among those before one.
    AtOnce(usize, u8),
}

// Lets that happen to a tree of no events, and tells its end.
fn tell_way<L: Local>(reply: &mut List<u8>, tree: &mut Tree<L>, way: Way) -> Result<(), NoMemory>
    requires { steps tree.old ≡ 0 }
{
    match way {
        Way::Events(most) => {
            do_events(tree, most as u64)?;
            tell_end(reply, tree, most as u64)
        }
        Way::AtOnce(at, most) => {
            let taken = advance_one(tree, at, most as u64)?;
            tell_end(reply, tree, taken)
        }
    }
}

fn end_by(alloc: Global, left: &[Step], way: Way) -> Result<List<u8>, NoMemory> {
    let mut reply = List::new(alloc);
    let mut tree = start(alloc, left)?;
    tell_way(&mut reply, &mut tree, way)?;
    Ok(reply)
}

// The steps of a root, ways, and what is told after each way.
type Ends<'a> = (&'a [Step], &'a [Way], &'a str);

fn expect_told(
    rt: &impl Abort,
    alloc: Global,
    left: &[Step],
    ways: &[Way],
    text: &str,
) -> Result<(), Fail> {
    for way in ways {
        let reply = end_by(alloc, left, *way)?;
        assert_eq!(rt; str::from_utf8(reply.as_slice())?, text);
    }
    Ok(())
}

fn expect_ends(rt: &impl Abort, alloc: Global, rows: &[Ends<'_>]) -> Result<(), Fail> {
    for row in rows {
        expect_told(rt, alloc, row.0, row.1, row.2)?;
    }
    Ok(())
}

#[test]
fn quiet_steps_at_once_are_as_one_after_another(rt: HostRuntime) -> Result<(), Fail> {
    let steps = [
        Step::Quiet,
        Step::Try(3, 20),
        Step::Quiet,
        Step::Throw(1, 0),
    ];
    expect_ends(
        &rt,
        rt.alloc(),
        &[
            (
                &steps,
                &[Way::Events(0), Way::AtOnce(1, 9), Way::AtOnce(0, 0)],
                " going: own root; quiet root none; others 0; logs 0; steps 0; spent",
            ),
            (
                &steps,
                &[Way::Events(2), Way::AtOnce(0, 2)],
                " going: own root; quiet root none; stepped root 2; others 0; logs 0; steps 2; spent",
            ),
            (
                &steps,
                &[Way::Events(3), Way::AtOnce(0, 9)],
                " going: own root; quiet none none; stepped root 3; others 0; logs 0; steps 3; spent",
            ),
        ],
    )
}

// No source throws the label of a trap, or one that isn't in force.
#[test]
fn root_dies_of_a_throw_that_no_source_has(rt: HostRuntime) -> Result<(), Fail> {
    expect_ends(
        &rt,
        rt.alloc(),
        &[
            (
                &[Step::Throw(1, 0)],
                &[Way::Events(9)],
                " at rest: quiet none none; stepped root 1; others 0; logs 1; steps 1; trapped",
            ),
            (
                &[Step::Throw(0, 0)],
                &[Way::Events(9)],
                " at rest: quiet none none; stepped root 1; others 0; logs 0; steps 1; trapped",
            ),
        ],
    )
}
