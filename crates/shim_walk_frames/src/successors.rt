// Where a process goes from a statement, which is known by its number in the unit.
ghost use Rattle.std.specs.Prelude.{◌≡◌, ◌+◌, ◌<◌, ◌≤◌, ◌^◌};
ghost use Rattle.shim_walk_frames.specs.Successors.{successors, size_of, size_all, go_all, to, shifted, inside, into, two_start, loop_start};
ghost use Rattle.shim_walk_frames.specs.Pieces.{stmt_at, at_all};
ghost use Rattle.std.specs.Option.{option_copied};

use shim_units::{UStmt, UWhat};

/// Where a process goes from a statement: after it, or into its first or its second block.
#[derive(Clone, Copy, Debug, PartialEq, Eq)]
pub enum Successor {
    On,
    First,
    Second,
}

/// The number of a statement, and how many `try` blocks end on the way to it.
#[derive(Clone, Copy, Debug, PartialEq, Eq)]
pub struct Position {
    pub at: u32,
    pub left: u32,
}

fn reach(at: u32, left: u32) -> Position
    ensures { result ≡ to at left }
{
    Position { at, left }
}

/// The position that is `by` numbers further on.
pub fn shifted(by: u32, position: Position) -> Position
    requires { by + position.at < 2 ^ 32 }
    ensures { result ≡ shifted by position }
{
    Position {
        at: by + position.at,
        left: position.left,
    }
}

// The position in a block of this size that begins at `from`. Where the block is over it is `past`, with the count of
// ended `try` blocks of `position` added.
fn inside(from: u32, size: u32, past: Position, position: Position) -> Position
    requires at_fits { from + position.at < 2 ^ 32 }
    requires left_fits { past.left + position.left < 2 ^ 32 }
    ensures { result ≡ inside from size past position }
{
    if position.at < size {
        shifted(from, position)
    } else {
        Position {
            at: past.at,
            left: past.left + position.left,
        }
    }
}

// The start of a block, or `past` where it is empty.
fn into(from: u32, size: u32, past: Position) -> Position
    ensures { result ≡ into from size past }
{
    if 0 < size {
        Position { at: from, left: 0 }
    } else {
        past
    }
}

/// How many numbers a statement takes.
#[cycle(size)]
pub fn size_of(stmt: &UStmt) -> u32
    requires { size_of stmt.now < 2 ^ 32 }
    ensures { result ≡ size_of stmt.now }
{
    match &stmt.what {
        UWhat::If(_, first, second) => {
            1 + size_all(first.as_slice()) + size_all(second.as_slice())
        }
        UWhat::While(_, body) => 1 + size_all(body.as_slice()),
        UWhat::For(first, _, step, body) => {
            let looped = 1 + (size_all(body.as_slice()) + size_all(step.as_slice()));
            size_all(first.as_slice()) + looped
        }
        UWhat::Block(body) => size_all(body.as_slice()),
        UWhat::Try(body, _, _, handler) => {
            1 + size_all(body.as_slice()) + size_all(handler.as_slice())
        }
        _ => 1,
    }
}

/// How many numbers a list of statements takes.
#[cycle(size)]
pub fn size_all(body: &[UStmt]) -> u32
    requires { size_all body.now < 2 ^ 32 }
    ensures { result ≡ size_all body.now }
{
    let mut size = 0;
    for stmt in body {
        size += size_of(stmt);
    }
    size
}

// The position of a successor of a statement of two blocks of these sizes, where `ends` blocks of a `try` end after
// the first.
fn two_start(ends: u32, first: u32, second: u32, successor: Successor) -> Position
    requires bound { 1 + first + second < 2 ^ 32 }
    ensures { result ≡ two_start ends first second successor }
{
    let end = 1 + first + second;
    match successor {
        Successor::On => reach(end, 0),
        Successor::First => into(1, first, reach(end, ends)),
        Successor::Second => into(1 + first, second, reach(end, 0)),
    }
}

// The position of a successor of the test of a loop with a body of this size.
fn loop_start(size: u32, successor: Successor) -> Position
    requires bound { 1 + size < 2 ^ 32 }
    ensures { result ≡ loop_start size successor }
{
    match successor {
        Successor::First => into(1, size, reach(0, 0)),
        _ => reach(1 + size, 0),
    }
}

/// Where the process goes from a number of a statement.
#[cycle(go)]
pub fn go(stmt: &UStmt, successor: Successor, at: u32) -> Position
    requires bound { size_of stmt.now < 2 ^ 32 }
    requires inside { at < size_of stmt.now }
    ensures value { result ≡ (successors stmt.now).go successor at }
    ensures at_most { result.at ≤ size_of stmt.now }
    ensures left_most { result.left ≤ size_of stmt.now }
{
    match &stmt.what {
        UWhat::If(_, first, second) => {
            let size = size_all(first.as_slice());
            let other = size_all(second.as_slice());
            if at == 0 {
                two_start(0, size, other, successor)
            } else if at - 1 < size {
                let end = reach(1 + size + other, 0);
                inside(1, size, end, go_all(first.as_slice(), successor, at - 1))
            } else {
                let position = go_all(second.as_slice(), successor, at - 1 - size);
                shifted(1 + size, position)
            }
        }
        UWhat::While(_, body) => {
            let size = size_all(body.as_slice());
            if at == 0 {
                loop_start(size, successor)
            } else {
                let position = go_all(body.as_slice(), successor, at - 1);
                inside(1, size, reach(0, 0), position)
            }
        }
        UWhat::For(first, _, step, body) => {
            let before = size_all(first.as_slice());
            if at < before {
                return go_all(first.as_slice(), successor, at);
            }
            let size = size_all(body.as_slice());
            let looped = size + size_all(step.as_slice());
            if at == before {
                shifted(before, loop_start(looped, successor))
            } else if at - before - 1 < size {
                let position = go_all(body.as_slice(), successor, at - before - 1);
                shifted(before, inside(1, looped, reach(0, 0), position))
            } else {
                let position = go_all(step.as_slice(), successor, at - before - 1 - size);
                shifted(
                    before,
                    inside(1, looped, reach(0, 0), shifted(size, position)),
                )
            }
        }
        UWhat::Block(body) => go_all(body.as_slice(), successor, at),
        UWhat::Try(body, _, _, handler) => {
            let size = size_all(body.as_slice());
            let other = size_all(handler.as_slice());
            if at == 0 {
                two_start(1, size, other, successor)
            } else if at - 1 < size {
                let end = reach(1 + size + other, 1);
                inside(1, size, end, go_all(body.as_slice(), successor, at - 1))
            } else {
                let position = go_all(handler.as_slice(), successor, at - 1 - size);
                shifted(1 + size, position)
            }
        }
        _ => reach(1, 0),
    }
}

// Where the process goes from a number of a list of statements.
#[cycle(go)]
fn go_all(body: &[UStmt], successor: Successor, at: u32) -> Position
    requires bound { size_all body.now < 2 ^ 32 }
    requires inside { at < size_all body.now }
    ensures value { result ≡ go_all body.now successor at }
    ensures at_most { result.at ≤ size_all body.now }
    ensures left_most { result.left ≤ size_all body.now }
{
    let mut passed = 0;
    for stmt in body {
        let size = size_of(stmt);
        if at - passed < size {
            return shifted(passed, go(stmt, successor, at - passed));
        }
        passed += size;
    }
    reach(passed, 0)
}

/// The statement of a number counted within this statement.
#[tactic(auto, using(crate::proofs::Rolls::part_out, crate::proofs::Rolls::at_if_start, crate::proofs::Rolls::at_if_first, crate::proofs::Rolls::at_if_second, crate::proofs::Rolls::at_try_start, crate::proofs::Rolls::at_try_first, crate::proofs::Rolls::at_try_second, crate::proofs::Rolls::at_while_start, crate::proofs::Rolls::at_while, crate::proofs::Rolls::at_block, crate::proofs::Rolls::at_for_first, crate::proofs::Rolls::at_for_start, crate::proofs::Rolls::at_for_body, crate::proofs::Rolls::at_for_step))]
#[cycle(find)]
pub fn find(stmt: &UStmt, at: u32) -> Option<&UStmt>
    requires bound { size_of stmt.now < 2 ^ 32 }
    requires inside { at < size_of stmt.now }
    ensures { option_copied result ≡ stmt_at stmt.now at }
{
    match &stmt.what {
        UWhat::If(_, first, second) => {
            if at == 0 {
                return Some(stmt);
            }
            let size = size_all(first.as_slice());
            if at - 1 < size {
                find_all(first.as_slice(), at - 1)
            } else {
                find_all(second.as_slice(), at - 1 - size)
            }
        }
        UWhat::While(_, body) => {
            if at == 0 {
                return Some(stmt);
            }
            find_all(body.as_slice(), at - 1)
        }
        UWhat::For(first, _, step, body) => {
            let before = size_all(first.as_slice());
            if at < before {
                return find_all(first.as_slice(), at);
            }
            if at == before {
                return Some(stmt);
            }
            let inner = size_all(body.as_slice());
            if at - before - 1 < inner {
                find_all(body.as_slice(), at - before - 1)
            } else {
                find_all(step.as_slice(), at - before - 1 - inner)
            }
        }
        UWhat::Block(body) => find_all(body.as_slice(), at),
        UWhat::Try(body, _, _, handler) => {
            if at == 0 {
                return Some(stmt);
            }
            let size = size_all(body.as_slice());
            if at - 1 < size {
                find_all(body.as_slice(), at - 1)
            } else {
                find_all(handler.as_slice(), at - 1 - size)
            }
        }
        _ => Some(stmt),
    }
}

// The statement of a number in a list of statements; `None` exactly where the number isn't less than how many numbers
// the list takes.
#[tactic(auto, using(crate::proofs::Rolls::part_out, crate::proofs::Rolls::at_if_start, crate::proofs::Rolls::at_if_first, crate::proofs::Rolls::at_if_second, crate::proofs::Rolls::at_try_start, crate::proofs::Rolls::at_try_first, crate::proofs::Rolls::at_try_second, crate::proofs::Rolls::at_while_start, crate::proofs::Rolls::at_while, crate::proofs::Rolls::at_block, crate::proofs::Rolls::at_for_first, crate::proofs::Rolls::at_for_start, crate::proofs::Rolls::at_for_body, crate::proofs::Rolls::at_for_step))]
#[cycle(find)]
fn find_all(body: &[UStmt], at: u32) -> Option<&UStmt>
    requires bound { size_all body.now < 2 ^ 32 }
    ensures { option_copied result ≡ at_all body.now at }
{
    let mut left = at;
    for stmt in body {
        let size = size_of(stmt);
        if left < size {
            return find(stmt, left);
        }
        left -= size;
    }
    None
}
