// In which statement of its unit's own list a frame stands, so that a step need not begin at the
// list's first one.
ghost use Rattle.std.specs.Prelude.{◌≡◌, ◌<◌, ◌≤◌, ◌^◌, slice_get, MatchOption};
ghost use Rattle.std.specs.Option.{option_copied};
ghost use Rattle.shim_walk_frames.specs.Cursors.{BeginsBefore, IsCursor};
ghost use Rattle.shim_walk_frames.specs.Pieces.{at_all};
ghost use Rattle.shim_walk_frames.specs.Successors.{go_all, size_all};

use crate::successors::{Position, Successor, find, go, shifted, size_of};
use shim_units::UStmt;

/// The index of a statement in its list, and the number at which it begins.
#[derive(Clone, Copy, Debug, PartialEq, Eq)]
pub struct Cursor {
    pub index: usize,
    pub first: u32,
}

// The statement of this cursor; `None` where the list is over.
fn stmt_of(body: &[UStmt], cursor: Cursor) -> Option<&UStmt>
    ensures { option_copied result ≡ slice_get body.now cursor.index }
{
    body.get(cursor.index)
}

/// The cursor of a number, looked for from the statement of the given cursor on.
pub fn advance(body: &[UStmt], cursor: Cursor, at: u32) -> Cursor
    requires bound { size_all body.now < 2 ^ 32 }
    requires begins { BeginsBefore body.now cursor at }
    ensures { IsCursor body.now result at }
{
    let mut cursor = cursor;
    while let Some(stmt) = stmt_of(body, cursor) {
        let size = size_of(stmt);
        if at - cursor.first < size {
            return cursor;
        }
        cursor = Cursor {
            index: cursor.index + 1,
            first: cursor.first + size,
        };
    }
    cursor
}

/// The cursor of a number, looked for from the first statement on.
pub fn cursor_of(body: &[UStmt], at: u32) -> Cursor
    requires { size_all body.now < 2 ^ 32 }
    ensures { IsCursor body.now result at }
{
    advance(body, Cursor { index: 0, first: 0 }, at)
}

/// The statement of a number, of which this is the cursor; `None` where the list is over.
pub fn find_at(body: &[UStmt], cursor: Cursor, at: u32) -> Option<&UStmt>
    requires bound { size_all body.now < 2 ^ 32 }
    requires cursor { IsCursor body.now cursor at }
    ensures { option_copied result ≡ at_all body.now at }
{
    match stmt_of(body, cursor) {
        None => None,
        Some(stmt) => find(stmt, at - cursor.first),
    }
}

/// Where the process goes from a number, of which this is the cursor; `None` where the list is over.
pub fn go_at(body: &[UStmt], cursor: Cursor, successor: Successor, at: u32) -> Option<Position>
    requires bound { size_all body.now < 2 ^ 32 }
    requires cursor { IsCursor body.now cursor at }
    ensures { MatchOption result (size_all body.now ≤ at) (λ position. (at < size_all body.now) × (position ≡ go_all body.now successor at) × BeginsBefore body.now cursor position.at) }
{
    match stmt_of(body, cursor) {
        None => None,
        Some(stmt) => Some(shifted(cursor.first, go(stmt, successor, at - cursor.first))),
    }
}
