// The canonical text of trees that no source has.
use shim_base::{BinOp, Boxed, List, Name, NoMemory};
use shim_syntax::{Expr, Function, Program, Stmt, What, print};
use std::alloc::Global;

/// A tree that was made by hand.
#[derive(Clone, Copy)]
pub enum MadeTree {
    /// `void f() { x = A - B; }` with two numbers below 0, the first of which is the least.
    Below0,
    /// No function, in this version.
    Empty(u32),
}

impl MadeTree {
    pub fn named(word: &str) -> Option<MadeTree> {
        match word {
            "below-0" => Some(MadeTree::Below0),
            "empty-1" => Some(MadeTree::Empty(1)),
            "empty-2" => Some(MadeTree::Empty(2)),
            _ => None,
        }
    }
}

fn one<T: Drop>(alloc: Global, value: T) -> Result<List<T>, NoMemory> {
    let mut list = List::new(alloc);
    list.push(value)?;
    Ok(list)
}

// Two numbers with a difference between them.
fn difference(alloc: Global, left: i64, right: i64) -> Result<Expr, NoMemory> {
    let left = Boxed::new(alloc, Expr::Number(left))?;
    let right = Boxed::new(alloc, Expr::Number(right))?;
    Ok(Expr::Binary(BinOp::Sub, left, right))
}

// The body `x = VALUE;`.
fn assignment(alloc: Global, value: Expr) -> Result<List<Stmt>, NoMemory> {
    let what = What::Assign(Name::new(alloc, b"x")?, value);
    one(alloc, Stmt { line: 1, what })
}

// The function `void f()` with this body.
fn function(alloc: Global, body: List<Stmt>) -> Result<Function, NoMemory> {
    Ok(Function {
        line: 1,
        name: Name::new(alloc, b"f")?,
        params: List::new(alloc),
        throws: List::new(alloc),
        body,
    })
}

fn functions(alloc: Global, tree: MadeTree) -> Result<List<Function>, NoMemory> {
    match tree {
        MadeTree::Below0 => {
            let value = difference(alloc, -9223372036854775808, -7)?;
            one(alloc, function(alloc, assignment(alloc, value)?)?)
        }
        MadeTree::Empty(_) => Ok(List::new(alloc)),
    }
}

/// The canonical text of a tree that was made by hand.
pub fn text_of_made(alloc: Global, tree: MadeTree) -> Result<List<u8>, NoMemory> {
    let version = match tree {
        MadeTree::Below0 => 1,
        MadeTree::Empty(version) => version,
    };
    let functions = functions(alloc, tree)?;
    print(alloc, &Program { version, functions })
}
