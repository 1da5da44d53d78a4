// The syntax tree.
use shim_base::{BinOp, Boxed, List, Name, Ty, UnOp};

/// A whole source.
#[derive(Drop)]
pub struct Program {
    /// The version of the text: 1 or 2.
    pub version: u32,
    pub functions: List<Function>,
}

/// A function. Its line, as every line of the tree, is that of its first token, counted from 1.
#[derive(Drop)]
pub struct Function {
    pub line: u32,
    pub name: Name,
    pub params: List<Param>,
    pub throws: List<Name>,
    pub body: List<Stmt>,
}

/// What a variable or a parameter holds.
#[derive(Clone, Copy, Debug, PartialEq, Eq)]
pub enum Sort {
    Value(Ty),
    /// The bytes that come in.
    Input,
    /// The bytes that go out.
    Output,
}

#[derive(Drop)]
pub struct Param {
    pub sort: Sort,
    /// Whether it is given by reference; a stream always is.
    pub by_ref: bool,
    pub name: Name,
}

#[derive(Drop)]
#[cycle(statements)]
pub struct Stmt {
    pub line: u32,
    pub what: What,
}

/// What a statement does.
#[derive(Drop)]
#[cycle(statements)]
pub enum What {
    /// `int x;`, with a first value where one is given. `int x, y;` is two of these, both with the line of the type.
    Declare(Ty, Name, Option<Expr>),
    /// `x = e;`
    Assign(Name, Expr),
    /// `next x;`
    Next(Name),
    /// `next x = e;`
    NextAssign(Name, Expr),
    /// `x = next y;`
    AssignNext(Name, Name),
    /// `x = get i;`
    Get(Name, Name),
    /// `put o, e;`
    Put(Name, Expr),
    /// `if (e) .. else ..`; without `else` the second list is empty.
    If(Expr, List<Stmt>, List<Stmt>),
    /// `while (e) ..`
    While(Expr, List<Stmt>),
    /// `for (first; e; step) ..`: the first statement, or none; the test; the step, or none; the body.
    For(List<Stmt>, Option<Expr>, List<Stmt>, List<Stmt>),
    /// `{ .. }`
    Block(List<Stmt>),
    /// `f(a, b);`
    Call(Call),
    /// `try { .. } catch (T) { .. }`. In version 2 a variable may follow the exception, and takes the number that was
    /// thrown, if one was.
    Try(List<Stmt>, Name, Option<Name>, List<Stmt>),
    /// `throw T;`. In version 2 a number may follow the exception, as in `throw T(e);`.
    Throw(Name, Option<Expr>),
    /// Two or more branches with `par` between them.
    Par(List<Branch>),
}

/// One branch of a fork.
#[derive(Drop)]
#[cycle(statements)]
pub struct Branch {
    pub line: u32,
    pub what: BranchWhat,
}

#[derive(Drop)]
#[cycle(statements)]
pub enum BranchWhat {
    Block(List<Stmt>),
    Call(Call),
}

#[derive(Drop)]
pub struct Call {
    pub function: Name,
    pub args: List<Expr>,
}

#[derive(Drop)]
pub enum Expr {
    Number(i64),
    Var(Name),
    Unary(UnOp, Boxed<Expr>),
    Binary(BinOp, Boxed<Expr>, Boxed<Expr>),
}
