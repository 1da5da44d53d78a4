// The tree of a program whose names are numbers.
use shim_base::{BinOp, Boxed, List, Ty, UnOp};
use shim_syntax::Sort;

/// A function. Its name, and those of its slots and exceptions, are numbers in the list of names.
#[derive(Debug, Drop)]
pub struct RFunction {
    pub line: u32,
    pub name: u32,
    pub params: List<UParam>,
    /// What each slot holds. The first slots are the parameters'; the declarations and the variables of
    /// handlers follow as they come in the text.
    pub slots: List<Sort>,
    pub slot_names: List<u32>,
    /// The names in the `throws`, in textual order. Their exceptions have the numbers from 0.
    pub throws: List<u32>,
    /// The names of the exceptions of the `try` statements, in textual order. The numbers of these
    /// exceptions follow those of the `throws`.
    pub tries: List<u32>,
    pub body: List<RStmt>,
}

#[derive(Debug, Drop)]
pub struct UParam {
    pub sort: Sort,
    pub by_ref: bool,
    pub name: u32,
}

#[derive(Debug, Drop)]
#[cycle(statements)]
pub struct RStmt {
    pub line: u32,
    pub what: RWhat,
}

/// What a statement does, with slots in place of names of variables and numbers in place of those
/// of exceptions.
#[derive(Debug, Drop)]
#[cycle(statements)]
pub enum RWhat {
    Declare(Ty, u32, Option<UExpr>),
    Assign(u32, UExpr),
    Next(u32),
    NextAssign(u32, UExpr),
    AssignNext(u32, u32),
    Get(u32, u32),
    Put(u32, UExpr),
    If(UExpr, List<RStmt>, List<RStmt>),
    While(UExpr, List<RStmt>),
    For(List<RStmt>, Option<UExpr>, List<RStmt>, List<RStmt>),
    Block(List<RStmt>),
    Call(RCall),
    /// The body, the exception's number, the slot of the handler's variable where it has one, and the handler.
    Try(List<RStmt>, u32, Option<u32>, List<RStmt>),
    /// The exception's number, and the expression of the number that is thrown, where the statement has one.
    Throw(u32, Option<UExpr>),
    Par(List<RBranch>),
}

/// One branch of a fork.
#[derive(Debug, Drop)]
#[cycle(statements)]
pub struct RBranch {
    pub line: u32,
    pub what: RBranchWhat,
}

#[derive(Debug, Drop)]
#[cycle(statements)]
pub enum RBranchWhat {
    Block(List<RStmt>),
    Call(RCall),
}

/// A call of a function by its number; `throws` has the caller's exception for each of the callee's.
#[derive(Debug, Drop)]
pub struct RCall {
    pub function: u32,
    pub args: List<UExpr>,
    pub throws: List<u32>,
}

/// An expression over slots.
#[derive(Debug, Drop)]
pub enum UExpr {
    Number(i64),
    Var(u32),
    Unary(UnOp, Boxed<UExpr>),
    Binary(BinOp, Boxed<UExpr>, Boxed<UExpr>),
}
