// The tree of an accepted program: its functions and its block branches as units.
use shim_base::{Boxed, List, Ty};
use shim_scopes::{UExpr, UParam};
use shim_syntax::Sort;

/// A function, or a block branch that was lifted out of one. The names of its slots and of its `try` statements
/// are numbers in the program's list of names; its own name is a text.
#[derive(Debug, Drop)]
pub struct Unit {
    /// The function's name; after it, for a lifted branch, a dot and the branch's number in the function.
    pub title: List<u8>,
    /// The number of the function in whose text it stands.
    pub function: u32,
    /// For a lifted branch, the variables that it takes of the unit around it.
    pub params: List<UParam>,
    /// What each slot holds. The first slots are the parameters'; those that the unit itself declares
    /// follow.
    pub slots: List<Sort>,
    pub slot_names: List<u32>,
    /// How many exceptions it is given, which are the first ones.
    pub throws: u32,
    /// The names of the `try` statements of its own text, whose exceptions have the numbers after those that it is
    /// given.
    pub tries: List<u32>,
    pub body: List<UStmt>,
}

#[derive(Debug, Drop)]
#[cycle(statements)]
pub struct UStmt {
    pub line: u32,
    pub what: UWhat,
}

/// What a statement does, with the unit's slots and numbers of exceptions.
#[derive(Debug, Drop)]
#[cycle(statements)]
pub enum UWhat {
    Declare(Ty, u32, Option<UExpr>),
    Assign(u32, UExpr),
    Next(u32),
    NextAssign(u32, UExpr),
    AssignNext(u32, u32),
    Get(u32, u32),
    Put(u32, UExpr),
    If(UExpr, List<UStmt>, List<UStmt>),
    While(UExpr, List<UStmt>),
    For(List<UStmt>, Option<UExpr>, List<UStmt>, List<UStmt>),
    Block(List<UStmt>),
    Call(UCall),
    /// The body, the exception's number, the slot of the handler's variable where it has one, and the handler.
    Try(List<UStmt>, u32, Option<u32>, List<UStmt>),
    /// The exception's number, and the expression of the number that is thrown, where the statement has one.
    Throw(u32, Option<UExpr>),
    Par(List<UBranch>),
}

/// One branch of a fork: the call of a unit.
#[derive(Debug, Drop)]
pub struct UBranch {
    pub line: u32,
    pub call: UCall,
}

/// A call of a unit by its number; `throws` has the caller's exception for each that the unit is given.
#[derive(Debug, Drop)]
pub struct UCall {
    pub unit: u32,
    pub args: List<Arg>,
    pub throws: List<u32>,
}

#[derive(Debug, Drop)]
pub enum Arg {
    /// A variable by reference, or a stream.
    Ref(u32),
    /// A bare variable by value.
    Pass(u32),
    /// An expression that is computed. The box keeps `Ref` and `Pass` small, of which a fork may have many.
    Fresh(Boxed<UExpr>),
}
