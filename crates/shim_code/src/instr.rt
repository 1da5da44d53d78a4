// The instructions of a unit's code.
use shim_base::{BinOp, List, UnOp};

/// What a process is at where a statement, or its second part, begins.
#[derive(Clone, Copy, Debug, PartialEq, Eq)]
pub enum MarkKind {
    Quiet,
    Next,
    Put,
    Fork,
    Throw,
}

/// One instruction. A place is a number in the unit's list of instructions, which begins with 0; slots,
/// exceptions and units are named by their numbers.
#[derive(Drop)]
pub enum Instr {
    /// A statement, or its second part, begins; with its line.
    Mark(MarkKind, u32),
    Num(i64),
    Var(u32),
    Un(UnOp),
    /// Of an operator that is not `&&` or `||`.
    Bin(BinOp),
    /// The number on top becomes 1 where it is not 0.
    Bool,
    Jump(u32),
    /// The number on top is taken off, and a 0 leads to the place.
    JumpZ(u32),
    Declare(u32),
    Set(u32),
    Get(u32),
    Put(u32),
    Next(u32),
    /// An argument by reference.
    Ref(u32),
    /// An argument by value that stays on the variable's channel.
    Pass(u32),
    /// An argument by value on a channel of its own.
    Fresh,
    /// The unit, how many arguments it gets, and the caller's exception for each that the unit is given.
    Call(u32, u32, List<u32>),
    Branch(u32, u32, List<u32>),
    /// This many branches run beside one another.
    Fork(u32),
    /// The place of the handler, the exception that comes into force, and the slot of the handler's variable,
    /// where it has one.
    Try(u32, u32, Option<u32>),
    Untry,
    /// The number on top is taken off, and the exception is thrown with it.
    Throw(u32),
    End,
}
