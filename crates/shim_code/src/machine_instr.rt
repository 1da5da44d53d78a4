// The instructions that the machine runs.
use crate::instr::MarkKind;
use shim_base::{BinOp, Boxed, List, Ty, UnOp};
use shim_syntax::Sort;

/// Where a statement begins, or its second part. The small fields stand last, so that an instruction takes
/// 16 bytes in place of 24.
#[derive(Clone, Copy, Debug)]
pub struct Mark {
    pub line: u32,
    /// The statement's number in its unit.
    pub number: u32,
    pub kind: MarkKind,
    /// The first part of the statement is done: of `next x = e` the assignment, of `x = next y` the
    /// rendezvous.
    pub halfway: bool,
}

/// What is called, or what a branch of a fork calls.
#[derive(Debug, Drop)]
pub struct Callee {
    pub unit: u32,
    /// How many arguments it gets.
    pub args: u32,
    /// The caller's exception for each that the unit is given.
    pub throws: List<u32>,
}

/// One instruction with what running it takes of its statement: a type to store by, what a parameter holds and its
/// name, a number. Other names, and the slots of the units that are entered, stay in the program.
#[derive(Debug, Drop)]
pub enum MachineInstr {
    Mark(Mark),
    Num(i64),
    Var(u32),
    Un(UnOp),
    Bin(BinOp),
    Bool,
    Jump(u32),
    JumpZ(u32),
    /// With the type by which the value is stored.
    Declare(Ty, u32),
    Set(u32),
    Get(u32),
    Put(u32),
    Next(u32),
    Ref(u32),
    /// With what the parameter holds.
    Pass(u32, Sort),
    /// What the parameter holds, and its name.
    Fresh(Sort, u32),
    Call(Boxed<Callee>),
    Branch(Boxed<Callee>),
    Fork(u32),
    Try(u32, u32),
    /// `Try` with the slot of the handler's variable.
    TryInto(u32, u32, u32),
    Untry,
    Throw(u32),
    /// How many numbers the unit's statements have.
    End(u32),
}
