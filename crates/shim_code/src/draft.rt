// The code of a unit while it is written.
ghost use Rattle.std.specs.Prelude.{◌≡◌, ◌+◌, ◌∷◌, ◌++◌, [], length, slice_set, IfOk, OnOk};
ghost use Rattle.shim_code.specs.Drafts.{jumps_patched, closed_loop};
ghost use Rattle.shim_code.specs.MachineCode.{begin_mark, begun, numbered, try_instr, with_number};
ghost use Rattle.shim_code.specs.declared.machine_instr.MachineInstr.TheVariants.{Jump};

use crate::instr::MarkKind;
use crate::machine_instr::{MachineInstr, Mark};
use shim_base::{List, NoMemory};
use std::alloc::Global;
use std::marker::Model;

/// The exception of a `try`, and the slot of the handler's variable where it has one.
#[derive(Clone, Copy, Debug, PartialEq, Eq)]
pub struct Caught {
    pub exception: u32,
    pub variable: Option<u32>,
}

// The instruction of a `try` with its handler at this place.
fn try_instr(handler: u32, exception: u32, variable: Option<u32>) -> MachineInstr
    ensures { result ≡ try_instr handler exception variable }
{
    match variable {
        None => MachineInstr::Try(handler, exception),
        Some(slot) => MachineInstr::TryInto(handler, exception, slot),
    }
}

/// The instructions so far. A jump past what isn't there yet is pushed first and gets its place later.
#[derive(Drop)]
pub struct Draft {
    items: Vec<MachineInstr>,
}

impl Model for Draft {
    ghost use Rattle.std.specs.Prelude.{List};
    ghost use Rattle.shim_code.specs.declared.machine_instr.MachineInstr.{MachineInstr};

    ghost Value = { List MachineInstr };

    ghost view = { λ draft. draft.items.items };
}

impl Draft {
    pub fn new(alloc: Global) -> Draft
        ensures { result ≡ [] }
    {
        Draft {
            items: Vec::new(alloc),
        }
    }

    pub fn push(&mut self, instr: MachineInstr) -> Result<(), NoMemory>
        ensures { OnOk result (self.new ≡ self.old ++ instr ∷ []) }
    {
        self.items.push(instr)?;
        Ok(())
    }

    /// Adds the mark with which a statement begins, or its second part.
    pub fn begin(&mut self, kind: MarkKind, line: u32, halfway: bool) -> Result<(), NoMemory>
        ensures { OnOk result (self.new ≡ self.old ++ begin_mark kind line halfway ∷ []) }
    {
        self.push(MachineInstr::Mark(Mark {
            line,
            number: 0,
            kind,
            halfway,
        }))
    }

    /// The place of the next instruction. A place that 32 bits do not hold counts as out of memory.
    pub fn here(&self) -> Result<u32, NoMemory>
        ensures { IfOk result (λ at. at ≡ length self.now) }
    {
        u32::try_from(self.items.len()).map_err(|_| NoMemory)
    }

    /// Adds a jump that is replaced later, and gives its place. A `try` may be written there, too.
    pub fn skip(&mut self) -> Result<u32, NoMemory>
        ensures at { IfOk result (λ at. at ≡ length self.old) }
        ensures after { OnOk result (self.new ≡ self.old ++ Jump 0 ∷ []) }
    {
        let at = self.here()?;
        self.push(MachineInstr::Jump(0))?;
        Ok(at)
    }

    // Replaces the instruction at a place. Where the code has no such place nothing changes.
    fn put(&mut self, at: u32, instr: MachineInstr)
        ensures { self.new ≡ slice_set self.old at instr }
    {
        if (at as usize) < self.items.len() {
            self.items[at as usize] = instr;
        }
    }

    /// Ends two pieces once both are written. The instruction at `head` then leads to the second piece: it is a jump
    /// on 0, or the `try` of the given exception. The jump at `jump`, which comes after the first piece, leads to the
    /// end of the code.
    pub fn close(&mut self, head: u32, jump: u32, caught: Option<Caught>) -> Result<(), NoMemory>
        ensures { OnOk result (self.new ≡ jumps_patched caught head jump self.old) }
    {
        let end = self.here()?;
        let second = jump.checked_add(1).ok_or(NoMemory)?;
        let first = match caught {
            None => MachineInstr::JumpZ(second),
            Some(caught) => try_instr(second, caught.exception, caught.variable),
        };
        self.put(head, first);
        self.put(jump, MachineInstr::Jump(end));
        Ok(())
    }

    /// Ends a loop once its test and its body are written. A jump to `start` is added after them, and the jump on 0
    /// at `head` leads to the place after that one.
    pub fn close_loop(&mut self, start: u32, head: u32) -> Result<(), NoMemory>
        ensures { OnOk result (self.new ≡ closed_loop start head self.old) }
    {
        self.push(MachineInstr::Jump(start))?;
        let end = self.here()?;
        self.put(head, MachineInstr::JumpZ(end));
        Ok(())
    }

    /// The whole code, with the statements' numbers at their marks, and their count at the end of the unit. A number
    /// that 32 bits do not hold counts as out of memory.
    pub fn finish(self) -> Result<List<MachineInstr>, NoMemory>
        ensures { IfOk result (λ code. code ≡ numbered 0 self) }
    {
        let Draft { mut items } = self;
        let mut next = 0;
        for at in 0..items.len() {
            next = write_number(&mut items[at], next)?;
        }
        items.shrink_to_fit();
        Ok(List::from(items))
    }
}

// Writes the number into a mark or an end before which `next` statements begin. Gives how many begin up to and at the
// instruction.
fn write_number(instr: &mut MachineInstr, next: u32) -> Result<u32, NoMemory>
    ensures written { OnOk result (instr.new ≡ with_number next instr.old) }
    ensures next { IfOk result (λ after. after ≡ next + begun instr.old) }
{
    match instr {
        MachineInstr::Mark(mark) => {
            if mark.halfway {
                mark.number = next.saturating_sub(1);
                Ok(next)
            } else {
                mark.number = next;
                next.checked_add(1).ok_or(NoMemory)
            }
        }
        MachineInstr::End(count) => {
            *count = next;
            Ok(next)
        }
        _ => Ok(next),
    }
}
