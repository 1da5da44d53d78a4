// The frames that wait for a called unit.
ghost use Rattle.std.specs.Prelude.{◌≡◌, [], ◌∷◌, length, reverse, MatchOption, IfOk, OnOk, IfErr, OnErr};
ghost use Rattle.std.specs.Option.{option_copied};
ghost use Rattle.shim_walk_frames.specs.Unwinding.{handler_in};
ghost use Rattle.shim_walk_frames.specs.Variables.{variables_in};

use crate::frame::Frame;
use crate::handler::Handler;
use shim_base::{List, NoMemory};
use std::alloc::{AllocFailed, Global};
use std::marker::Model;

/// The frames that wait, each for the unit that it called. Contracts see the innermost first.
#[derive(Drop)]
pub struct CallStack {
    items: Vec<Frame>,
}

impl Model for CallStack {
    ghost use Rattle.std.specs.Prelude.{List as ListOf, reverse};
    ghost use Rattle.shim_walk_frames.specs.FrameViews.{FrameView};

    ghost Value = { ListOf FrameView };

    ghost view = { λ c. reverse c.items.items };
}

impl CallStack {
    pub fn new(alloc: Global) -> CallStack
        ensures { result ≡ [] }
    {
        CallStack {
            items: Vec::new(alloc),
        }
    }

    pub fn len(&self) -> usize
        ensures { result ≡ length self.now }
    {
        self.items.len()
    }

    /// The frames that wait, the outermost first.
    pub fn as_slice(&self) -> &[Frame]
        ensures { reverse result.now ≡ self.now }
    {
        self.items.as_slice()
    }

    /// Another call stack of the same meaning.
    pub fn copy(&self, alloc: Global) -> Result<CallStack, NoMemory>
        ensures { IfOk result (λ copy. copy ≡ self.now) }
    {
        Ok(CallStack {
            items: copied(alloc, self.items.as_slice())?,
        })
    }

    /// A refusal gives the frame back.
    pub fn push(&mut self, caller: Frame) -> Result<(), AllocFailed<Frame>>
        ensures ok { OnOk result (self.new ≡ caller ∷ self.old) }
        ensures back { IfErr result (λ failed. failed.value ≡ caller) }
        ensures err { OnErr result (self.new ≡ self.old) }
    {
        self.items.push(caller)
    }

    pub fn pop(&mut self) -> Option<Frame>
        ensures { MatchOption result ((self.old ≡ []) × (self.new ≡ [])) (λ caller. self.old ≡ caller ∷ self.new) }
    {
        self.items.pop()
    }
}

/// The handler at an exception place of a process with this frame and these callers, the innermost
/// last. The places are counted from the outermost.
pub fn handler_in<'a>(top: &'a Frame, callers: &'a [Frame], place: u32) -> Option<&'a Handler>
    ensures { option_copied result ≡ handler_in top.now place (reverse callers.now) }
{
    match callers.split_last() {
        Some((caller, rest)) if place < top.outer() => handler_in(caller, rest, place),
        _ => top.place(place.saturating_sub(top.outer()) as usize),
    }
}

/// How many variables of handlers are in force, in this frame and in those that wait.
pub fn variables_in(top: &Frame, callers: &CallStack) -> Result<usize, NoMemory>
    ensures { IfOk result (λ many. many ≡ variables_in (top.now ∷ callers.now)) }
{
    let mut many = top.variables();
    for caller in callers.as_slice() {
        many = many.checked_add(caller.variables()).ok_or(NoMemory)?;
    }
    Ok(many)
}

fn copied(alloc: Global, units: &[Frame]) -> Result<Vec<Frame>, NoMemory>
    ensures { IfOk result (λ copies. copies.items ≡ units.now) }
{
    let mut copies = List::new(alloc);
    for unit in units {
        copies.push(unit.copy()?)?;
    }
    Ok(copies.into_vec())
}
