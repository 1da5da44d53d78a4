// The numbers that code computes with.
ghost use Rattle.std.specs.Prelude.{◌≡◌, ◌∷◌, [], MatchOption, OnOk, OnErr};

use shim_base::NoMemory;
use std::alloc::Global;
use std::marker::Model;

/// So many numbers have room without memory.
pub const NEAR: usize = 16;

/// The numbers that the code of an expression has computed and not yet used. Contracts see the top first. The
/// first few of them take no memory.
#[derive(Drop)]
pub struct Stack {
    near: [i64; 16],
    len: usize,
    far: Vec<i64>,
}

impl Model for Stack {
    ghost use Rattle.std.specs.Prelude.{◌≡◌, ◌≤◌, ◌⊎◌, ◌++◌, [], List, ℤ, reverse, take};

    ghost Value = { List ℤ };

    ghost view = { λ s. reverse (take s.len s.near ++ s.far.items) };

    ghost invariant = { λ s. (s.len ≤ 16) × ((s.far.items ≡ []) ⊎ (s.len ≡ 16)) };
}

impl Stack {
    pub fn new(alloc: Global) -> Stack
        ensures { result ≡ [] }
    {
        Stack {
            near: [0; 16],
            len: 0,
            far: Vec::new(alloc),
        }
    }

    /// The numbers beyond the first few go into this room, and take memory only beyond that.
    pub fn with_room(room: Vec<i64>) -> Stack
        ensures { result ≡ [] }
    {
        let mut far = room;
        far.truncate(0);
        Stack {
            near: [0; 16],
            len: 0,
            far,
        }
    }

    /// The room for the numbers beyond the first few.
    pub fn into_room(self) -> Vec<i64> {
        let Stack { far, .. } = self;
        far
    }

    /// Nothing is on it.
    pub fn clear(&mut self)
        ensures { self.new ≡ [] }
    {
        self.far.truncate(0);
        self.len = 0;
    }

    /// This number is on top. A refusal changes nothing.
    pub fn push(&mut self, number: i64) -> Result<(), NoMemory>
        ensures ok { OnOk result (self.new ≡ number ∷ self.old) }
        ensures err { OnErr result (self.new ≡ self.old) }
    {
        if self.len >= NEAR {
            self.far.push(number)?;
            return Ok(());
        }
        self.near[self.len] = number;
        self.len += 1;
        Ok(())
    }

    /// Takes off the top.
    pub fn pop(&mut self) -> Option<i64>
        ensures { MatchOption result (self.old ≡ []) (λ number. self.old ≡ number ∷ self.new) }
    {
        if let Some(number) = self.far.pop() {
            return Some(number);
        }
        if self.len == 0 {
            return None;
        }
        self.len -= 1;
        Some(self.near[self.len])
    }
}
