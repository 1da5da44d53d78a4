// Numbers that wait to be looked at.
ghost use Rattle.std.specs.Prelude.{◌≡◌, ◌<◌, ◌≤◌, false, [], ◌∷◌, ◌++◌, length, OnOk, OnErr};
ghost use Rattle.shim_records.specs.Waiting.{AreGrown, Enqueues, Dequeues, AreListedIn};

use shim_base::NoMemory;
use std::alloc::Global;
use std::marker::Model;

/// Numbers below a bound, each at most once. Room for all of them is there, so nothing but raising the
/// bound takes memory. Contracts see the flags.
#[derive(Drop)]
pub struct Worklist {
    numbers: Vec<u32>,
    listed: Vec<bool>,
}

impl Model for Worklist {
    ghost use Rattle.std.specs.Prelude.{Bool, List};
    ghost use Rattle.shim_records.specs.Waiting.{KeepsRoom};

    ghost Value = { List Bool };

    ghost view = { λ w. w.listed.items };

    ghost invariant = { λ w. KeepsRoom w.numbers w.listed.items };
}

impl Worklist {
    /// No number may be listed yet.
    pub fn new(alloc: Global) -> Worklist
        ensures { result ≡ [] }
    {
        Worklist {
            numbers: Vec::new(alloc),
            listed: Vec::new(alloc),
        }
    }

    /// The numbers that are listed, in no certain order.
    pub fn numbers(&self) -> &[u32]
        ensures { AreListedIn result.now self.now }
    {
        self.numbers.as_slice()
    }

    // One number more may be listed. An error changes nothing.
    fn raise(&mut self) -> Result<(), NoMemory>
        ensures ok { OnOk result (self.new ≡ self.old ++ false ∷ []) }
        ensures err { OnErr result (self.new ≡ self.old) }
    {
        self.numbers.reserve(self.listed.len() + 1)?;
        self.listed.push(false)?;
        Ok(())
    }

    /// All numbers below this one may be listed; a higher bound stays. Running out of memory leaves all that is
    /// listed.
    pub fn grow_to(&mut self, end: usize) -> Result<(), NoMemory>
        ensures raised { AreGrown self.old self.new }
        ensures ok { OnOk result (end ≤ length self.new) }
        ensures most { length self.old ≤ end → length self.new ≤ end }
    {
        for bound in self.listed.len()..end {
            self.raise()?;
        }
        Ok(())
    }

    /// The number is listed, if it wasn't. It takes no memory.
    pub fn add(&mut self, number: u32)
        requires { number < length self.old }
        ensures { Enqueues number self.old self.new }
    {
        let at = number as usize;
        if self.listed[at] {
            return;
        }
        self.listed[at] = true;
        self.numbers.push_reserved(number);
    }

    /// Takes a listed number out; `None` exactly where none is listed.
    pub fn take(&mut self) -> Option<u32>
        ensures { Dequeues result self.old self.new }
    {
        match self.numbers.pop() {
            None => None,
            Some(number) => {
                let at = number as usize;
                self.listed[at] = false;
                Some(number)
            }
        }
    }
}
