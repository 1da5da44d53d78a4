// The distinct names of a program, each with its number.
ghost use Rattle.std.specs.Prelude.{◌≡◌, ◌≤◌, [], ◌∷◌, ◌++◌, length, OnOk, OnErr, None, position};
ghost use Rattle.std.specs.Str.{bytes_eq};
ghost use Rattle.shim_syntax.specs.Names.{with_name, name_index};

use crate::word::copy;
use shim_base::{List, Name, NoMemory};
use std::alloc::Global;
use std::collections::BTreeMap;
use std::marker::Model;

/// Names in the order of their first occurrence, which contracts see as that list. The number of a
/// name is its place there. A map from the bytes of each name to its number finds it: nothing goes
/// through the list, and no choice of names makes the map slow, as it could a table by hashes.
#[derive(Drop)]
pub struct NameTable {
    names: Vec<Name>,
    numbers: BTreeMap<Vec<u8>, usize, Global>,
}

impl Model for NameTable {
    ghost use Rattle.std.specs.Prelude.{ℕ, List as ListOf};
    ghost use Rattle.shim_syntax.specs.Table.{IsIndex};

    ghost Value = { ListOf (ListOf ℕ) };

    ghost view = { λ table. table.names.items };

    ghost invariant = { λ table. IsIndex table.names.items table.numbers };
}

impl NameTable {
    // A table of no names, which takes no memory.
    pub(crate) fn new(alloc: Global) -> NameTable
        ensures { result ≡ [] }
    {
        NameTable {
            names: Vec::new(alloc),
            numbers: BTreeMap::new(alloc),
        }
    }

    // Puts a name after the others, where it is new. A refusal leaves the table as it was.
    #[tactic(auto, using(crate::proofs::TableLemmas::known_stays, crate::proofs::TableLemmas::new_is_last))]
    pub(crate) fn add(&mut self, alloc: Global, name: &Name) -> Result<(), NoMemory>
        ensures ok { OnOk result (self.new ≡ with_name name.now self.old) }
        ensures err { OnErr result (self.new ≡ self.old) }
    {
        match self.find(name) {
            Some(_) => Ok(()),
            None => self.append(alloc, name),
        }
    }

    fn append(&mut self, alloc: Global, name: &Name) -> Result<(), NoMemory>
        requires { position (λ n. bytes_eq n name.now) self.old ≡ None }
        ensures ok { OnOk result (self.new ≡ self.old ++ name.now ∷ []) }
        ensures err { OnErr result (self.new ≡ self.old) }
    {
        // What may be refused comes first: with room for the name nothing has to be taken back.
        self.names.reserve(1)?;
        let bytes = Vec::from_slice(alloc, name.as_bytes())?;
        let name = copy(alloc, name)?;
        self.numbers.insert(bytes, self.names.len())?;
        self.names.push(name)?;
        Ok(())
    }

    /// The number of a name, where it is one of these.
    pub fn find(&self, name: &Name) -> Option<usize>
        ensures { result ≡ position (λ n. bytes_eq n name.now) self.now }
    {
        self.numbers.get(name.as_bytes()).copied()
    }

    /// The number of a name, which for a new one is the number that it would get.
    pub fn number(&self, name: &Name) -> u32
        requires { length self.now ≤ 4294967295 }
        ensures { result ≡ name_index self.now name.now }
    {
        match self.find(name) {
            Some(number) => number as u32,
            None => self.names.len() as u32,
        }
    }

    /// The names, in the order of their numbers.
    pub fn names(&self) -> &[Name]
        ensures { result.now ≡ self.now }
    {
        self.names.as_slice()
    }

    /// The names in the order of their numbers, as a list. The map is let go.
    pub fn into_list(self) -> List<Name>
        ensures { result ≡ self }
    {
        let NameTable { names, numbers: _ } = self;
        List::from(names)
    }
}
