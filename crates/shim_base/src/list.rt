// The list that public data hold.
ghost use Rattle.std.specs.Prelude.{◌≡◌, [], ◌∷◌, ◌++◌, ◌<◌, ◌≤◌, length, slice_get, ◌↔◌, IsTrue, IsNone, IfOk, OnOk, OnErr};
ghost use Rattle.std.specs.Option.{option_copied};

use crate::NoMemory;
use std::alloc::Global;
use std::marker::Model;

/// A `Vec` that contracts see as the list of its elements, so that two lists of equal elements are
/// equal, whatever their capacities. A recursive type may go through it.
#[derive(Debug, Drop)]
pub struct List<T> {
    items: Vec<T>,
}

impl<T> Model for List<T> {
    ghost use Rattle.std.specs.Prelude.{List as ListOf};
    ghost use Rattle.std.specs.Coded.{coded_list};

    ghost Value = { ListOf T };

    ghost coded = { coded_list T.code };

    ghost view = { λ list. list.items.items };
}

impl<T> List<T> {
    /// An empty list, which takes no memory.
    pub fn new(alloc: Global) -> List<T>
        ensures { result ≡ [] }
    {
        List {
            items: Vec::new(alloc),
        }
    }

    /// An empty list with room for so many elements.
    pub fn with_capacity(alloc: Global, capacity: usize) -> Result<List<T>, NoMemory>
        ensures { IfOk result (λ list. list ≡ []) }
    {
        Ok(List {
            items: Vec::with_capacity(alloc, capacity)?,
        })
    }

    pub fn len(&self) -> usize
        ensures { result ≡ length self.now }
    {
        self.items.len()
    }

    pub fn is_empty(&self) -> bool
        ensures { IsTrue result ↔ (self.now ≡ []) }
    {
        self.items.is_empty()
    }

    /// The element at a place, counted from 0; `None` exactly where the list ends before it.
    pub fn get(&self, at: usize) -> Option<&T>
        ensures value { option_copied result ≡ slice_get self.now at }
        ensures none { IsNone result ↔ (length self.now ≤ at) }
    {
        self.items.get(at)
    }

    pub fn as_slice(&self) -> &[T]
        ensures { result.now ≡ self.now }
    {
        self.items.as_slice()
    }

    /// Where its memory comes from.
    pub fn allocator(&self) -> Global {
        *self.items.allocator()
    }

    /// The elements of the list, as a `Vec`.
    pub fn into_vec(self) -> Vec<T>
        ensures { result.items ≡ self }
    {
        let List { items } = self;
        items
    }
}

impl<T: Drop> List<T> {
    // Makes room for `more` values, or for as many as the list has, if these are more.
    // `Vec` alone would begin with room for four, and most lists of a syntax tree have one element.
    #[cold]
    #[inline(never)]
    fn grow(&mut self, more: usize) -> Result<(), NoMemory>
        ensures { self.new ≡ self.old }
    {
        let wanted = more.max(self.items.len());
        self.items.reserve_exact(wanted)?;
        Ok(())
    }

    /// Adds a value at the end. Where there is no memory for it, the list stays as it was, and the value
    /// is dropped.
    pub fn push(&mut self, value: T) -> Result<(), NoMemory>
        ensures ok { OnOk result (self.new ≡ self.old ++ value ∷ []) }
        ensures err { OnErr result (self.new ≡ self.old) }
    {
        if self.items.len() == self.items.capacity() {
            self.grow(1)?;
        }
        self.items.push(value)?;
        Ok(())
    }

    /// Moves the values of another list to the end of this one. A refusal drops them and leaves this list as
    /// it was.
    pub fn append(&mut self, other: List<T>) -> Result<(), NoMemory>
        ensures ok { OnOk result (self.new ≡ self.old ++ other) }
        ensures err { OnErr result (self.new ≡ self.old) }
    {
        let List { mut items } = other;
        if self.items.is_empty() {
            self.items = items;
            return Ok(());
        }
        if items.len() > self.items.capacity().saturating_sub(self.items.len()) {
            self.grow(items.len())?;
        }
        self.items.append(&mut items)?;
        Ok(())
    }
}

impl<T: Copy> List<T> {
    /// A list of copies of these values.
    pub fn from_slice(alloc: Global, values: &[T]) -> Result<List<T>, NoMemory>
        ensures { IfOk result (λ list. list ≡ values.now) }
    {
        Ok(List {
            items: Vec::from_slice(alloc, values)?,
        })
    }

    /// Adds a copy of each value at the end. A refusal leaves the list as it was.
    pub fn extend_from_slice(&mut self, values: &[T]) -> Result<(), NoMemory>
        ensures ok { OnOk result (self.new ≡ self.old ++ values.now) }
        ensures err { OnErr result (self.new ≡ self.old) }
    {
        self.items.extend_from_slice(values)?;
        Ok(())
    }
}

impl<T> From<Vec<T>> for List<T> {
    ghost from_gives = { λ vec list. list ≡ vec.items };

    fn from(items: Vec<T>) -> List<T> {
        List { items }
    }
}

impl<T: PartialEq> PartialEq for List<T> {
    ghost use Rattle.std.specs.Cmp.Lexicographic.{pointwise, lists_per};

    ghost eq = { pointwise T.eq };

    ghost laws = { lists_per T.laws };

    fn eq(&self, other: &List<T>) -> bool {
        self.as_slice() == other.as_slice()
    }
}

impl<T: Eq> Eq for List<T> {
    ghost use Rattle.std.specs.Cmp.Lexicographic.{lists_equiv};

    ghost laws = { lists_equiv T.Eq.laws };
}
