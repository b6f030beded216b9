// A `Vec` that contracts see as the list of its items.
ghost use Rattle.std.specs.Prelude.{◌≡◌, [], ◌∷◌, ◌++◌, length, IfOk, OnOk, OnErr};
ghost use Rattle.std.specs.Borrow.{Lends, Array, sem};
ghost use Rattle.lists.specs.contracts.list.List.{the_row};
ghost use Rattle.lists.specs.Lending.{with_items};

use super::NoMemory;
use std::alloc::Global;
use std::marker::Model;

/// Items in order. Contracts see the list of the items and nothing else.
#[derive(Debug, Drop)]
pub struct List<T> {
    items: Vec<T>,
}

impl<T> Model for List<T> {
    ghost use Rattle.std.specs.Prelude.{List};
    ghost use Rattle.std.specs.Coded.{coded_list};

    ghost Value = { List T };

    ghost coded = { coded_list T.code };

    ghost view = { λ it. it.items.items };
}

impl<T> List<T> {
    /// The empty list, which takes no memory yet.
    pub fn new(alloc: Global) -> List<T>
        ensures { result ≡ [] }
    {
        List {
            items: Vec::new(alloc),
        }
    }

    /// The items of a `Vec`, moved.
    pub fn of_vec(items: Vec<T>) -> List<T>
        ensures { result ≡ items.items }
    {
        List { items }
    }

    /// The items as a `Vec`, moved.
    pub fn into_vec(self) -> Vec<T>
        ensures { result.items ≡ self }
    {
        let List { items } = self;
        items
    }

    /// The items, lent.
    pub fn as_slice(&self) -> &[T]
        ensures { result.now ≡ self.now }
    {
        self.items.as_slice()
    }

    /// The items, lent to be changed.
    pub fn as_mut_slice(&mut self) -> &mut [T]
        ensures* writes_back { sem 𝓛 (Lends (the_row T.row) (Array T.row 0) self.entry result (with_items self.entry.now)) }
        ensures value { result.now ≡ self.old }
    {
        self.items.as_mut_slice()
    }

    /// The number of items.
    pub fn len(&self) -> usize
        ensures { result ≡ length self.now }
    {
        self.items.len()
    }
}

impl<T: Drop> List<T> {
    /// Puts `item` at the end. Out of memory, `item` is dropped and the list stays.
    pub fn push(&mut self, item: T) -> Result<(), NoMemory>
        ensures ok { OnOk result (self.new ≡ self.old ++ item ∷ []) }
        ensures err { OnErr result (self.new ≡ self.old) }
    {
        Ok(self.items.push(item)?)
    }

    /// Moves the items of `other` behind those of this list. Out of memory, both stay.
    pub fn append(&mut self, other: &mut List<T>) -> Result<(), NoMemory>
        ensures ok { OnOk result (self.new ≡ self.old ++ other.old) }
        ensures emptied { OnOk result (other.new ≡ []) }
        ensures err { OnErr result (self.new ≡ self.old) }
        ensures kept { OnErr result (other.new ≡ other.old) }
    {
        Ok(self.items.append(&mut other.items)?)
    }
}

impl<T: Copy> List<T> {
    /// Copies `items` behind those of this list. Out of memory, the list stays.
    pub fn extend_from_slice(&mut self, items: &[T]) -> Result<(), NoMemory>
        ensures ok { OnOk result (self.new ≡ self.old ++ items.now) }
        ensures err { OnErr result (self.new ≡ self.old) }
    {
        Ok(self.items.extend_from_slice(items)?)
    }

    /// A copy of `items`.
    pub fn from_slice(alloc: Global, items: &[T]) -> Result<List<T>, NoMemory>
        ensures { IfOk result (λ list. list ≡ items.now) }
    {
        Ok(List {
            items: Vec::from_slice(alloc, items)?,
        })
    }
}
