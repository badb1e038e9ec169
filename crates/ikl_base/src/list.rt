// Lists of values, which grow where there is memory for it.
ghost use Rattle.std.specs.Prelude.{◌≡◌, List, ℕ, length, slice_get, OnOk, OnErr, ◌++◌, ◌∷◌, []};
ghost use Rattle.std.specs.Option.{option_copied};

use crate::duplicate::Duplicate;
use crate::fault::NoMemory;
use std::alloc::Global;
use std::marker::Model;

/// A list of values, which contracts see as a list.
#[derive(Debug, Drop)]
pub struct ListOf<T> {
    items: Vec<T>,
}

impl<T> Model for ListOf<T> {
    ghost Value = { List T };

    ghost view = { λ l. l.items.items };
}

impl<T> ListOf<T> {
    /// No items.
    pub fn new(alloc: Global) -> Self
        ensures { result ≡ [] }
    {
        ListOf {
            items: Vec::new(alloc),
        }
    }

    pub fn from_items(items: Vec<T>) -> Self
        ensures { result ≡ items.items }
    {
        ListOf { items }
    }

    pub fn len(&self) -> usize
        ensures { result ≡ length self.now }
    {
        self.items.len()
    }

    pub fn get(&self, i: usize) -> Option<&T>
        ensures { option_copied result ≡ slice_get self.now i }
    {
        self.items.get(i)
    }

    pub fn as_slice(&self) -> &[T]
        ensures { result.now ≡ self.now }
    {
        &self.items
    }

    pub fn into_items(self) -> Vec<T>
        ensures { result.items ≡ self }
    {
        self.items
    }
}

impl<T: Drop> ListOf<T> {
    pub fn push(&mut self, x: T) -> Result<(), NoMemory>
        ensures ok { OnOk result (self.new ≡ self.old ++ x ∷ []) }
        ensures err { OnErr result (self.new ≡ self.old) }
    {
        Ok(self.items.push(x)?)
    }

    /// Adds the items of another list at the end: all, or none for want of memory.
    pub fn append(&mut self, more: ListOf<T>) -> Result<(), NoMemory>
        ensures ok { OnOk result (self.new ≡ self.old ++ more) }
        ensures err { OnErr result (self.new ≡ self.old) }
    {
        if let [] = self.items.as_slice() {
            *self = more;
            return Ok(());
        }
        let mut added = more.into_items();
        Ok(self.items.append(&mut added)?)
    }
}

impl<T: Duplicate> Duplicate for ListOf<T> {
    fn copy(&self) -> Result<ListOf<T>, NoMemory> {
        let mut items = Vec::new(*self.items.allocator());
        for item in &self.items {
            items.push(item.copy()?)?;
        }
        Ok(ListOf { items })
    }
}
