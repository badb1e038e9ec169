// Octets and names.
ghost use Rattle.std.specs.Prelude.{◌≡◌, List, ℕ, IfOk, []};

use crate::duplicate::Duplicate;
use crate::fault::NoMemory;
use std::alloc::Global;
use std::marker::Model;

/// A list of octets, which contracts see as a list of numbers.
#[derive(Debug, Drop)]
pub struct Octets {
    items: Vec<u8>,
}

impl Model for Octets {
    ghost Value = { List ℕ };

    ghost view = { λ o. o.items.items };
}

impl Octets {
    /// No octets.
    pub fn new(alloc: Global) -> Octets
        ensures { result ≡ [] }
    {
        Octets {
            items: Vec::new(alloc),
        }
    }

    pub fn from_slice(alloc: Global, s: &[u8]) -> Result<Octets, NoMemory>
        ensures { IfOk result (λ o. o ≡ s.now) }
    {
        Ok(Octets {
            items: Vec::from_slice(alloc, s)?,
        })
    }

    pub fn from_items(items: Vec<u8>) -> Octets
        ensures { result ≡ items.items }
    {
        Octets { items }
    }

    pub fn as_slice(&self) -> &[u8]
        ensures { result.now ≡ self.now }
    {
        &self.items
    }

    pub fn into_items(self) -> Vec<u8>
        ensures { result.items ≡ self }
    {
        self.items
    }
}

impl Duplicate for Octets {
    fn copy(&self) -> Result<Octets, NoMemory> {
        Ok(Octets {
            items: self.items.clone()?,
        })
    }
}

/// A name, as the octets of its spelling.
#[derive(Debug, Drop)]
pub struct Name {
    items: Vec<u8>,
}

impl Model for Name {
    ghost Value = { List ℕ };

    ghost view = { λ o. o.items.items };
}

impl Name {
    pub fn from_slice(alloc: Global, s: &[u8]) -> Result<Name, NoMemory>
        ensures { IfOk result (λ o. o ≡ s.now) }
    {
        Ok(Name {
            items: Vec::from_slice(alloc, s)?,
        })
    }

    pub fn as_slice(&self) -> &[u8]
        ensures { result.now ≡ self.now }
    {
        &self.items
    }
}

impl Duplicate for Name {
    fn copy(&self) -> Result<Name, NoMemory> {
        Ok(Name {
            items: self.items.clone()?,
        })
    }
}
