//! Entries, at most so many.

ghost use Rattle.std.specs.Prelude.{◌≡◌, ◌<◌, ◌↔◌, List, ℕ, None, Some, Err, IsTrue, IsSome, OnOk, OnErr, IfSome, IfNone};
ghost use Rattle.resp.specs.Stored.{IsFull, MayHold, Same, SetsValue, held, value_in};

use std::alloc::Global;
use std::collections::HashMap;

/// Entries, at most so many.
#[derive(Drop)]
pub struct Store {
    map: HashMap<Vec<u8>, Vec<u8>>,
    most: usize,
}

/// Why an entry was not taken.
#[derive(Clone, Copy, PartialEq, Eq, Debug)]
pub enum Full {
    /// There are as many entries as there may be.
    Entries,
    /// Memory was refused.
    Memory,
}

impl Store {
    /// An empty store of at most so many entries.
    pub fn new(alloc: Global, most: usize) -> Store
        ensures none { (key : List ℕ) → (held result).value key ≡ None }
        ensures count { (held result).count ≡ 0 }
        ensures most { (held result).most ≡ most }
    {
        Store {
            map: HashMap::new(alloc),
            most,
        }
    }

    /// How many entries there are.
    pub fn len(&self) -> usize
        ensures { result ≡ (held self.now).count }
    {
        self.map.len()
    }

    /// The value at a key.
    pub fn get(&self, key: &[u8]) -> Option<&[u8]>
        ensures some { IfSome result (λ value. value_in self.now.map key.now ≡ Some value.now) }
        ensures none { IfNone result (value_in self.now.map key.now ≡ None) }
    {
        match self.map.get(key) {
            Some(value) => Some(value.as_slice()),
            None => None,
        }
    }

    /// Puts a value at a key. An `Err` changes nothing.
    pub fn set(&mut self, alloc: Global, key: &[u8], value: &[u8]) -> Result<(), Full>
        ensures put { OnOk result (SetsValue key.now (Some value.now) (held self.old) (held self.new)) }
        ensures room { OnOk result (MayHold key.now (held self.old)) }
        ensures same { OnErr result (Same (held self.old) (held self.new)) }
        ensures full { result ≡ Err Full.Entries → IsFull key.now (held self.old) }
        ensures memory { result ≡ Err Full.Memory → MayHold key.now (held self.old) }
    {
        if self.map.len() >= self.most && !self.map.contains_key(key) {
            return Err(Full::Entries);
        }
        let Ok(key) = Vec::from_slice(alloc, key) else {
            return Err(Full::Memory);
        };
        let Ok(value) = Vec::from_slice(alloc, value) else {
            return Err(Full::Memory);
        };
        match self.map.insert(key, value) {
            Ok(_) => Ok(()),
            Err(_) => Err(Full::Memory),
        }
    }

    /// Takes a key out, and says whether it was there.
    pub fn del(&mut self, key: &[u8]) -> bool
        ensures was { IsTrue result ↔ IsSome (value_in self.old.map key.now) }
        ensures put { SetsValue key.now None (held self.old) (held self.new) }
    {
        self.map.remove(key).is_some()
    }
}
