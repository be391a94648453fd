//! The numbers of keys.

ghost use Rattle.std.specs.Prelude.{◌≡◌, [], IfOk, OnOk, length};
ghost use Rattle.ttree_chrome.specs.Keys.{found_key, key_added, key_number, with_key};

use std::alloc::{AllocError, Global};
use std::collections::BTreeMap;
use std::marker::Model;

// The numbers of keys, counted from 0 in order of appearance.
#[derive(Drop)]
pub(crate) struct Keys {
    alloc: Global,
    entries: BTreeMap<Vec<u8>, u64>,
}

impl Model for Keys {
    ghost use Rattle.std.specs.Prelude.{ℕ, List};
    ghost use Rattle.ttree_chrome.specs.Keys.{by_bytes};

    ghost Value = { List (List ℕ × ℕ) };

    ghost view = { λ k. by_bytes k.entries.entries };
}

impl Keys {
    pub(crate) fn new(alloc: Global) -> Keys
        ensures { result ≡ [] }
    {
        Keys {
            alloc,
            entries: BTreeMap::new(alloc),
        }
    }

    // Returns the number of a key. A new one gets a new number.
    pub(crate) fn take(&mut self, key: &str) -> Result<u64, AllocError>
        ensures number { IfOk result (λ number. number ≡ key_number key.now self.old) }
        ensures keys { OnOk result (self.new ≡ with_key key.now self.old) }
    {
        if let Some(number) = self.found(key.as_bytes()) {
            return Ok(number);
        }
        let number = self.count();
        self.put(key.as_bytes().to_vec(self.alloc)?, number)?;
        Ok(number)
    }

    pub(crate) fn found(&self, key: &[u8]) -> Option<u64>
        ensures { result ≡ found_key key.now self.now }
    {
        self.entries.get(key).copied()
    }

    fn count(&self) -> u64
        ensures { result ≡ length self.now }
    {
        self.entries.len() as u64
    }

    fn put(&mut self, key: Vec<u8>, number: u64) -> Result<(), AllocError>
        ensures { OnOk result (self.new ≡ key_added key.items number self.old) }
    {
        self.entries.insert(key, number)?;
        Ok(())
    }
}
