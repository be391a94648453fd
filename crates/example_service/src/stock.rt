//! What is in stock.

use std::alloc::{AllocError, Global};
use tracing_tree_core::text::Text;

#[derive(Drop)]
struct Item {
    name: Text,
    count: u64,
}

/// How many there are of each item.
#[derive(Drop)]
pub struct Stock {
    alloc: Global,
    items: Vec<Item>,
}

impl Stock {
    /// Returns an empty stock.
    pub fn new(alloc: Global) -> Stock {
        Stock {
            alloc,
            items: Vec::new(alloc),
        }
    }

    /// Returns how many there are of an item.
    pub fn count(&self, name: &str) -> u64 {
        let found = self
            .items
            .as_slice()
            .iter()
            .find(|item| item.name.as_str() == name);
        found.map_or(0, |item| item.count)
    }

    /// Sets how many of an item are kept.
    pub fn set(&mut self, name: &str, count: u64) -> Result<(), AllocError> {
        for item in &mut self.items {
            if item.name.as_str() == name {
                item.count = count;
                return Ok(());
            }
        }
        let name = Text::from_str(self.alloc, name)?;
        self.items.push(Item { name, count })?;
        Ok(())
    }
}
