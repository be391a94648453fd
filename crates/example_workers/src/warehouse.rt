//! What the workers share.

use std::alloc::{AllocError, Global};
use std::collections::VecDeque;

// How many orders there are, and how many pieces are in stock.
const ORDERS: u64 = 12;

const STOCK: u64 = 40;

// The order that needs more pieces than there ever were.
const LARGE: u64 = 7;

/// An order, and how many pieces must be packed for it.
#[derive(Clone, Copy)]
pub struct Order {
    pub id: u64,
    pub pieces: u64,
}

/// The orders that nobody took yet, and the pieces that are left.
#[derive(Drop)]
pub struct Warehouse {
    queue: VecDeque<Order>,
    stock: u64,
}

impl Warehouse {
    /// Opens a warehouse whose orders all wait.
    pub fn open(alloc: Global) -> Result<Warehouse, AllocError> {
        let mut queue = VecDeque::new(alloc);
        for id in 1..=ORDERS {
            let pieces = if id == LARGE { STOCK + 1 } else { id % 3 + 1 };
            queue.push_back(Order { id, pieces })?;
        }
        Ok(Warehouse {
            queue,
            stock: STOCK,
        })
    }

    /// Returns the order that has waited longest, and removes it from the queue.
    pub fn next_order(&mut self) -> Option<Order> {
        self.queue.pop_front()
    }

    /// Takes pieces, and returns how many are left. Without enough of them the stock stays.
    pub fn take(&mut self, pieces: u64) -> Option<u64> {
        self.stock = self.stock.checked_sub(pieces)?;
        Some(self.stock)
    }
}
