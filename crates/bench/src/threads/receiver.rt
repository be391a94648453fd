//! The receivers of events.

use super::hand::Hand;
use std::alloc::Global;
use std::sync::ledger::Ledger;
use std::sync::{Mutex, Wait};
use tracing_tree::Layered;
use tracing_tree::call::Call;
use tracing_tree::format::{Config, Refusal, Tape};
use tracing_tree_shared::{Counted, Draft, Pass, SharedLayer, StreamingLayer};

pub trait Receiver {
    // Returns an event as it will be passed: a draft, if drafts are made before the time is taken.
    fn hand(&self, _alloc: Global, call: Call) -> Result<Hand, Refusal> {
        Ok(Hand::Call(call))
    }

    // Whether the event is accepted.
    fn emit<R: Wait>(&mut self, rt: &R, alloc: Global, hand: Hand) -> bool;
}

#[derive(Drop)]
pub struct Nowhere;

impl Receiver for Nowhere {
    fn emit<R: Wait>(&mut self, _rt: &R, _alloc: Global, _hand: Hand) -> bool {
        true
    }
}

#[derive(Drop)]
pub struct Alone {
    pub layered: Layered<Tape, ()>,
}

impl Receiver for Alone {
    fn emit<R: Wait>(&mut self, _rt: &R, _alloc: Global, hand: Hand) -> bool {
        match hand {
            Hand::Call(call) => self.layered.call(call).is_ok(),
            Hand::Draft(_) => false,
        }
    }
}

#[derive(Drop)]
pub struct Locked<'a> {
    pub lock: &'a Mutex<Layered<Tape, ()>>,
}

impl Receiver for Locked<'_> {
    fn emit<R: Wait>(&mut self, rt: &R, _alloc: Global, hand: Hand) -> bool {
        match hand {
            Hand::Call(call) => self.lock.lock(rt).call(call).is_ok(),
            Hand::Draft(_) => false,
        }
    }
}

#[derive(Drop)]
pub struct WithPass<'a, L: Ledger> {
    pub layer: &'a SharedLayer<(), L>,
    pub pass: Pass<L>,
    pub drafts: bool,
}

impl<L: Ledger> Receiver for WithPass<'_, L> {
    fn hand(&self, alloc: Global, call: Call) -> Result<Hand, Refusal> {
        if self.drafts {
            Ok(Hand::Draft(self.layer.draft(alloc, call)?))
        } else {
            Ok(Hand::Call(call))
        }
    }

    fn emit<R: Wait>(&mut self, rt: &R, alloc: Global, hand: Hand) -> bool {
        let draft = match hand {
            Hand::Call(call) => self.layer.draft(alloc, call),
            Hand::Draft(draft) => Ok(draft),
        };
        match draft {
            Ok(draft) => self.layer.submit(rt, &mut self.pass, draft).is_ok(),
            Err(_) => false,
        }
    }
}

#[derive(Drop)]
pub struct Streamed<'a> {
    pub layer: &'a StreamingLayer<Tape, ()>,
    pub drafts: bool,
}

impl Receiver for Streamed<'_> {
    fn hand(&self, alloc: Global, call: Call) -> Result<Hand, Refusal> {
        if self.drafts {
            Ok(Hand::Draft(self.layer.draft(alloc, call)?))
        } else {
            Ok(Hand::Call(call))
        }
    }

    fn emit<R: Wait>(&mut self, rt: &R, alloc: Global, hand: Hand) -> bool {
        let draft = match hand {
            Hand::Call(call) => self.layer.draft(alloc, call),
            Hand::Draft(draft) => Ok(draft),
        };
        match draft {
            Ok(draft) => self.layer.submit(rt, draft).is_ok(),
            Err(_) => false,
        }
    }
}

#[derive(Drop)]
pub struct UnderLock {
    pub counted: Counted<Tape, ()>,
    // The settings of the drafts.
    pub config: Config,
}

impl Receiver for UnderLock {
    fn hand(&self, alloc: Global, call: Call) -> Result<Hand, Refusal> {
        Ok(Hand::Draft(Draft::new(alloc, &self.config, call)?))
    }

    fn emit<R: Wait>(&mut self, _rt: &R, _alloc: Global, hand: Hand) -> bool {
        match hand {
            Hand::Draft(draft) => self.counted.apply(draft).is_ok(),
            Hand::Call(_) => false,
        }
    }
}
