//! The receivers of a thread's calls.

use std::alloc::Global;
use std::sync::Wait;
use std::sync::ledger::Ledger;
use tracing_tree::call::{Call, Reply};
use tracing_tree::format::{Refusal, Tape};
use tracing_tree_shared::{Draft, Pass, Refused, SharedLayer, StreamingLayer};

/// A layer of several threads, as one of them has it.
pub trait Receiver {
    fn draft(&self, alloc: Global, call: Call) -> Result<Draft, Refusal>;

    /// The place of the call among all that were accepted, and its reply.
    fn submit<R: Wait>(&mut self, rt: &R, draft: Draft) -> Result<(usize, Reply), Refused>;
}

/// A layer with a history, and the thread's pass.
#[derive(Drop)]
pub struct WithPass<'a, L: Ledger> {
    pub layer: &'a SharedLayer<(), L>,
    pub pass: &'a mut Pass<L>,
}

impl<L: Ledger> Receiver for WithPass<'_, L> {
    fn draft(&self, alloc: Global, call: Call) -> Result<Draft, Refusal> {
        self.layer.draft(alloc, call)
    }

    fn submit<R: Wait>(&mut self, rt: &R, draft: Draft) -> Result<(usize, Reply), Refused> {
        let reply = self.layer.submit(rt, self.pass, draft)?;
        let place = match self.pass.receipts().last() {
            Some(receipt) => receipt.place(),
            None => usize::MAX,
        };
        Ok((place, reply))
    }
}

/// A layer without a history.
#[derive(Drop)]
pub struct Streamed<'a> {
    pub layer: &'a StreamingLayer<Tape, ()>,
}

impl Receiver for Streamed<'_> {
    fn draft(&self, alloc: Global, call: Call) -> Result<Draft, Refusal> {
        self.layer.draft(alloc, call)
    }

    fn submit<R: Wait>(&mut self, rt: &R, draft: Draft) -> Result<(usize, Reply), Refused> {
        let numbered = self.layer.submit(rt, draft)?;
        Ok((numbered.number as usize, numbered.reply))
    }
}
