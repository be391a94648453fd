//! A thread that makes random calls.

use crate::receiver::Receiver;
use rand_core::utils::NextWord;
use rand_pcg::Pcg32;
use std::alloc::{AllocError, Global};
use std::sync::Wait;
use std::thread;
use test_support::Step;
use tracing_tree::call::{Call, Reply};
use tracing_tree::format::Refusal;
use tracing_tree::registry::Parent;
use tracing_tree::style::Level;
use tracing_tree_shared::{Draft, Receipt, Refused};

// How often a draft is submitted that is refused because memory ran out.
const TRIES: u64 = 8;

/// An accepted call, with its place among all accepted calls, and its reply. A call is boxed, since
/// each step of what moves it is proved over all that it holds.
#[derive(Drop)]
pub struct Emitted {
    pub place: usize,
    pub call: Box<Call>,
    pub reply: Reply,
}

/// What one thread did.
#[derive(Drop)]
pub struct Caller {
    alloc: Global,
    random: Pcg32,
    thread: u64,
    pub emitted: Vec<Emitted>,
    pub calls: u64,
    pub refused: u64,
    pub unmade: u64,
}

impl Caller {
    /// Nothing was done yet.
    pub fn new(alloc: Global, random: Pcg32, thread: u64) -> Caller {
        Caller {
            alloc,
            random,
            thread,
            emitted: Vec::new(alloc),
            calls: 0,
            refused: 0,
            unmade: 0,
        }
    }

    /// Makes up to forty calls.
    pub fn run<R: Wait, D: Receiver>(&mut self, rt: &R, receiver: &mut D) {
        for _ in 0..self.random.next_word() % 40 {
            if self.turn(rt, receiver).is_err() {
                self.unmade = self.unmade.saturating_add(1);
            }
        }
    }

    // Makes a call, and stores it if it is accepted. On an `Err` it was not submitted.
    fn turn<R: Wait, D: Receiver>(&mut self, rt: &R, receiver: &mut D) -> Result<(), Refusal> {
        let call = Box::new(self.alloc, self.call()?)?;
        let kept = copied(self.alloc, &call)?;
        self.emitted.reserve(1)?;
        let draft = drafted(self.alloc, receiver, call)?;
        if self.random.next_word() % 4 == 0 {
            thread::yield_now();
        }
        self.calls = self.calls.saturating_add(1);
        match handed_in(rt, receiver, draft) {
            Ok((place, reply)) => self.emitted.push(Emitted {
                place,
                call: kept,
                reply,
            })?,
            Err(_) => self.refused = self.refused.saturating_add(1),
        }
        Ok(())
    }

    // Returns a random call that no other thread makes, except for calls that name no thread.
    fn call(&mut self) -> Result<Call, AllocError> {
        let mut call = self.step().call(self.alloc)?;
        match &mut call {
            Call::New(_, context) | Call::Event(_, context) | Call::Close(_, context) => {
                context.thread_id = self.thread;
                context.moment.mono = self.calls;
            }
            Call::Clone(_) | Call::Record(_, _) => {}
        }
        Ok(call)
    }

    fn step(&mut self) -> Step<'static> {
        let id = self.any_id();
        match self.random.next_word() % 16 {
            0 => Step::New("root", None),
            1..=3 => Step::New("span", Some(id)),
            4 => Step::NewIn("root", Parent::Root, Some(id)),
            5..=6 => Step::Event(Level::Debug, "two\nlines", Some(id)),
            7..=8 => Step::Event(Level::Warn, "something happened", Some(id)),
            9 => Step::Event(Level::Info, "outside", None),
            10 => Step::EventIn("elsewhere", Parent::Root, Some(id)),
            11 => Step::Record(id, "1"),
            12 => Step::Clone(id),
            _ => Step::Close(id),
        }
    }

    // Mostly returns a span of this thread, otherwise one of any thread, or an id that isn't used.
    fn any_id(&mut self) -> u64 {
        let word = self.random.next_word();
        if word % 32 == 0 {
            return u64::MAX;
        }
        let place = self.random.next_word() as usize;
        let at = place.checked_rem(self.emitted.len()).unwrap_or(0);
        match self.emitted.get(at) {
            Some(
                Emitted {
                    reply: Reply::Span(id),
                    ..
                },
            ) => id.0,
            _ => u64::from(word % 24) + 1,
        }
    }

    /// Returns whether the places of the calls rise.
    pub fn is_in_order(&self) -> bool {
        let mut next = 0;
        for emitted in &self.emitted {
            if emitted.place < next {
                return false;
            }
            next = emitted.place.saturating_add(1);
        }
        true
    }

    /// Returns whether these are the receipts of the accepted calls, each in its turn.
    pub fn has(&self, receipts: &[Receipt]) -> bool {
        receipts.len() == self.emitted.len()
            && receipts.iter().zip(&self.emitted).all(|(receipt, emitted)| {
                receipt.place() == emitted.place
                    && *receipt.call() == *emitted.call
                    && receipt.reply() == emitted.reply
            })
    }
}

fn copied(alloc: Global, call: &Call) -> Result<Box<Call>, AllocError> {
    Ok(Box::new(alloc, call.copied()?)?)
}

fn drafted<D: Receiver>(
    alloc: Global,
    receiver: &D,
    call: Box<Call>,
) -> Result<Box<Draft>, Refusal> {
    let draft = receiver.draft(alloc, Box::into_inner(call))?;
    Ok(Box::new(alloc, draft)?)
}

// Submits a draft. If it is refused because memory ran out, it is submitted again.
fn handed_in<R: Wait, D: Receiver>(
    rt: &R,
    receiver: &mut D,
    draft: Box<Draft>,
) -> Result<(usize, Reply), Refused> {
    let mut answer = receiver.submit(rt, Box::into_inner(draft));
    for _ in 1..TRIES {
        match answer {
            Err(
                Refused {
                    draft,
                    cause: Refusal::Memory,
                },
            ) => answer = receiver.submit(rt, draft),
            answered => return answered,
        }
    }
    answer
}
