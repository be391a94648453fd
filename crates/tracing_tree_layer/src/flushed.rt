//! Receivers that were flushed.

ghost use Rattle.std.specs.Prelude.{◌≡◌};
ghost use Rattle.tracing_tree_layer.specs.Flushed.{WasFlushed};

use crate::calls::Calls;

/// A receiver that was flushed, and got no call since.
///
/// A function that may wait takes one. So a reader of the receiver's output sees what was drawn
/// before the wait.
#[derive(Drop)]
pub struct Flushed<'a, C: Calls> {
    /// The receiver.
    pub receiver: &'a mut C,

    ghost shown: { ∥ WasFlushed C.flushes receiver.now ∥₁ },
}

impl<'a, C: Calls> Flushed<'a, C> {
    /// Flushes a receiver.
    pub fn new(receiver: &'a mut C) -> Flushed<'a, C>
        ensures same { result.receiver.ghost_name ≡ receiver.entry.ghost_name }
        ensures flushed { C.flushes receiver.old result.receiver.now }
    {
        receiver.flush();
        Flushed { receiver }
    }
}
