//! The outcomes of acts, and their statuses.

ghost use Rattle.std.specs.Prelude.{◌≡◌};
ghost use Rattle.tracing_tree_c.specs.Exports.{id_after, opening_status, refusal_status, status_of, went_after};

use crate::foreign::Unreadable;
use tracing_tree_base::Refusal;
use tracing_tree_layer::call::Reply;

/// The outcome of a call.
#[derive(Clone, Copy, Debug, PartialEq, Eq)]
pub enum Outcome {
    /// There isn't a tree.
    Missing,

    /// A value that C passed could not be read.
    NotRead(Unreadable),

    /// The call was accepted or refused.
    Answered(Result<Reply, Refusal>),
}

impl Outcome {
    /// Returns the status of an outcome: 0 if a call was accepted.
    pub fn status(self) -> u32
        ensures { result ≡ status_of self }
    {
        match self {
            Outcome::Missing => 7,
            Outcome::NotRead(Unreadable::NotUtf8) => 8,
            Outcome::NotRead(Unreadable::Unknown) => 9,
            Outcome::NotRead(Unreadable::Starved) => 4,
            Outcome::Answered(Ok(_)) => 0,
            Outcome::Answered(Err(refusal)) => refusal_status(refusal),
        }
    }
}

fn refusal_status(refusal: Refusal) -> u32
    ensures { result ≡ refusal_status refusal }
{
    match refusal {
        Refusal::NotHeld(_) => 1,
        Refusal::TooWide => 2,
        Refusal::TooMany => 3,
        Refusal::Memory => 4,
        Refusal::Timer => 5,
        Refusal::Writer => 4,
        Refusal::Failed => 6,
    }
}

impl Outcome {
    // Returns the id of a new span, otherwise `before`.
    pub(crate) fn id_or(self, before: u64) -> u64
        ensures { result ≡ id_after self before }
    {
        match self {
            Outcome::Answered(Ok(Reply::Span(id))) => id.0,
            _ => before,
        }
    }

    // Returns whether a span was removed, or `before` if the call wasn't an accepted close.
    pub(crate) fn went_or(self, before: bool) -> bool
        ensures { result ≡ went_after self before }
    {
        match self {
            Outcome::Answered(Ok(Reply::Closed(went))) => went,
            _ => before,
        }
    }
}

/// The outcome of making a tree.
#[derive(Clone, Copy, Debug, PartialEq, Eq)]
pub enum Opening {
    /// A tree was made.
    Opened,

    /// There is a tree already.
    There,

    /// The settings struct has a different size.
    OtherSize,

    /// The settings are invalid.
    Unknown,

    /// An allocation failed.
    Starved,
}

impl Opening {
    /// Returns its status: 0 if a tree was made.
    pub fn status(self) -> u32
        ensures { result ≡ opening_status self }
    {
        match self {
            Opening::Opened => 0,
            Opening::There => 10,
            Opening::OtherSize => 11,
            Opening::Unknown => 12,
            Opening::Starved => 4,
        }
    }
}
