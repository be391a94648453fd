//! The context of a call, and why a call may be refused.

use crate::text::Text;
use jiff::Timestamp;
use std::alloc::{AllocError, AllocFailed};
use thiserror::Error;

/// The number of a span. Ids rise by one and are never reused, except for an id that is taken back.
#[derive(Clone, Copy, Debug, PartialEq, Eq, PartialOrd, Ord, Hash)]
pub struct Id(pub u64);

/// A moment on two clocks.
#[derive(Clone, Copy, Debug, PartialEq, Eq)]
pub struct Moment {
    /// The monotonic clock, in nanoseconds.
    pub mono: u64,

    /// The wall clock.
    pub wall: Timestamp,
}

/// A call's context, which the caller passes. The library doesn't read it from the system.
#[derive(Debug, Drop, PartialEq, Eq)]
pub struct Context {
    /// The current span. For an event, an id that isn't live counts as `None`.
    pub current: Option<Id>,

    /// The number of the thread, for the prefix of each line.
    pub thread_id: u64,

    /// The name of the thread, if it has one. An empty name is a name.
    pub thread_name: Option<Text>,

    /// The time of the call.
    pub moment: Moment,
}

/// Why a call was refused. After the first four causes, and after `Failed`, nothing has changed.
#[derive(Clone, Copy, Debug, PartialEq, Eq, Error)]
pub enum Refusal {
    /// The span isn't live although the call needs a live one, or it has no handle left to close.
    #[error("not held {}", .0.0)]
    NotHeld(Id),

    /// A row of this call is too wide: the level used (after the wraparound) times the amount
    /// exceeds `usize::MAX` columns.
    #[error("too wide")]
    TooWide,

    /// All ids are used, or a span can't have more handles.
    #[error("too many")]
    TooMany,

    /// An allocation failed.
    #[error("memory")]
    Memory,

    /// The timer can't show this moment or elapsed time.
    #[error("timer")]
    Timer,

    /// The writer refused a write of this call's output.
    #[error("writer")]
    Writer,

    /// An earlier call was refused for the timer or the writer.
    #[error("failed")]
    Failed,
}

impl From<AllocError> for Refusal {
    ghost use Rattle.std.specs.Prelude.{◌≡◌};
    ghost use Rattle.tracing_tree_base.specs.declared.context.Refusal.TheVariants.{Memory};

    ghost from_gives = { λ _ refusal. refusal ≡ Memory };

    fn from(_error: AllocError) -> Refusal {
        Refusal::Memory
    }
}

impl<T: Drop> From<AllocFailed<T>> for Refusal {
    ghost use Rattle.std.specs.Prelude.{◌≡◌};
    ghost use Rattle.tracing_tree_base.specs.declared.context.Refusal.TheVariants.{Memory};

    ghost from_gives = { λ _ refusal. refusal ≡ Memory };

    fn from(_error: AllocFailed<T>) -> Refusal {
        Refusal::Memory
    }
}
