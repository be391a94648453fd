//! The timed works, and the events that are passed.

use std::alloc::{AllocError, Global};
use test_support::at;
use tracing_tree::call::Call;
use tracing_tree::field::{Field, Fields};
use tracing_tree::registry::{Event, Parent};
use tracing_tree::style::Level;
use tracing_tree::text::Text;
use tracing_tree_shared::Draft;

#[derive(Clone, Copy, PartialEq, Eq)]
pub enum Work {
    // The events are made and dropped.
    Idle,

    // One thread with a separate layer.
    Alone,

    // Threads with a lock round a layer: an event is drawn under the lock.
    Locked,

    // Threads with a layer that keeps the history.
    Shared,

    // Like `Shared`, but the drafts are made before.
    SharedDrafted,

    // Threads with a layer that keeps no history.
    Streaming,

    // Like `Streaming`, but the drafts are made before.
    StreamingDrafted,

    // What a layer without a history does under its lock, with drafts that were made before.
    Counted,

    // Like `Counted`, but drafted with other settings, so each event is drawn again.
    CountedAnew,
}

impl Work {
    pub const ALL: [Work; 9] = [
        Work::Idle,
        Work::Alone,
        Work::Locked,
        Work::Shared,
        Work::SharedDrafted,
        Work::Streaming,
        Work::StreamingDrafted,
        Work::Counted,
        Work::CountedAnew,
    ];

    pub fn name(self) -> &'static str {
        match self {
            Work::Idle => "idle",
            Work::Alone => "alone",
            Work::Locked => "locked",
            Work::Shared => "shared",
            Work::SharedDrafted => "shared-drafted",
            Work::Streaming => "streaming",
            Work::StreamingDrafted => "streaming-drafted",
            Work::Counted => "counted",
            Work::CountedAnew => "counted-anew",
        }
    }

    pub fn named(name: &str) -> Option<Work> {
        Work::ALL.iter().copied().find(|work| work.name() == name)
    }
}

// A call, or its draft that was made before.
#[derive(Drop)]
pub enum Hand {
    Call(Call),
    Draft(Draft),
}

// Returns an event in span 1 with `count` fields. The first is the message.
pub fn event(alloc: Global, count: usize) -> Result<Call, AllocError> {
    let mut fields = vec![in alloc; Field::rendered(alloc, "message", "something happened")?]?;
    for _ in 1..count {
        fields.push(Field::rendered(alloc, "key", "12")?)?;
    }
    let event = Event {
        level: Level::Info,
        target: Text::from_str(alloc, "bench")?,
        parent: Parent::Current,
        fields: Fields::from(fields),
    };
    Ok(Call::Event(event, at(Some(1))))
}
