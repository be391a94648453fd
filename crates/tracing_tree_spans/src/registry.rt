//! Spans: their attributes, the registry of live spans, and access to them.

ghost use Rattle.std.specs.Prelude.{◌≡◌};
ghost use Rattle.tracing_tree_spans.specs.Registry.Forest.{named_parent};

mod branches;
pub mod lookup;
pub mod node;
mod nodes;
mod path;
pub mod paths;
pub mod prefix;
mod slot;
pub mod spans;
pub mod walked;

pub use lookup::LookupSpan;
pub use node::{Data, SpanRef};
pub use paths::common;
pub use prefix::Common;
pub use spans::Registry;
use tracing_tree_base::field::Fields;
use tracing_tree_base::style::Level;
use tracing_tree_base::text::Text;
pub use tracing_tree_base::{Context, Id};
pub use walked::Walked;

/// The parent that a new span or an event names.
#[derive(Clone, Copy, Debug, PartialEq, Eq)]
pub enum Parent {
    /// A root: no parent.
    Root,

    /// The current span, if there is one.
    Current,

    /// This span, current or not.
    Of(Id),
}

impl Parent {
    /// Returns the parent's id, given the current span. The parent may not be live.
    pub fn named(self, current: Option<Id>) -> Option<Id>
        ensures { result ≡ named_parent self current }
    {
        match self {
            Parent::Root => None,
            Parent::Current => current,
            Parent::Of(id) => Some(id),
        }
    }
}

/// The parts of a new span.
#[derive(Debug, Drop, PartialEq, Eq)]
pub struct Attributes {
    pub name: Text,
    pub target: Text,
    pub parent: Parent,
    pub fields: Fields,
}

/// Fields that are recorded later.
#[derive(Debug, Drop, PartialEq, Eq)]
pub struct Record {
    pub fields: Fields,
}

/// An event.
#[derive(Debug, Drop, PartialEq, Eq)]
pub struct Event {
    pub level: Level,
    pub target: Text,
    pub parent: Parent,
    pub fields: Fields,
}
