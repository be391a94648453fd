//! Events as the caller stores them.

mod texts;

ghost use Rattle.std.specs.Prelude.{◌≡◌, ◌++◌, IfOk, OnOk, string_bytes};
ghost use Rattle.tracing_tree_drawing.specs.Format.Texts.{event_fields};
ghost use Rattle.tracing_tree_spans.specs.declared.registry.Event.{Event};

use std::alloc::{AllocError, Global};
pub use texts::{EventTexts, FieldTexts};
use tracing_tree_base::style::Level;
use tracing_tree_drawing::format::push_event_field;
use tracing_tree_spans::registry::{Event, Parent};

/// An event in the caller's form. The registry stores no part of an event, so its strings are drawn
/// from the caller's memory, without a copy.
pub trait EventParts {
    /// The event.
    ghost whole: { Self → Event };

    /// Returns its level.
    fn level(&self) -> Level
        ensures { result ≡ (whole self.now).level };

    /// Returns its target.
    fn target(&self) -> &str
        ensures { result.now ≡ (whole self.now).target };

    /// Returns its parent.
    fn parent(&self) -> Parent
        ensures { result ≡ (whole self.now).parent };

    /// Appends its fields as an event shows them, with a space before the first.
    ///
    /// # Errors
    ///
    /// `AllocError` if an allocation fails. A part of them may be in `out` then.
    fn push_fields(&self, out: &mut String) -> Result<(), AllocError>
        ensures { OnOk result (string_bytes out.new
            ≡ string_bytes out.old ++ event_fields (whole self.now).fields) };

    /// Returns a copy with separate strings, for a receiver that has to store it.
    ///
    /// # Errors
    ///
    /// `AllocError` if an allocation fails.
    fn to_event(&self, alloc: Global) -> Result<Event, AllocError>
        ensures { IfOk result (λ event. event ≡ whole self.now) };
}

impl EventParts for Event {
    ghost whole = { λ event. event };

    fn level(&self) -> Level {
        self.level
    }

    fn target(&self) -> &str {
        self.target.as_str()
    }

    fn parent(&self) -> Parent {
        self.parent
    }

    fn push_fields(&self, out: &mut String) -> Result<(), AllocError> {
        let mut comma = false;
        for field in self.fields.as_slice() {
            push_event_field(out, &mut comma, field)?;
        }
        Ok(())
    }

    fn to_event(&self, _alloc: Global) -> Result<Event, AllocError> {
        Ok(Event {
            level: self.level,
            target: self.target.clone()?,
            parent: self.parent,
            fields: self.fields.clone()?,
        })
    }
}
