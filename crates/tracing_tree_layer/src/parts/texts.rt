//! Events whose strings are borrowed.

ghost use Rattle.std.specs.Prelude.{◌≡◌, IfOk};

use super::EventParts;
use std::alloc::{AllocError, Global};
use std::marker::Model;
use tracing_tree_base::field::{Field, Fields};
use tracing_tree_base::style::Level;
use tracing_tree_base::text::Text;
use tracing_tree_drawing::format::push_event_texts;
use tracing_tree_spans::registry::{Event, Parent};

/// A field whose strings the caller lends. Contracts see the field.
#[derive(Drop)]
pub struct FieldTexts<'a> {
    pub name: &'a str,
    pub value: &'a str,
}

impl<'a> Model for FieldTexts<'a> {
    ghost use Rattle.tracing_tree_base.specs.declared.field.Field.{Field};

    ghost Value = { Field };

    ghost view = { λ f. record { name = f.name.now; value = f.value.now } };
}

impl FieldTexts<'_> {
    /// Returns the field, with copies of its strings.
    ///
    /// # Errors
    ///
    /// `AllocError` if an allocation fails.
    pub fn to_field(&self, alloc: Global) -> Result<Field, AllocError>
        ensures { IfOk result (λ field. field ≡ self.now) }
    {
        Field::rendered(alloc, self.name, self.value)
    }
}

/// An event whose strings the caller lends, since no part of it is stored. Contracts see the event.
///
/// ```rust
/// let event = EventTexts {
///     level: Level::Info,
///     target: "web",
///     parent: Parent::Current,
///     fields: &[FieldTexts {
///         name: "message",
///         value: "listening",
///     }],
/// };
/// layered.event(&event, here)?;
/// ```
#[derive(Drop)]
pub struct EventTexts<'a> {
    pub level: Level,
    pub target: &'a str,
    pub parent: Parent,
    pub fields: &'a [FieldTexts<'a>],
}

impl<'a> Model for EventTexts<'a> {
    ghost use Rattle.tracing_tree_spans.specs.declared.registry.Event.{Event};

    ghost Value = { Event };

    ghost view = { λ e. record {
      level = e.level;
      target = e.target.now;
      parent = e.parent;
      fields = e.fields.now;
    } };
}

impl EventParts for EventTexts<'_> {
    ghost whole = { λ event. event };

    fn level(&self) -> Level {
        self.level
    }

    fn target(&self) -> &str {
        self.target
    }

    fn parent(&self) -> Parent {
        self.parent
    }

    fn push_fields(&self, out: &mut String) -> Result<(), AllocError> {
        let mut comma = false;
        for field in self.fields {
            push_event_texts(out, &mut comma, field.name, field.value)?;
        }
        Ok(())
    }

    fn to_event(&self, alloc: Global) -> Result<Event, AllocError> {
        Ok(Event {
            level: self.level,
            target: Text::from_str(alloc, self.target)?,
            parent: self.parent,
            fields: to_fields(alloc, self.fields)?,
        })
    }
}

// Returns these fields, with copies of their strings.
fn to_fields(alloc: Global, texts: &[FieldTexts<'_>]) -> Result<Fields, AllocError>
    ensures { IfOk result (λ fields. fields ≡ texts.now) }
{
    let mut fields = Vec::new(alloc);
    for field in texts {
        fields.push(field.to_field(alloc)?)?;
    }
    Ok(Fields::from(fields))
}
