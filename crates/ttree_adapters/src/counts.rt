//! Without the counts of tests below a level.

ghost use Rattle.std.specs.Prelude.{◌≡◌, filter};
ghost use Rattle.std.specs.List.{list_any};
ghost use Rattle.ttree_adapters.specs.Counts.{has_message, is_counted, is_message_field};

use crate::mapping::Mapping;
use json::Value;
use std::alloc::{AllocError, Global};
use tracing_tree_base::field::Field;
use tracing_tree_base::style::Level;
use tracing_tree_layer::call::Call;
use ttree_source::level::is_shown;

/// Leaves out the events below a level that have no message, as the event that counts tests.
///
/// So the lines of failed tests stay, which are below the level, and a run without a failure shows
/// nothing.
#[derive(Clone, Copy, Debug, Drop)]
pub struct CountsAtLeast {
    /// The minimum level of an event without a message.
    pub min_level: Level,
}

impl Mapping for CountsAtLeast {
    ghost use Rattle.ttree_adapters.specs.Counts.{makes_counted};

    ghost makes = { makes_counted };

    fn reads_values(&self) -> bool {
        false
    }

    fn map(
        &mut self,
        _alloc: Global,
        _value: Option<&Value<'_>>,
        calls: Vec<Call>,
    ) -> Result<Vec<Call>, AllocError> {
        Ok(counted_calls(self.min_level, calls))
    }
}

fn counted_calls(min_level: Level, calls: Vec<Call>) -> Vec<Call>
    ensures { result.items ≡ filter (is_counted min_level) calls.items }
{
    let mut calls = calls;
    calls.retain(|call| is_counted(min_level, call));
    calls
}

fn is_counted(min_level: Level, call: &Call) -> bool
    ensures { result ≡ is_counted min_level call.now }
{
    is_shown(min_level, call) || has_message(call)
}

// Returns whether a call is an event with a message, or isn't an event.
fn has_message(call: &Call) -> bool
    ensures { result ≡ has_message call.now }
{
    match call {
        Call::Event(event, _) => is_any_message(event.fields.as_slice()),
        Call::New(_, _) | Call::Clone(_) | Call::Record(_, _) | Call::Close(_, _) => true,
    }
}

fn is_any_message(fields: &[Field]) -> bool
    ensures { result ≡ list_any is_message_field fields.now }
{
    let mut rest = fields;
    while let [field, others @ ..] = rest {
        if is_message(field) {
            return true;
        }
        rest = others;
    }
    false
}

fn is_message(field: &Field) -> bool
    ensures { result ≡ is_message_field field.now }
{
    field.name.as_str() == "message"
}
