//! The level of a line, and a source without the events below a level.

ghost use Rattle.std.specs.Prelude.{◌≡◌};
ghost use Rattle.json.specs.Value.{value_view};
ghost use Rattle.ttree_source.specs.Levels.{is_shown, level_in, rank, shown_calls};

use crate::notes::Problem;
use crate::source::Source;
use crate::values::text_at;
use json::Value;
use std::alloc::{AllocError, Global};
use std::marker::Model;
use tracing_tree_base::style::Level;
use tracing_tree_layer::call::Call;

/// Returns the level that an object names at `"level"`, in capitals. `None` if it doesn't name one.
pub fn level_in(value: &Value<'_>) -> Option<Level>
    ensures { result ≡ level_in (value_view value.now) }
{
    text_at(value, "level")?.parse().ok()
}

/// A source without its events below the least level. All other calls are unchanged, in their
/// order. An event doesn't change spans, so the ids that the source counts stay right.
#[derive(Drop)]
pub struct AtLeast<S> {
    source: S,
    min_level: Level,
}

impl<S> Model for AtLeast<S> {
    ghost use Rattle.ttree_source.specs.Levels.{Leveled};

    ghost Value = { Leveled S };

    ghost view = { λ a. record { source = a.source; min_level = a.min_level } };
}

impl<S> AtLeast<S> {
    /// Returns a source without the events below this level.
    pub fn new(source: S, min_level: Level) -> AtLeast<S>
        ensures { result ≡ record { source = source; min_level = min_level } }
    {
        AtLeast { source, min_level }
    }

    /// Returns the source.
    pub fn into_source(self) -> S
        ensures { result ≡ self.source }
    {
        self.source
    }
}

impl<S: Source> Source for AtLeast<S> {
    ghost use Rattle.ttree_source.specs.Levels.{level_ended, level_ends, level_takes};

    ghost takes = { level_takes S.takes };

    ghost ends = { level_ends S.ends };

    ghost ended = { level_ended S.ended };

    ghost value_problem = { S.value_problem };

    fn reads_values(&self) -> bool {
        self.source.reads_values()
    }

    fn take(
        &mut self,
        alloc: Global,
        line: &str,
        value: Option<&Value<'_>>,
    ) -> Result<Option<Vec<Call>>, AllocError> {
        match self.source.take(alloc, line, value)? {
            Some(calls) => Ok(Some(shown_calls(self.min_level, calls))),
            None => Ok(None),
        }
    }

    fn problem(value: Option<&Value<'_>>) -> Problem {
        S::problem(value)
    }

    fn end(&mut self, alloc: Global) -> Result<Vec<Call>, AllocError> {
        let calls = self.source.end(alloc)?;
        Ok(shown_calls(self.min_level, calls))
    }
}

// Removes the events below the least level from these calls.
fn shown_calls(min_level: Level, calls: Vec<Call>) -> Vec<Call>
    ensures { result.items ≡ shown_calls min_level calls.items }
{
    let mut calls = calls;
    calls.retain(|call| is_shown(min_level, call));
    calls
}

/// Returns whether a call isn't an event below the least level.
pub fn is_shown(min_level: Level, call: &Call) -> bool
    ensures { result ≡ is_shown min_level call.now }
{
    match call {
        Call::Event(event, _) => rank(min_level) <= rank(event.level),
        Call::New(_, _) | Call::Clone(_) | Call::Record(_, _) | Call::Close(_, _) => true,
    }
}

/// Returns the rank of a level, from `Trace` (0) to `Error` (4).
pub fn rank(level: Level) -> u8
    ensures { result ≡ rank level }
{
    match level {
        Level::Trace => 0,
        Level::Debug => 1,
        Level::Info => 2,
        Level::Warn => 3,
        Level::Error => 4,
    }
}
