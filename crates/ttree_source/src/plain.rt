//! Lines without a format.

ghost use Rattle.std.specs.Prelude.{◌≡◌};

use crate::notes::Problem;
use crate::source::Source;
use crate::traces::plain_event;
use json::Value;
use std::alloc::{AllocError, Global};
use std::marker::Model;
use tracing_tree_layer::call::Call;
use tracing_tree_lines::lines::is_skipped;
use tracing_tree_time::Moment;

/// Lines without a format. Each that isn't blank is an event at the root, and all are at one moment
/// ([`plain_event`]).
#[derive(Drop)]
pub struct Plain {
    moment: Moment,
}

impl Model for Plain {
    ghost use Rattle.tracing_tree_base.specs.declared.context.Moment.{Moment};

    ghost Value = { Moment };

    ghost view = { λ p. p.moment };
}

impl Plain {
    /// Returns the source of events at this moment.
    pub fn new(moment: Moment) -> Plain
        ensures { result ≡ moment }
    {
        Plain { moment }
    }
}

impl Source for Plain {
    ghost use Rattle.ttree_source.specs.Plain.{plain_ended, plain_ends, plain_problem, plain_takes};

    ghost takes = { plain_takes };

    ghost ends = { plain_ends };

    ghost ended = { plain_ended };

    ghost value_problem = { plain_problem };

    fn reads_values(&self) -> bool {
        false
    }

    fn take(
        &mut self,
        alloc: Global,
        line: &str,
        _value: Option<&Value<'_>>,
    ) -> Result<Option<Vec<Call>>, AllocError> {
        let mut calls = Vec::new(alloc);
        if !is_skipped(line.as_bytes()) {
            calls.push(plain_event(alloc, self.moment, line, None)?)?;
        }
        Ok(Some(calls))
    }

    fn problem(_value: Option<&Value<'_>>) -> Problem {
        Problem::Object
    }

    fn end(&mut self, alloc: Global) -> Result<Vec<Call>, AllocError> {
        Ok(Vec::new(alloc))
    }
}
