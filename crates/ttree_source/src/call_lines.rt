//! Lines of calls.

ghost use Rattle.std.specs.Prelude.{◌≡◌};
ghost use Rattle.json.specs.Value.{value_view};
ghost use Rattle.ttree_source.specs.CallLines.{is_known, problem_of_call, problem_of_named};

use crate::fields::is_among;
use crate::first::CALL_WORDS;
use crate::level::level_in;
use crate::notes::Problem;
use crate::recorder::Recorder;
use crate::source::Source;
use crate::values::text_at;
use json::{Scratch, Value};
use std::alloc::{AllocError, Global};
use std::marker::Model;
use tracing_tree_layer::call::{Call, Reply};
use tracing_tree_layer::calls::Calls;
use tracing_tree_lines::lines::{LineCause, is_skipped, make_call};

/// Lines of calls, as they follow the settings in the input of [`run_lines`]. A blank line has no
/// call.
///
/// [`run_lines`]: tracing_tree_lines::run_lines
#[derive(Drop)]
pub struct CallLines {
    scratch: Scratch,
}

impl Model for CallLines {
    ghost Value = { Unit {0} };

    ghost view = { λ _. tt };
}

impl CallLines {
    /// Returns the source of such lines.
    pub fn new(alloc: Global) -> CallLines {
        CallLines {
            scratch: Scratch::new(alloc),
        }
    }
}

impl Source for CallLines {
    ghost use Rattle.ttree_source.specs.CallLines.{call_lines_ended, call_lines_ends, call_lines_problem, call_lines_takes};

    ghost takes = { call_lines_takes };

    ghost ends = { call_lines_ends };

    ghost ended = { call_lines_ended };

    ghost value_problem = { call_lines_problem };

    fn reads_values(&self) -> bool {
        false
    }

    fn take(
        &mut self,
        alloc: Global,
        line: &str,
        _value: Option<&Value<'_>>,
    ) -> Result<Option<Vec<Call>>, AllocError> {
        let mut recorder = Recorder::new(alloc);
        if is_skipped(line.as_bytes()) {
            return Ok(Some(recorder.into_calls()));
        }
        match make_call(alloc, line, &mut self.scratch, &mut recorder) {
            Ok(_) => Ok(Some(recorder.into_calls())),
            Err(LineCause::NotACall) => Ok(None),
            Err(_) => Err(AllocError),
        }
    }

    // The call of a line is made from its parts.
    #[tactic(auto, using(crate::proofs::LineCalls::blank_makes_none, crate::proofs::LineCalls::line_does, crate::proofs::LineCalls::line_may_end))]
    fn make_calls<C: Calls>(
        &mut self,
        alloc: Global,
        line: &str,
        _value: Option<&Value<'_>>,
        receiver: &mut C,
    ) -> Result<bool, LineCause> {
        if is_skipped(line.as_bytes()) {
            return Ok(true);
        }
        is_known(make_call(alloc, line, &mut self.scratch, receiver))
    }

    fn problem(value: Option<&Value<'_>>) -> Problem {
        match value {
            Some(value) => problem_of_call(value),
            None => Problem::Call,
        }
    }

    fn end(&mut self, alloc: Global) -> Result<Vec<Call>, AllocError> {
        Ok(Vec::new(alloc))
    }
}

// Returns whether a line is known, given what came of making its call.
fn is_known(made: Result<Reply, LineCause>) -> Result<bool, LineCause>
    ensures { result ≡ is_known made }
{
    match made {
        Ok(_) => Ok(true),
        Err(LineCause::NotACall) => Ok(false),
        Err(cause) => Err(cause),
    }
}

// Returns what is missing in an object that isn't a call.
fn problem_of_call(value: &Value<'_>) -> Problem
    ensures { result ≡ problem_of_call (value_view value.now) }
{
    match text_at(value, "call") {
        Some(name) => problem_of_named(name, value),
        None => Problem::Call,
    }
}

// Returns what is missing in an object that has this name of a call.
fn problem_of_named(name: &str, value: &Value<'_>) -> Problem
    ensures { result ≡ problem_of_named name.now (value_view value.now) }
{
    if !is_among(name, &CALL_WORDS) {
        Problem::CallName
    } else if name == "event" && level_in(value).is_none() {
        Problem::Level
    } else {
        Problem::Member
    }
}
