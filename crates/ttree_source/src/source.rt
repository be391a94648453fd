//! The meaning of another tool's lines.

ghost use Rattle.std.specs.Prelude.{◌≡◌, List, ℕ, Option, IfErr, IfOk, OnOk, false, option_map};
ghost use Rattle.json.specs.Json.{Json};
ghost use Rattle.json.specs.Value.{value_view};
ghost use Rattle.ttree_source.specs.Source.{Accepts, Emits, IgnoresValues, InterpretsAs, MayEnd, Step, interpreted_step};
ghost use Rattle.tracing_tree_layer.specs.declared.call.Call.{Call};
ghost use Rattle.ttree_source.specs.declared.notes.Problem.{Problem};

use crate::notes::Problem;
use crate::run::make;
use json::Value;
use std::alloc::{AllocError, Global};
use tracing_tree_layer::call::Call;
use tracing_tree_layer::calls::Calls;
use tracing_tree_lines::lines::LineCause;

/// A tool's output, line by line. A source stores what it needs from earlier lines.
pub trait Source {
    /// The calls of a line, and the source afterwards. They depend on the line's string, and on its
    /// JSON value if it is one. `None` if the line is unknown.
    ghost takes: { Self → List ℕ → Option Json → Option (Step Self) };

    /// The calls of the input's end.
    ghost ends: { Self → List Call };

    /// The source after the input's end.
    ghost ended: { Self → Self };

    /// What is missing in an unknown line, given its JSON value if it is one.
    ghost value_problem: { Option Json → Problem };

    /// Returns whether the calls of a line depend on its JSON value. If they don't, the line needs
    /// no parsing: `take` may be passed `None`.
    fn reads_values(&self) -> bool
        ensures { result ≡ false → IgnoresValues takes self.now }
    {
        true
    }

    /// Takes a line, which may be blank, and returns its calls. Returns `None` if the line is
    /// unknown. Nothing has changed then.
    ///
    /// # Errors
    ///
    /// `AllocError` if an allocation fails. The state of the source is then unspecified.
    fn take(
        &mut self,
        alloc: Global,
        line: &str,
        value: Option<&Value<'_>>,
    ) -> Result<Option<Vec<Call>>, AllocError>
        ensures { IfOk result (λ emitted. Emits
            (takes self.old line.now (option_map (λ v. value_view v.now) value.entry))
            self.old self.new (option_map (λ calls. calls.items) emitted)) };

    /// Takes a line as `take` does, and makes its calls on a receiver. Returns whether the line is
    /// known. A source that has the calls in parts makes them without a list.
    ///
    /// # Errors
    ///
    /// `Memory` if an allocation fails, and `Refused` if a call is refused. Only the calls before
    /// it were made, and the state of the source is then unspecified.
    #[tactic(auto, using(crate::proofs::Interpreted::emits_nothing, crate::proofs::Interpreted::emits_calls, crate::proofs::Interpreted::emits_stop, crate::proofs::Interpreted::interprets_lacking))]
    fn make_calls<C: Calls>(
        &mut self,
        alloc: Global,
        line: &str,
        value: Option<&Value<'_>>,
        receiver: &mut C,
    ) -> Result<bool, LineCause>
        ensures line { InterpretsAs (Accepts C.answers C.flushes) C.answers
            (interpreted_step self.old
            (takes self.old line.now (option_map (λ v. value_view v.now) value.entry)))
            self.new result receiver.old receiver.new }
        ensures cause { IfErr result (λ cause. MayEnd cause 0) }
    {
        let Ok(taken) = self.take(alloc, line, value) else {
            return Err(LineCause::Memory);
        };
        let Some(calls) = taken else {
            return Ok(false);
        };
        make(calls, receiver)?;
        Ok(true)
    }

    /// Returns what is missing in an unknown line.
    fn problem(value: Option<&Value<'_>>) -> Problem
        ensures { result ≡ value_problem (option_map (λ v. value_view v.now) value.entry) };

    /// Returns the calls of the input's end.
    ///
    /// # Errors
    ///
    /// `AllocError` if an allocation fails. The state of the source is then unspecified.
    fn end(&mut self, alloc: Global) -> Result<Vec<Call>, AllocError>
        ensures calls { IfOk result (λ calls. calls.items ≡ ends self.old) }
        ensures after { OnOk result (self.new ≡ ended self.old) };
}
