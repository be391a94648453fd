//! Notes of skipped lines.

ghost use Rattle.std.specs.Prelude.{List, [], ◌∷◌, Option, None};
ghost use Rattle.ttree_source.specs.Noted.{AddsNotes, Note};

use thiserror::Error;

/// What is missing in an unknown line. It is displayed as a sentence about the line.
#[derive(Clone, Copy, Debug, PartialEq, Eq, Error)]
pub enum Problem {
    /// The line isn't UTF-8.
    #[error("not UTF-8")]
    Utf8,

    /// The line isn't a JSON object.
    #[error("not a JSON object")]
    Object,

    /// `Action` is missing or isn't a string.
    #[error("\"Action\" must be a string")]
    Action,

    /// `Package` and `ImportPath` are missing or aren't strings.
    #[error("\"Package\" must be a string")]
    Package,

    /// `Output`, which the line's action needs, is missing or isn't a string.
    #[error("\"Output\" must be a string")]
    Output,

    /// `level` is missing or isn't a valid level.
    #[error("\"level\" must be one of TRACE, DEBUG, INFO, WARN, ERROR")]
    Level,

    /// `ph` is missing or isn't a string.
    #[error("\"ph\" must be a string")]
    Phase,

    /// The value at `pid` isn't a whole number.
    #[error("\"pid\" must be a whole number")]
    Process,

    /// The value at `tid` isn't a whole number.
    #[error("\"tid\" must be a whole number")]
    Thread,

    /// `ts` is missing or isn't a number of microseconds.
    #[error("\"ts\" must be a number of microseconds")]
    Start,

    /// `dur`, which a span needs, is missing or isn't a number of microseconds.
    #[error("\"dur\" must be a number of microseconds")]
    Duration,

    /// The line isn't an object with a string at `call`.
    #[error("expected a JSON object with a call")]
    Call,

    /// `call` isn't the name of a call.
    #[error("\"call\" must be one of new, clone, record, event, close")]
    CallName,

    /// A member of the call is missing, is unknown or has a value that it can't have.
    #[error("a member of the call is missing, unknown or invalid")]
    Member,

    /// The input isn't a trace.
    #[error("not a trace: expected an array, or an object with an array at \"traceEvents\"")]
    Trace,
}

/// A receiver of notes about skipped lines.
pub trait Notes {
    /// The notes so far, in order. `None` if they aren't known.
    ghost noted: { Self → Option (List Note) } = { λ _. None };

    /// Reports a skipped line, numbered from 1, with its bytes, which may be left out. Returns
    /// whether the run continues.
    fn note(&mut self, number: u64, problem: Problem, line: &[u8]) -> bool
        ensures { AddsNotes ((number, problem) ∷ []) (noted self.old) (noted self.new) };
}
