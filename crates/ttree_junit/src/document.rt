//! The calls of a document.

ghost use Rattle.std.specs.Prelude.{◌≡◌, ◌==◌, not, IfOk, length};
ghost use Rattle.ttree_junit.specs.Document.{document_calls, document_state, is_cut, read_within, step_of};
ghost use Rattle.xml.specs.Xml.{Reads, at_start as document_start};

use crate::element::begins_document;
use crate::reading::Junit;
pub use crate::reading::{Selection, Tally};
use std::alloc::{AllocError, Global};
use tracing_tree_layer::call::Call;
use tracing_tree_time::Moment;
use xml::{Reader, Token, Unfinished};

/// What a document says.
#[derive(Drop)]
pub struct JunitCalls {
    /// The calls that draw it.
    pub calls: Vec<Call>,

    /// How many cases ended how. A failure of a suite counts as one of a case.
    pub tally: Tally,

    /// Whether the document ends early.
    pub is_cut: bool,

    /// Whether a report begins: an element `testsuites`, `testsuite` or `testcase`.
    pub is_report: bool,
}

impl JunitCalls {
    /// Returns whether a case or a suite failed.
    pub fn has_failed(&self) -> bool
        ensures { result ≡ not (self.now.tally.failed == 0) }
    {
        self.tally.failed != 0
    }
}

/// Returns the calls of a document.
///
/// Each suite is a span, and so are consecutive cases of a class. A case is an event, or a span if
/// there is more to show than how it ended. The first span gets the id `next`, and all calls are
/// made at `moment`. Lines around a document are events at the root, and another document may
/// follow. If a document ends early, the case that is open is unfinished, and its spans close.
///
/// `Selection::Failures` leaves out cases that passed or were skipped, and suites without a
/// failure. They are counted nevertheless.
///
/// # Errors
///
/// `AllocError` if an allocation fails.
pub fn junit_calls(
    alloc: Global,
    selection: Selection,
    next: u64,
    moment: Moment,
    text: &str,
) -> Result<JunitCalls, AllocError>
    ensures calls { IfOk result (λ made.
        made.calls.items ≡ document_calls selection next moment text.now) }
    ensures tally { IfOk result (λ made.
        made.tally ≡ (document_state selection next moment text.now).tally) }
    ensures is_cut { IfOk result (λ made. made.is_cut ≡ is_cut selection next moment text.now) }
    ensures is_report { IfOk result (λ made.
        made.is_report ≡ (document_state selection next moment text.now).is_report) }
{
    let mut junit = Junit::new(alloc, selection, next, moment)?;
    let is_cut = read(&mut junit, text)?;
    junit.finish()?;
    Ok(JunitCalls {
        is_report: junit.is_report(),
        tally: junit.tally(),
        calls: junit.into_calls(),
        is_cut,
    })
}

// Reads a document, and returns whether it ends early. Each token has a byte or more.
fn read(junit: &mut Junit, text: &str) -> Result<bool, AllocError>
    ensures { IfOk result (λ is_cut. read_within (length text.now) (document_start text.now)
        junit.old
        ≡ record { state = junit.new; is_cut = is_cut }) }
{
    let mut reader = Reader::new(text);
    for _token in 0..text.len() {
        match next_of(&mut reader, junit) {
            Ok(Some(token)) => junit.take(&token)?,
            Ok(None) => return Ok(junit.is_open()),
            Err(unfinished) => {
                junit.take_rest(unfinished, reader.rest())?;
                return Ok(true);
            }
        }
    }
    Ok(junit.is_open())
}

// Reads the next token. Outside of all elements, what doesn't begin a document is plain text.
fn next_of<'a>(reader: &mut Reader<'a>, junit: &Junit) -> Result<Option<Token<'a>>, Unfinished>
    ensures { Reads (step_of reader.old junit.now) reader.old result reader.new }
{
    if junit.is_open() || begins_document(reader.rest()) {
        reader.next()
    } else {
        reader.next_plain()
    }
}
