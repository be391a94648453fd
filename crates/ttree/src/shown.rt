//! What the calls of a source become before they are drawn.

use crate::options::Options;
use crate::summary::Summary;
use std::alloc::Global;
use ttree_adapters::{Mapped, OneRow, RowClock, ShortValues, Then, TimeColumns, TimeStyle};

// What is drawn: it decides the clock of the rows, and how a line end in a span's name or field is
// shown.
#[derive(Clone, Copy, Debug, PartialEq, Eq)]
pub enum Subject {
    // The lines of a source. Each span takes one row.
    Lines,

    // The lines before a document, without a summary.
    Preamble,

    // A trace, on its own clock. Each span takes one row.
    Trace,

    // A report of JUnit XML. Each span takes one row.
    Report,

    // OTLP. Line ends in it are drawn as such.
    Document,
}

impl Subject {
    fn clock(self) -> RowClock {
        match self {
            Subject::Trace => RowClock::Trace,
            Subject::Lines | Subject::Preamble | Subject::Report | Subject::Document => {
                RowClock::Utc
            }
        }
    }

    fn one_row(self) -> Option<OneRow> {
        match self {
            Subject::Lines | Subject::Preamble | Subject::Trace | Subject::Report => Some(OneRow),
            Subject::Document => None,
        }
    }
}

// What a drawing shows of calls: first the summary sees them. Then a span may take one row, long
// values are cut, and each row begins with its time.
pub type Shape = Then<
    Then<Option<Summary>, Option<OneRow>>,
    Then<Option<ShortValues>, Option<TimeColumns>>,
>;

// A source whose calls are drawn.
pub type Shown<S> = Mapped<S, Shape>;

// Returns what is shown of a source.
pub fn shown<S>(alloc: Global, source: S, subject: Subject, options: &Options<'_>) -> Shown<S> {
    Mapped::new(source, shape(alloc, subject, options))
}

// Returns the summary of the calls that were shown, under --summary.
pub fn summary_of(shape: Shape) -> Option<Summary> {
    let (first, rest) = shape.into_parts();
    drop(rest);
    let (summary, one_row) = first.into_parts();
    drop(one_row);
    summary
}

// Returns what is shown of calls.
pub fn shape(alloc: Global, subject: Subject, options: &Options<'_>) -> Shape {
    let clock = subject.clock();
    let has_summary = options.has_summary && subject != Subject::Preamble;
    let summary = has_summary.then(|| -> Summary { Summary::new(alloc, clock) });
    let short = (!options.is_full).then(|| -> ShortValues { ShortValues });
    let times = match options.times {
        Some(precision) => {
            let style = TimeStyle {
                precision,
                clock,
                has_threads: options.has_threads(),
                is_deferred: is_deferred(subject, options),
            };
            Some(TimeColumns::new(alloc, style, 1))
        }
        None => None,
    };
    Then::new(
        Then::new(summary, subject.one_row()),
        Then::new(short, times),
    )
}

// Returns whether a span is drawn only once an event happens in it.
fn is_deferred(subject: Subject, options: &Options<'_>) -> bool {
    match subject {
        Subject::Lines | Subject::Preamble => options.is_deferred(),
        Subject::Trace | Subject::Report | Subject::Document => false,
    }
}
