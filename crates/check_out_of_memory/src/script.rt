//! Lists of calls, with what each is answered and what is drawn in the end.

ghost use Rattle.std.specs.Prelude.{◌≡◌, None, false};

use jiff::Timestamp;
use std::alloc::{AllocError, Global};
use tracing_tree::HierarchicalLayer;
use tracing_tree::call::{Call, Reply};
use tracing_tree::field::{Field, Fields};
use tracing_tree::format::{Context, Id, Output, Refusal};
use tracing_tree::registry::{Attributes, Event, Parent, Record};
use tracing_tree::style::Level;
use tracing_tree::text::Text;
use tracing_tree::time::Moment;

pub type Answer = Result<Reply, Refusal>;

/// A list of calls.
#[derive(Clone, Copy)]
pub enum Script {
    /// Deferred spans. The last is never shown.
    Deferred,

    /// A span that waits for its child, and closes with it.
    Closes,

    /// Deferred spans with verbose entry, and events in both.
    Interleaved,

    /// Fields recorded before the span is shown, more than a list of fields begins with room for.
    Recorded,

    /// Two trees whose calls alternate, retraced.
    Concurrent,

    /// Spans deeper than a record keeps without a list, with long names, drawn late.
    Deep,
}

/// A call and its answer, in the words of the scripts.
#[derive(Clone, Copy)]
pub enum Step {
    New(&'static str, &'static str, Option<u64>),
    Record(u64, &'static str),
    Event(&'static str, Option<u64>),
    Close(u64),
}

const CONCURRENT: &str = "1:main┐concurrent_eagerly::spawn_fut key=\"a\"\n\
    1:main┐concurrent_eagerly::spawn_fut key=\"b\"\n\
    1:main┐concurrent_eagerly::spawn_fut key=\"a\"\n\
    1:main└───┐concurrent_eagerly::a \n\
    1:main┐concurrent_eagerly::spawn_fut key=\"b\"\n\
    1:main└───┐concurrent_eagerly::b \n\
    1:main┐concurrent_eagerly::spawn_fut key=\"a\"\n\
    1:main└───┐concurrent_eagerly::a \n\
    1:main    ├─── INFO concurrent_eagerly a\n\
    1:main┌───┘\n\
    1:main┐concurrent_eagerly::spawn_fut key=\"b\"\n\
    1:main└───┐concurrent_eagerly::b \n\
    1:main    ├─── INFO concurrent_eagerly b\n\
    1:main┌───┘\n\
    1:main┘\n\
    1:main┘\n";

const DEEP: &str = "┐the first of eight spans \n\
    └─┐the second of eight spans \n  \
    └─┐the third of eight spans \n    \
    └─┐the fourth of eight spans \n      \
    └─┐the fifth of eight spans \n        \
    └─┐the sixth of eight spans \n          \
    └─┐the seventh of eight spans \n            \
    └─┐the eighth of eight spans k=a value that is recorded late\n              \
    ├─ INFO a message that is longer than a short text\n            \
    ┌─┘\n          \
    ┌─┘\n        \
    ┌─┘\n      \
    ┌─┘\n    \
    ┌─┘\n  \
    ┌─┘\n\
    ┌─┘\n\
    ┘\n";

impl Script {
    pub fn name(self) -> &'static str {
        match self {
            Script::Deferred => "deferred",
            Script::Closes => "closes",
            Script::Interleaved => "interleaved",
            Script::Recorded => "recorded",
            Script::Concurrent => "concurrent",
            Script::Deep => "deep",
        }
    }

    /// Returns what is drawn in the end.
    pub fn text(self) -> &'static str {
        match self {
            Script::Deferred => "┐a \n└─┐b \n  ├─ INFO x\n",
            Script::Closes => "┐a \n└───┐b \n  ┌─┘b \n┌─┘a \n┘a \n",
            Script::Interleaved => { "┐a \n├─── INFO x\n└─┐a \n  └─┐b \n    ├─── INFO y\n" }
            Script::Recorded => "┐a key=0, k=1, k=2, k=3, k=4\n├─ INFO x\n",
            Script::Concurrent => CONCURRENT,
            Script::Deep => DEEP,
        }
    }

    /// Returns the layer that draws it, on which no call was made yet.
    pub fn layer<W: Output + Drop>(self, alloc: Global, writer: W) -> HierarchicalLayer<W, ()>
        requires { W.fault_count writer ≡ 0 }
        ensures last { result.last ≡ None }
        ensures sound { result.failed ≡ false }
        ensures writer { result.writer ≡ writer }
    {
        let amount = match self {
            Script::Closes | Script::Interleaved | Script::Concurrent => 4,
            Script::Deferred | Script::Recorded | Script::Deep => 2,
        };
        let is_concurrent = matches!(&self, Script::Concurrent);
        let is_closes = matches!(&self, Script::Closes);
        let is_interleaved = matches!(&self, Script::Interleaved);
        HierarchicalLayer::new(alloc, amount, false, writer)
            .with_indent_lines(true)
            .with_deferred_spans(!is_concurrent && !is_closes)
            .with_span_retrace(is_concurrent)
            .with_verbose_entry(is_concurrent || is_interleaved)
            .with_verbose_exit(is_closes)
            .with_targets(is_concurrent)
            .with_thread_ids(is_concurrent)
            .with_thread_names(is_concurrent)
    }

    /// Returns the calls and their answers.
    pub fn steps(self) -> &'static [(Step, Answer)] {
        match self {
            Script::Deferred => DEFERRED,
            Script::Closes => CLOSES,
            Script::Interleaved => INTERLEAVED,
            Script::Recorded => RECORDED,
            Script::Concurrent => ALTERNATING,
            Script::Deep => NESTED,
        }
    }
}

const DEFERRED: &[(Step, Answer)] = &[
    (Step::New("a", "", None), Ok(Reply::Span(Id(1)))),
    (Step::New("b", "", Some(1)), Ok(Reply::Span(Id(2)))),
    (Step::New("c", "", Some(2)), Ok(Reply::Span(Id(3)))),
    (Step::Event("x", Some(2)), Ok(Reply::Done)),
    (Step::Close(3), Ok(Reply::Closed(true))),
];

const CLOSES: &[(Step, Answer)] = &[
    (Step::New("a", "", None), Ok(Reply::Span(Id(1)))),
    (Step::New("b", "", Some(1)), Ok(Reply::Span(Id(2)))),
    (Step::Close(1), Ok(Reply::Closed(false))),
    (Step::Close(1), Err(Refusal::NotHeld(Id(1)))),
    (Step::Close(2), Ok(Reply::Closed(true))),
];

const INTERLEAVED: &[(Step, Answer)] = &[
    (Step::New("a", "", None), Ok(Reply::Span(Id(1)))),
    (Step::New("b", "", Some(1)), Ok(Reply::Span(Id(2)))),
    (Step::Event("x", Some(1)), Ok(Reply::Done)),
    (Step::Event("y", Some(2)), Ok(Reply::Done)),
];

const RECORDED: &[(Step, Answer)] = &[
    (Step::New("a", "0", None), Ok(Reply::Span(Id(1)))),
    (Step::Record(1, "1"), Ok(Reply::Done)),
    (Step::Record(9, "1"), Ok(Reply::Done)),
    (Step::Record(1, "2"), Ok(Reply::Done)),
    (Step::Record(1, "3"), Ok(Reply::Done)),
    (Step::Record(1, "4"), Ok(Reply::Done)),
    (Step::Event("x", Some(1)), Ok(Reply::Done)),
];

const ALTERNATING: &[(Step, Answer)] = &[
    (
        Step::New("spawn_fut", "\"a\"", None),
        Ok(Reply::Span(Id(1))),
    ),
    (
        Step::New("spawn_fut", "\"b\"", None),
        Ok(Reply::Span(Id(2))),
    ),
    (Step::New("a", "", Some(1)), Ok(Reply::Span(Id(3)))),
    (Step::New("b", "", Some(2)), Ok(Reply::Span(Id(4)))),
    (Step::Event("a", Some(3)), Ok(Reply::Done)),
    (Step::Close(3), Ok(Reply::Closed(true))),
    (Step::Event("b", Some(4)), Ok(Reply::Done)),
    (Step::Close(4), Ok(Reply::Closed(true))),
    (Step::Close(2), Ok(Reply::Closed(true))),
    (Step::Close(1), Ok(Reply::Closed(true))),
];

const NESTED: &[(Step, Answer)] = &[
    (
        Step::New("the first of eight spans", "", None),
        Ok(Reply::Span(Id(1))),
    ),
    (
        Step::New("the second of eight spans", "", Some(1)),
        Ok(Reply::Span(Id(2))),
    ),
    (
        Step::New("the third of eight spans", "", Some(2)),
        Ok(Reply::Span(Id(3))),
    ),
    (
        Step::New("the fourth of eight spans", "", Some(3)),
        Ok(Reply::Span(Id(4))),
    ),
    (
        Step::New("the fifth of eight spans", "", Some(4)),
        Ok(Reply::Span(Id(5))),
    ),
    (
        Step::New("the sixth of eight spans", "", Some(5)),
        Ok(Reply::Span(Id(6))),
    ),
    (
        Step::New("the seventh of eight spans", "", Some(6)),
        Ok(Reply::Span(Id(7))),
    ),
    (
        Step::New("the eighth of eight spans", "", Some(7)),
        Ok(Reply::Span(Id(8))),
    ),
    (
        Step::Record(8, "a value that is recorded late"),
        Ok(Reply::Done),
    ),
    (
        Step::Event("a message that is longer than a short text", Some(8)),
        Ok(Reply::Done),
    ),
    (Step::Close(1), Ok(Reply::Closed(false))),
    (Step::Close(2), Ok(Reply::Closed(false))),
    (Step::Close(3), Ok(Reply::Closed(false))),
    (Step::Close(4), Ok(Reply::Closed(false))),
    (Step::Close(5), Ok(Reply::Closed(false))),
    (Step::Close(6), Ok(Reply::Closed(false))),
    (Step::Close(7), Ok(Reply::Closed(false))),
    (Step::Close(8), Ok(Reply::Closed(true))),
];

impl Step {
    /// Returns the call itself.
    pub fn call(self, alloc: Global) -> Result<Call, AllocError> {
        Ok(match self {
            Step::New(name, key, current) => {
                let attributes = Attributes {
                    name: Text::from_str(alloc, name)?,
                    target: target(alloc)?,
                    parent: Parent::Current,
                    fields: keyed(alloc, key)?,
                };
                Call::New(attributes, here(alloc, current)?)
            }
            Step::Record(id, value) => {
                let fields = field(alloc, "k", value)?;
                Call::Record(Id(id), Record { fields })
            }
            Step::Event(message, current) => {
                let event = Event {
                    level: Level::Info,
                    target: target(alloc)?,
                    parent: Parent::Current,
                    fields: field(alloc, "message", message)?,
                };
                Call::Event(event, here(alloc, current)?)
            }
            Step::Close(id) => Call::Close(Id(id), here(alloc, None)?),
        })
    }
}

fn target(alloc: Global) -> Result<Text, AllocError> {
    Text::from_str(alloc, "concurrent_eagerly")
}

fn field(alloc: Global, name: &str, value: &str) -> Result<Fields, AllocError> {
    let mut fields = Vec::new(alloc);
    fields.push(Field::rendered(alloc, name, value)?)?;
    Ok(Fields::from(fields))
}

// Returns the field `key`, or an empty list.
fn keyed(alloc: Global, value: &str) -> Result<Fields, AllocError> {
    if value.is_empty() {
        return Ok(Fields::new(alloc));
    }
    field(alloc, "key", value)
}

fn here(alloc: Global, current: Option<u64>) -> Result<Context, AllocError> {
    Ok(Context {
        current: current.map(Id),
        thread_id: 1,
        thread_name: Some(Text::from_str(alloc, "main")?),
        moment: Moment {
            mono: 0,
            wall: Timestamp::UNIX_EPOCH,
        },
    })
}
