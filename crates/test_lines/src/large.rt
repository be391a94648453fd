//! Large runs with enough memory: every call is accepted, and the whole drawing is right.

use std::alloc::{AllocError, Global};
use std::process::Abort;
use std::test::*;
use test_support::{at, closed, event_call, lined, made};
use tracing_tree::call::Call;
use tracing_tree::field::{Field, Fields};
use tracing_tree::format::Tape;
use tracing_tree::lines::run_lines;
use tracing_tree::registry::{Attributes, Event, Parent};
use tracing_tree::style::Level;
use tracing_tree::text::Text;

// Every ASCII character.
const ASCII: &str = concat!(
    "\0\u{1}\u{2}\u{3}\u{4}\u{5}\u{6}\u{7}\u{8}\t\n\u{b}\u{c}\r\u{e}\u{f}\u{10}\u{11}\u{12}",
    "\u{13}\u{14}\u{15}\u{16}\u{17}\u{18}\u{19}\u{1a}\u{1b}\u{1c}\u{1d}\u{1e}\u{1f} !\"#$%&'()*",
    "+,-./0123456789:;<=>?@ABCDEFGHIJKLMNOPQRSTUVWXYZ[\\]^_`abcdefghijklmnopqrstuvwxyz{|}~",
    "\u{7f}",
);

// The same characters as a quoted field shows them.
const SHOWN: &str = concat!(
    "\"\\0\\u{1}\\u{2}\\u{3}\\u{4}\\u{5}\\u{6}\\u{7}\\u{8}\\t\\n\\u{b}\\u{c}\\r\\u{e}\\u{f}",
    "\\u{10}\\u{11}\\u{12}\\u{13}\\u{14}\\u{15}\\u{16}\\u{17}\\u{18}\\u{19}\\u{1a}\\u{1b}",
    "\\u{1c}\\u{1d}\\u{1e}\\u{1f} !\\\"#$%&'()*+,-./0123456789:;<=>?@ABCDEFGHIJKLMNOPQRSTUVWXYZ",
    "[\\\\]^_`abcdefghijklmnopqrstuvwxyz{|}~\\u{7f}\"",
);

// How deep the spans are nested.
const DEPTH: usize = 1_000;

// The length of a long string.
const LONG: usize = 1_000_000;

// How many spans live at once.
const SPANS: u64 = 100_000;

// Calls, and the text that they must draw.
#[derive(Drop)]
struct Script {
    alloc: Global,
    calls: Vec<Call>,
    wanted: String,
}

impl Script {
    fn new(alloc: Global) -> Script {
        Script {
            alloc,
            calls: Vec::new(alloc),
            wanted: String::new(alloc),
        }
    }

    // Adds a call that must draw `spaces` spaces and this text.
    fn push(&mut self, call: Call, spaces: usize, text: &str) -> Result<(), AllocError> {
        self.calls.push(call)?;
        self.wanted
            .push_str(" ".repeat(self.alloc, spaces)?.as_str())?;
        self.wanted.push_str(text)
    }

    // Makes the calls.
    fn runs(self, rt: &impl Abort) -> Result<(), Fail> {
        let Script {
            alloc,
            calls,
            wanted,
        } = self;
        let mut layered = lined(alloc)?;
        let answers = layered.run(alloc, calls)?;
        assert!(rt;
            answers.iter().all(|answer| answer.is_ok()),
            "a call is refused"
        );
        assert!(rt;
            layered.writer().bytes() == wanted.as_bytes(),
            "another text"
        );
        Ok(())
    }
}

// Returns a field with this string, which is quoted if it is ASCII.
fn text_field(alloc: Global, text: &str) -> Result<Field, AllocError> {
    if text.is_ascii() {
        return Field::text(alloc, "a", text);
    }
    Field::rendered(alloc, "a", "")
}

// Returns fields with long strings and with each ASCII character, and the text that shows them,
// separated by commas.
fn many_fields(alloc: Global) -> Result<(Fields, String), AllocError> {
    let mut fields = Vec::new(alloc);
    let mut shown = String::new(alloc);
    for number in 0u32..998 {
        fields.push(Field::whole(alloc, "k", i128::from(number))?)?;
        write!(shown, "k={number}, ")?;
    }
    let name = "n".repeat(alloc, LONG)?;
    let value = "é".repeat(alloc, LONG)?;
    write!(shown, "{name}={value}, a={SHOWN}\n")?;
    fields.push(Field::rendered(alloc, name.as_str(), value.as_str())?)?;
    fields.push(text_field(alloc, ASCII)?)?;
    Ok((Fields::from(fields), shown))
}

// A span with a long name and many fields, in the deepest span.
fn push_long_span(script: &mut Script) -> Result<(), AllocError> {
    let alloc = script.alloc;
    let name = "m".repeat(alloc, LONG)?;
    let (fields, shown) = many_fields(alloc)?;
    let attributes = Attributes {
        name: Text::from_str(alloc, name.as_str())?,
        target: Text::from_str(alloc, "")?,
        parent: Parent::Current,
        fields,
    };
    let text = format!(in alloc; "└─┐{name} {shown}")?;
    script.push(
        Call::New(attributes, at(Some(DEPTH as u64))),
        2 * (DEPTH - 1),
        text.as_str(),
    )
}

// An event with many fields, in the deepest span.
fn push_wide_event(script: &mut Script) -> Result<(), AllocError> {
    let alloc = script.alloc;
    let (fields, shown) = many_fields(alloc)?;
    let event = Event {
        level: Level::Info,
        target: Text::from_str(alloc, "")?,
        parent: Parent::Current,
        fields,
    };
    let text = format!(in alloc; "├─ INFO {shown}")?;
    script.push(
        Call::Event(event, at(Some(DEPTH as u64))),
        2 * (DEPTH - 1),
        text.as_str(),
    )
}

#[test]
fn draws_what_is_deep_and_wide(rt: HostRuntime) -> Result<(), Fail> {
    let alloc = rt.alloc();
    let mut script = Script::new(alloc);
    script.push(made(alloc, "s", None)?, 0, "┐s \n")?;
    for level in 1..DEPTH {
        let call = made(alloc, "s", Some(level as u64))?;
        script.push(call, 2 * (level - 1), "└─┐s \n")?;
    }
    push_wide_event(&mut script)?;
    push_long_span(&mut script)?;
    for level in 0..DEPTH {
        let depth = DEPTH - level;
        script.push(closed(depth as u64 + 1), 2 * (depth - 1), "┌─┘\n")?;
    }
    script.push(closed(1), 0, "┘\n")?;
    script.runs(&rt)
}

// A message of a million lines.
#[test]
fn draws_many_lines(rt: HostRuntime) -> Result<(), Fail> {
    let alloc = rt.alloc();
    let mut script = Script::new(alloc);
    script.push(made(alloc, "s", None)?, 0, "┐s \n")?;
    let mut message = "x\n".repeat(alloc, LONG)?;
    message.push_str("y")?;
    let mut text = String::from_str(alloc, "├─ INFO x\n")?;
    text.push_str("│  x\n".repeat(alloc, LONG - 1)?.as_str())?;
    text.push_str("│  y\n")?;
    let call = event_call(alloc, Level::Info, message.as_str(), Some(1))?;
    script.push(call, 0, text.as_str())?;
    script.runs(&rt)
}

#[test]
fn draws_many_live_spans(rt: HostRuntime) -> Result<(), Fail> {
    let alloc = rt.alloc();
    let mut script = Script::new(alloc);
    for _ in 0..SPANS {
        script.push(made(alloc, "s", None)?, 0, "┐s \n")?;
    }
    for id in [1, SPANS / 2, SPANS] {
        let call = event_call(alloc, Level::Info, "x", Some(id))?;
        script.push(call, 0, "├─ INFO x\n")?;
    }
    for id in 1..=SPANS {
        script.push(closed(id), 0, "┘\n")?;
    }
    script.runs(&rt)
}

// A first line padded with `count` spaces, a name ten times as long, and a value with `count` parts
// at an unknown key.
fn reads_long(rt: &(impl Abort + AllocGlobal), count: usize) -> Result<(), Fail> {
    let alloc = rt.alloc();
    let name = "n".repeat(alloc, count.saturating_mul(10))?;
    let mut input = String::from_str(alloc, "{\"indent_lines\":")?;
    input.push_str(" ".repeat(alloc, count)?.as_str())?;
    write!(
        input,
        "true}}\n{{\"call\":\"new\",\"name\":\"{name}\"}}\n{{\"call\":\"close\",\"id\":1,\"x\":["
    )?;
    input.push_str("1,".repeat(alloc, count)?.as_str())?;
    input.push_str("1]}\n")?;
    let ran = run_lines(alloc, input.as_bytes(), Tape::new(alloc));
    let wanted = format!(in alloc; "┐{name} \n┘\n")?;
    assert_eq!(rt; ran.fault, None);
    assert_eq!(rt; ran.accepted, 2);
    assert!(rt; ran.writer.bytes() == wanted.as_bytes(), "another text");
    Ok(())
}

#[test]
fn reads_long_lines(rt: HostRuntime) -> Result<(), Fail> {
    reads_long(&rt, LONG / 10)
}
