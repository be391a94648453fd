//! Values of fields, as drawn.

use crate::lined::lined;
use crate::steps::{emit, text as drawn};
use jiff::Timestamp;
use std::alloc::Global;
use std::test::*;
use tracing_tree_core::style::Level;
use tracing_tree_core::time::Moment;
use tracing_tree_tracer::Value::{Plain, Quoted, Truth, Whole};
use tracing_tree_tracer::{Tracer, Value};

// Returns whether an event with this value of the field `k` is drawn as this text.
fn is_drawn(alloc: Global, value: Value<'_>, text: &str) -> bool {
    let moment = Moment {
        mono: 0,
        wall: Timestamp::UNIX_EPOCH,
    };
    let mut tracer = Tracer::new(alloc, lined(alloc), moment);
    let emitted = emit(&mut tracer, Level::Info, "x", &[("k", value)]);
    emitted.is_ok() && drawn(&tracer) == text.as_bytes()
}

const TEXTS: [(Value<'static>, &str); 2] = [
    (Plain("a \"b\""), "INFO x, k=a \"b\"\n"),
    (
        Quoted("a \"b\"\\\n\u{1b}\u{9b}é\0\r\t"),
        "INFO x, k=\"a \\\"b\\\"\\\\\\n\\u{1b}\\u{9b}é\\0\\r\\t\"\n",
    ),
];

#[test]
fn draws_texts(rt: HostRuntime) -> Result<(), Fail> {
    for (value, text) in TEXTS {
        assert!(rt; is_drawn(rt.alloc(), value, text), "{text}");
    }
    Ok(())
}

const NUMBERS_AND_TRUTHS: [(Value<'static>, &str); 3] = [
    (Whole(-3), "INFO x, k=-3\n"),
    (Truth(true), "INFO x, k=true\n"),
    (Truth(false), "INFO x, k=false\n"),
];

#[test]
fn draws_numbers_and_truths(rt: HostRuntime) -> Result<(), Fail> {
    for (value, text) in NUMBERS_AND_TRUTHS {
        assert!(rt; is_drawn(rt.alloc(), value, text), "{text}");
    }
    Ok(())
}
