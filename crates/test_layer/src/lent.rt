//! Calls whose parts are borrowed or moved separately.

use std::alloc::Global;
use std::test::*;
use test_support::{at, attributes, lined};
use tracing_tree::calls::Calls;
use tracing_tree::field::Field;
use tracing_tree::format::{Context, Id, Refusal, Tape};
use tracing_tree::layered::Layered;
use tracing_tree::parts::{EventTexts, FieldTexts};
use tracing_tree::registry::Parent;
use tracing_tree::style::Level;

// Records an event whose strings the caller lends.
fn event_call(layered: &mut Layered<Tape, ()>, here: &Context) -> Result<(), Refusal> {
    let event = EventTexts {
        level: Level::Info,
        target: "web",
        parent: Parent::Current,
        fields: &[FieldTexts {
            name: "message",
            value: "listening",
        }],
    };
    layered.event(&event, here)?;
    Ok(())
}

// A root span, an event in it, and its close.
fn root(alloc: Global, layered: &mut Layered<Tape, ()>) -> Result<Id, Refusal> {
    let attributes = attributes(alloc, "a", Parent::Root)?;
    let id = layered.new_span(attributes, &at(None))?;
    event_call(layered, &at(Some(1)))?;
    layered.close(id, &at(None))?;
    Ok(id)
}

#[test]
fn draws_what_is_lent(rt: HostRuntime) -> Result<(), Fail> {
    let alloc = rt.alloc();
    let mut layered = lined(alloc)?;
    assert_eq!(rt; root(alloc, &mut layered), Ok(Id(1)));
    let text = "┐a \n├─ INFO listening\n┘\n";
    assert_eq!(rt; layered.writer().bytes(), text.as_bytes());
    Ok(())
}

#[test]
fn copies_a_field(rt: HostRuntime) -> Result<(), Fail> {
    let alloc = rt.alloc();
    let lent = FieldTexts {
        name: "key",
        value: "1",
    };
    let field = Field::rendered(alloc, "key", "1")?;
    assert_eq!(rt; lent.to_field(alloc)?, field);
    Ok(())
}
