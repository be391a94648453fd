//! Calls made by hand, without a tracer: the README names this file.

use jiff::Timestamp;
use std::alloc::Global;
use std::test::*;
use tracing_tree::field::{Field, Fields};
use tracing_tree::format::{Context, Id, Refusal, Tape};
use tracing_tree::registry::{Attributes, Event, Parent};
use tracing_tree::style::Level;
use tracing_tree::text::Text;
use tracing_tree::time::Moment;
use tracing_tree::{Call, HierarchicalLayer, Layered, Reply};

fn here(current: Option<Id>) -> Context {
    let moment = Moment {
        mono: 0,
        wall: Timestamp::UNIX_EPOCH,
    };
    Context {
        current,
        thread_id: 1,
        thread_name: None,
        moment,
    }
}

fn serve(alloc: Global, layered: &mut Layered<Tape, ()>) -> Result<(), Refusal> {
    let server = Attributes {
        name: Text::from_str(alloc, "server")?,
        target: Text::from_str(alloc, "web")?,
        parent: Parent::Root,
        fields: Fields::new(alloc),
    };
    let Reply::Span(id) = layered.call(Call::New(server, here(None)))? else {
        return Ok(());
    };
    let started = Event {
        level: Level::Info,
        target: Text::from_str(alloc, "web")?,
        parent: Parent::Current,
        fields: Fields::from(vec![in alloc; Field::rendered(alloc, "message", "starting")?]?),
    };
    layered.call(Call::Event(started, here(Some(id))))?;
    layered.call(Call::Close(id, here(None)))?;
    Ok(())
}

#[test]
fn draws_the_readme(rt: HostRuntime) -> Result<(), Fail> {
    let alloc = rt.alloc();
    let layer = HierarchicalLayer::new(alloc, 2, false, Tape::new(alloc)).with_indent_lines(true);
    let mut layered = Layered::new(alloc, layer);
    assert_eq!(rt; serve(alloc, &mut layered), Ok(()));
    assert_eq!(rt;
        layered.writer().bytes(),
        "┐server \n├─ INFO starting\n┘\n".as_bytes()
    );
    Ok(())
}
