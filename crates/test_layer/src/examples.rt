//! The examples in the docs of the main types, line for line, as `scripts/examples.py` sees to.

use std::alloc::{AllocError, Global};
use std::test::*;
use test_support::{Step, at, attributes, lined_over};
use tracing_tree::format::{Config, Context, Id, Output, OutputFault, Refusal, Tape};
use tracing_tree::registry::{Attributes, LookupSpan, Parent, Registry};
use tracing_tree::rows::{ReadFault, Row, Shape, read_rows};
use tracing_tree::style::Level;
use tracing_tree::time::{FormatTime, Moment, TimeFault};
use tracing_tree::{Call, HierarchicalLayer, Layered, Reply};

fn config(alloc: Global) -> HierarchicalLayer<Tape, ()> {
    let config = Config::new(4, false)
        .with_indent_lines(true)
        .with_targets(true);
    HierarchicalLayer::with_config(alloc, config, Tape::new(alloc))
}

#[test]
fn sets_what_a_layer_draws(rt: HostRuntime) -> Result<(), Fail> {
    let layer = config(rt.alloc());
    assert_eq!(rt; layer.config().indent_amount(), 4);
    assert_eq!(rt; layer.config().targets(), true);
    Ok(())
}

// One root, drawn as it opens and as it closes.
fn layered(
    alloc: Global,
    root: Attributes,
    here: Context,
    later: Context,
) -> Result<Layered<Tape, ()>, Refusal> {
    let layer = HierarchicalLayer::new(alloc, 2, false, Tape::new(alloc)).with_indent_lines(true);
    let mut layered = Layered::new(alloc, layer);
    if let Reply::Span(id) = layered.call(Call::New(root, here))? {
        layered.call(Call::Close(id, later))?;
    }
    Ok(layered)
}

#[test]
fn makes_calls(rt: HostRuntime) -> Result<(), Fail> {
    let alloc = rt.alloc();
    let root = attributes(alloc, "a", Parent::Root)?;
    let Ok(layered) = layered(alloc, root, at(None), at(None)) else {
        return Err(Fail::from("refused"));
    };
    assert_eq!(rt; layered.writer().bytes(), "┐a \n┘\n".as_bytes());
    Ok(())
}

// Draws a root with a separate registry and layer.
fn bare(
    alloc: Global,
    root: Attributes,
    here: &Context,
) -> Result<(Registry, HierarchicalLayer<Tape, ()>), Refusal> {
    let layer = HierarchicalLayer::new(alloc, 2, false, Tape::new(alloc));
    let mut layer = layer.with_indent_lines(true);
    let mut spans = Registry::new(alloc);
    let id = spans.new_span(root, here)?;
    layer.on_new_span(id, &mut spans, here)?;
    layer.on_close(id, &mut spans, here)?;
    spans.try_close(id)?;
    Ok((spans, layer))
}

#[test]
fn draws_by_a_layer_alone(rt: HostRuntime) -> Result<(), Fail> {
    let alloc = rt.alloc();
    let root = attributes(alloc, "a", Parent::Root)?;
    let Ok((_spans, layer)) = bare(alloc, root, &at(None)) else {
        return Err(Fail::from("refused"));
    };
    assert_eq!(rt; layer.writer().bytes(), "┐a \n┘\n".as_bytes());
    Ok(())
}

// A child keeps its parent live, until it closes itself.
fn registry(
    alloc: Global,
    root: Attributes,
    child: Attributes,
    here: &Context,
) -> Result<Registry, Refusal> {
    let mut spans = Registry::new(alloc);
    let parent = spans.new_span(root, here)?;
    let id = spans.new_span(child, here)?; // below `Parent::Of(parent)`
    spans.try_close(parent)?; // false: the child is live
    spans.try_close(id)?; // true: both are removed
    Ok(spans)
}

#[test]
fn keeps_spans(rt: HostRuntime) -> Result<(), Fail> {
    let alloc = rt.alloc();
    let root = attributes(alloc, "a", Parent::Root)?;
    let child = attributes(alloc, "b", Parent::Of(Id(1)))?;
    let Ok(spans) = registry(alloc, root, child, &at(None)) else {
        return Err(Fail::from("refused"));
    };
    assert_eq!(rt; spans.next_id(), Some(Id(3)));
    assert!(rt; spans.span(Id(1)).is_none());
    assert!(rt; spans.span(Id(2)).is_none());
    Ok(())
}

fn rows(alloc: Global) -> Result<Vec<Row>, ReadFault> {
    read_rows(alloc, "┐a\n├─ INFO x\n┘\n", 2) // `OpenRoot`, `Event` of level 1, `CloseRoot`
}

#[test]
fn reads_a_drawing(rt: HostRuntime) -> Result<(), Fail> {
    let Ok(rows) = rows(rt.alloc()) else {
        return Err(Fail::from("not read"));
    };
    let shapes = [Shape::OpenRoot, Shape::Event, Shape::CloseRoot];
    assert!(rt;
        rows.iter()
            .map(|row| row.shape())
            .eq(shapes.iter().copied())
    );
    Ok(())
}

#[derive(Drop)]
struct Star;

impl FormatTime for Star {
    ghost use Rattle.std.specs.Prelude.{[], Some, codes};

    ghost timer = { λ _. record {
      moment_text = λ moment. Some (codes "*");
      elapsed_text = λ ansi nanos. Some [];
    } };

    fn format_time(&self, _moment: &Moment, out: &mut String) -> Result<(), TimeFault> {
        out.push_str("*").map_err(|_: AllocError| TimeFault::Memory)
    }

    fn style_timestamp(
        &self,
        _ansi: bool,
        _nanos: u64,
        _out: &mut String,
    ) -> Result<(), TimeFault> {
        Ok(())
    }
}

// Returns an event outside every span, with a star before it.
fn starred(alloc: Global) -> Result<Layered<Tape, Star>, Refusal> {
    let layer = HierarchicalLayer::new(alloc, 2, false, Tape::new(alloc)).with_timer(Star);
    let mut layered = Layered::new(alloc, layer);
    layered.call(Step::Event(Level::Info, "x", None).call(alloc)?)?;
    Ok(layered)
}

#[test]
fn shows_the_time_by_a_timer_of_ones_own(rt: HostRuntime) -> Result<(), Fail> {
    let Ok(layered) = starred(rt.alloc()) else {
        return Err(Fail::from("refused"));
    };
    assert_eq!(rt; layered.writer().bytes(), " * INFO x\n".as_bytes());
    Ok(())
}

#[derive(Drop)]
struct Counter {
    bytes: usize,
}

impl Output for Counter {
    ghost use Rattle.std.specs.Prelude.{None, true};

    ghost contents = { λ _. None };

    ghost fault_count = { λ _. 0 };

    ghost WHOLE = { true };

    const WHOLE: bool = true;

    fn write(&mut self, bytes: &[u8]) -> Result<usize, OutputFault> {
        self.bytes = self.bytes.saturating_add(bytes.len());
        Ok(bytes.len())
    }

    fn faults(&self) -> u64 {
        0
    }

    fn flush(&mut self) {}
}

#[test]
fn writes_to_an_output_of_ones_own(rt: HostRuntime) -> Result<(), Fail> {
    let alloc = rt.alloc();
    let mut layered = lined_over(alloc, Counter { bytes: 0 })?;
    let event = Step::Event(Level::Info, "x", None).call(alloc)?;
    assert_eq!(rt; layered.call(event), Ok(Reply::Done));
    assert_eq!(rt; layered.writer().bytes, "INFO x\n".len());
    Ok(())
}
