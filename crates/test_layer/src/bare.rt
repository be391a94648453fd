//! Calls on a layer without a registry, over each kind of live spans.

use crate::calls::TREE;
use crate::lone::Lone;
use crate::retracing::{ALTERNATING, CHAIN, LATE, STRANGER};
use std::alloc::{AllocError, Global};
use std::process::Abort;
use std::test::*;
use test_support::{at, attributes, calls, recorded, run};
use tracing_tree::call::Call;
use tracing_tree::field::{Field, Fields};
use tracing_tree::format::{Context, Id, Refusal, Tape};
use tracing_tree::layer::HierarchicalLayer;
use tracing_tree::layered::Layered;
use tracing_tree::registry::{Attributes, Event, LookupSpan, Parent, Record, Registry, Walked};
use tracing_tree::style::Level;
use tracing_tree::text::Text;

// What both registries can do.
trait Keeps: LookupSpan {
    fn make(&mut self, attributes: Attributes, context: &Context) -> Result<Id, Refusal>;

    fn list_closing(&self, alloc: Global, id: Id) -> Result<Vec<Id>, Refusal>;

    fn close(&mut self, id: Id) -> Result<bool, Refusal>;
}

impl Keeps for Registry {
    fn make(&mut self, attributes: Attributes, context: &Context) -> Result<Id, Refusal> {
        self.new_span(attributes, context)
    }

    fn list_closing(&self, alloc: Global, id: Id) -> Result<Vec<Id>, Refusal> {
        self.closing(alloc, id)
    }

    fn close(&mut self, id: Id) -> Result<bool, Refusal> {
        self.try_close(id)
    }
}

impl Keeps for Walked {
    fn make(&mut self, attributes: Attributes, context: &Context) -> Result<Id, Refusal> {
        self.new_span(attributes, context)
    }

    fn list_closing(&self, alloc: Global, id: Id) -> Result<Vec<Id>, Refusal> {
        self.closing(alloc, id)
    }

    fn close(&mut self, id: Id) -> Result<bool, Refusal> {
        self.try_close(id)
    }
}

// Returns a layer over memory, with lines, of this amount.
fn layer(alloc: Global, amount: usize) -> HierarchicalLayer<Tape, ()> {
    HierarchicalLayer::new(alloc, amount, false, Tape::new(alloc)).with_indent_lines(true)
}

// Returns what was written.
fn text(layer: &HierarchicalLayer<Tape, ()>) -> &[u8] {
    layer.writer().bytes()
}

// One call, by calls of the registry and of the layer.
fn call<S: Keeps>(
    alloc: Global,
    layer: &mut HierarchicalLayer<Tape, ()>,
    spans: &mut S,
    call: Call,
) -> Result<(), Refusal> {
    match call {
        Call::New(attributes, context) => {
            let id = spans.make(attributes, &context)?;
            layer.on_new_span(id, spans, &context)
        }
        Call::Clone(_) => Ok(()),
        Call::Record(id, values) => layer.on_record(id, &values, spans),
        Call::Event(event, context) => layer.on_event(&event, spans, &context),
        Call::Close(id, context) => {
            for gone in spans.list_closing(alloc, id)? {
                layer.on_close(gone, spans, &context)?;
            }
            spans.close(id)?;
            Ok(())
        }
    }
}

// The calls, one after another, over these spans.
fn call_each<S: Keeps>(
    alloc: Global,
    layer: &mut HierarchicalLayer<Tape, ()>,
    spans: &mut S,
    calls: Vec<Call>,
) -> Result<(), Refusal> {
    for next in calls {
        call(alloc, layer, spans, next)?;
    }
    Ok(())
}

// Checks that the calls of a case, made one after another, draw its text over these spans.
fn draws_over<S: Keeps + Drop>(
    rt: &impl Abort,
    alloc: Global,
    mut spans: S,
    case: Case,
) -> Result<(), Fail> {
    let mut layer = case.layer(alloc);
    let calls = case.calls(alloc)?;
    assert_eq!(rt; call_each(alloc, &mut layer, &mut spans, calls), Ok(()));
    assert_eq!(rt; text(&layer), case.text().as_bytes());
    Ok(())
}

// Returns a registry with the layer of a case, or `None` if that isn't fresh.
fn layered(alloc: Global, case: Case) -> Result<Option<Box<Layered<Tape, ()>>>, AllocError> {
    let layer = case.layer(alloc);
    if layer.is_fresh() {
        Ok(Some(Box::new(alloc, Layered::new(alloc, layer))?))
    } else {
        Ok(None)
    }
}

// They draw it as one run.
fn draws_as_a_run(rt: &impl Abort, alloc: Global, case: Case) -> Result<(), Fail> {
    let mut layered = layered(alloc, case)?.ok_or("not fresh")?;
    let answers = run(alloc, &mut layered, case.calls(alloc)?)?;
    assert_eq!(rt; answers.iter().all(|answer| answer.is_ok()), true);
    assert_eq!(rt; text(layered.layer()), case.text().as_bytes());
    Ok(())
}

// Settings, calls, and what they draw.
#[derive(Clone, Copy)]
enum Case {
    // Two spans, an event, and both closed.
    Nested,

    // Spans that wait for an event; a sibling that closes unseen.
    Deferred,

    // Two roots whose events alternate.
    Alternating,

    // A close off the last path.
    Stranger,

    // Deferred spans, the second shown below its parent.
    Fresh,

    // Two jobs that run side by side, with threads and targets.
    Concurrent,
}

impl Case {
    fn layer(self, alloc: Global) -> HierarchicalLayer<Tape, ()> {
        match self {
            Case::Nested => layer(alloc, 2),
            Case::Deferred => layer(alloc, 2).with_deferred_spans(true),
            Case::Alternating | Case::Stranger => layer(alloc, 2).with_span_retrace(true),
            Case::Fresh => layer(alloc, 4)
                .with_deferred_spans(true)
                .with_verbose_entry(true),
            Case::Concurrent => layer(alloc, 4)
                .with_thread_names(true)
                .with_thread_ids(true)
                .with_span_retrace(true)
                .with_verbose_entry(true)
                .with_targets(true),
        }
    }

    fn calls(self, alloc: Global) -> Result<Vec<Call>, AllocError> {
        match self {
            Case::Nested => calls(alloc, TREE.as_slice()),
            Case::Deferred => calls(alloc, CHAIN.as_slice()),
            Case::Alternating => calls(alloc, ALTERNATING.as_slice()),
            Case::Stranger => calls(alloc, STRANGER.as_slice()),
            Case::Fresh => calls(alloc, LATE.as_slice()),
            Case::Concurrent => concurrent(alloc),
        }
    }

    fn text(self) -> &'static str {
        match self {
            Case::Nested => "┐a \n└─┐b \n  ├─ WARN x\n┌─┘\n┘\n",
            Case::Deferred => "┐a \n└─┐b \n  ├─ INFO x\n",
            Case::Alternating => "┐a \n┐b \n┐a \n├─ INFO x\n┐b \n├─ INFO y\n",
            Case::Stranger => "┐a \n└─┐b \n┐c \n┌─┘\n├─ INFO x\n",
            Case::Fresh => "┐a \n├─── INFO x\n└─┐a \n  └─┐b \n    ├─── INFO y\n",
            Case::Concurrent => CONCURRENT,
        }
    }
}

// What the Rust crate's example `concurrent_eager` draws.
const CONCURRENT: &str = "\
1:main┐concurrent_eager::spawn_fut key=\"a\"
1:main┐concurrent_eager::spawn_fut key=\"b\"
1:main┐concurrent_eager::spawn_fut key=\"a\"
1:main└───┐concurrent_eager::a 
1:main┐concurrent_eager::spawn_fut key=\"b\"
1:main└───┐concurrent_eager::b 
1:main┐concurrent_eager::spawn_fut key=\"a\"
1:main└───┐concurrent_eager::a 
1:main    ├─── INFO concurrent_eager a
1:main┌───┘
1:main┐concurrent_eager::spawn_fut key=\"b\"
1:main└───┐concurrent_eager::b 
1:main    ├─── INFO concurrent_eager b
1:main┌───┘
1:main┘
1:main┘
";

// A call of one of two jobs, on the thread main.
#[derive(Clone, Copy)]
enum JobStep {
    // A new span below this one.
    Enter(&'static str, u64),

    // An event with this message, in this span.
    Emit(&'static str, u64),

    // The end of a span.
    Close(u64),
}

// The calls of the Rust crate's example `concurrent_eager` after its two roots.
const JOB_STEPS: [JobStep; 8] = [
    JobStep::Enter("a", 1),
    JobStep::Enter("b", 2),
    JobStep::Emit("a", 3),
    JobStep::Close(3),
    JobStep::Emit("b", 4),
    JobStep::Close(4),
    JobStep::Close(2),
    JobStep::Close(1),
];

impl JobStep {
    fn call(self, alloc: Global) -> Result<Call, AllocError> {
        match self {
            JobStep::Enter(name, parent) => spawned(alloc, name, Fields::new(alloc), Some(parent)),
            JobStep::Emit(message, span) => happened(alloc, message, span),
            JobStep::Close(id) => Ok(Call::Close(Id(id), on_main(alloc, None)?)),
        }
    }
}

// Returns a new root for a job.
fn job(alloc: Global, key: Field) -> Result<Call, AllocError> {
    let fields = vec![in alloc; key]?;
    spawned(alloc, "spawn_fut", Fields::from(fields), None)
}

// Returns the calls of the Rust crate's example `concurrent_eager`.
fn concurrent(alloc: Global) -> Result<Vec<Call>, AllocError> {
    let mut calls = Vec::new(alloc);
    calls.push(job(alloc, Field::text(alloc, "key", "a")?)?)?;
    calls.push(job(alloc, Field::text(alloc, "key", "b")?)?)?;
    for step in JOB_STEPS {
        calls.push(step.call(alloc)?)?;
    }
    Ok(calls)
}

// Returns the context of the thread main.
fn on_main(alloc: Global, current: Option<u64>) -> Result<Context, AllocError> {
    let mut context = at(current);
    context.thread_name = Some(Text::from_str(alloc, "main")?);
    Ok(context)
}

fn spawned(
    alloc: Global,
    name: &str,
    fields: Fields,
    current: Option<u64>,
) -> Result<Call, AllocError> {
    Ok(Call::New(
        Attributes {
            name: Text::from_str(alloc, name)?,
            target: Text::from_str(alloc, "concurrent_eager")?,
            parent: Parent::Current,
            fields,
        },
        on_main(alloc, current)?,
    ))
}

fn happened(alloc: Global, message: &str, current: u64) -> Result<Call, AllocError> {
    Ok(Call::Event(
        Event {
            level: Level::Info,
            target: Text::from_str(alloc, "concurrent_eager")?,
            parent: Parent::Current,
            fields: recorded(alloc, "message", message)?,
        },
        on_main(alloc, Some(current))?,
    ))
}

// Checks that the calls draw their text over a registry that stores paths, over one that walks
// them, and as one run.
fn draws_everywhere(rt: &impl Abort, alloc: Global, case: Case) -> Result<(), Fail> {
    draws_over(rt, alloc, Registry::new(alloc), case)?;
    draws_over(rt, alloc, Walked::new(alloc), case)?;
    draws_as_a_run(rt, alloc, case)
}

#[test]
fn draws_nested_spans(rt: HostRuntime) -> Result<(), Fail> {
    draws_everywhere(&rt, rt.alloc(), Case::Nested)
}

#[test]
fn draws_deferred_spans(rt: HostRuntime) -> Result<(), Fail> {
    draws_everywhere(&rt, rt.alloc(), Case::Deferred)
}

#[test]
fn draws_alternating_spans(rt: HostRuntime) -> Result<(), Fail> {
    draws_everywhere(&rt, rt.alloc(), Case::Alternating)
}

#[test]
fn draws_a_close_off_the_last_path(rt: HostRuntime) -> Result<(), Fail> {
    draws_everywhere(&rt, rt.alloc(), Case::Stranger)
}

#[test]
fn draws_fresh_spans_below_their_parent(rt: HostRuntime) -> Result<(), Fail> {
    draws_everywhere(&rt, rt.alloc(), Case::Fresh)
}

#[test]
fn draws_concurrent_jobs(rt: HostRuntime) -> Result<(), Fail> {
    draws_everywhere(&rt, rt.alloc(), Case::Concurrent)
}

// A call on a layer without a registry, by the number of its span.
#[derive(Clone, Copy)]
enum Emitted {
    New(u64),
    Record(u64),
    Close(u64),
}

// Makes it on a layer over these spans.
fn emit<S: LookupSpan>(
    alloc: Global,
    layer: &mut HierarchicalLayer<Tape, ()>,
    spans: &mut S,
    emitted: Emitted,
) -> Result<(), Refusal> {
    match emitted {
        Emitted::New(id) => layer.on_new_span(Id(id), spans, &at(None)),
        Emitted::Close(id) => layer.on_close(Id(id), spans, &at(None)),
        Emitted::Record(id) => {
            let values = Record {
                fields: recorded(alloc, "k", "1")?,
            };
            layer.on_record(Id(id), &values, spans)
        }
    }
}

// Calls made in turn, and their answers.
const OF_ONE_ROOT: [(Emitted, Result<(), Refusal>); 7] = [
    (Emitted::New(1), Ok(())),
    (Emitted::Record(1), Ok(())),
    (Emitted::Record(9), Ok(())),
    (Emitted::Close(9), Err(Refusal::NotHeld(Id(9)))),
    (Emitted::New(9), Err(Refusal::NotHeld(Id(9)))),
    (Emitted::Close(1), Ok(())),
    (Emitted::Close(1), Ok(())),
];

// Makes each call in turn, and compares its answer. After each call the layer is no longer fresh.
fn emits_each<S: LookupSpan>(
    rt: &impl Abort,
    alloc: Global,
    layer: &mut HierarchicalLayer<Tape, ()>,
    spans: &mut S,
) {
    for (emitted, wanted) in OF_ONE_ROOT {
        assert_eq!(rt; emit(alloc, layer, spans, emitted), wanted);
        assert_eq!(rt; layer.is_fresh(), false);
    }
}

// Returns a registry with a root that no layer has drawn.
fn rooted(alloc: Global) -> Result<Registry, Fail> {
    let mut registry = Registry::new(alloc);
    let root = attributes(alloc, "a", Parent::Root)?;
    match registry.new_span(root, &at(None)) {
        Ok(_) => Ok(registry),
        Err(_) => Err(Fail::from("the root is refused")),
    }
}

#[test]
fn draws_over_a_registry_alone(rt: HostRuntime) -> Result<(), Fail> {
    let alloc = rt.alloc();
    let mut registry = rooted(alloc)?;
    let mut layer = layer(alloc, 2);
    emits_each(&rt, alloc, &mut layer, &mut registry);
    assert_eq!(rt; text(&layer), "┐a \n┘\n┘\n".as_bytes());
    Ok(())
}

#[test]
fn draws_over_a_registry_of_ones_own(rt: HostRuntime) -> Result<(), Fail> {
    let alloc = rt.alloc();
    let mut lone = Lone::new(alloc, "a")?;
    let mut layer = layer(alloc, 2).with_verbose_exit(true);
    assert_eq!(rt; layer.is_fresh(), true);
    emits_each(&rt, alloc, &mut layer, &mut lone);
    assert_eq!(rt; text(&layer), "┐a \n┘a k=1\n┘a k=1\n".as_bytes());
    Ok(())
}

#[test]
fn writes_to_another_writer(rt: HostRuntime) -> Result<(), Fail> {
    let alloc = rt.alloc();
    let mut lone = Lone::new(alloc, "a")?;
    let mut layer = layer(alloc, 2);
    assert_eq!(rt; emit(alloc, &mut layer, &mut lone, Emitted::New(1)), Ok(()));
    let mut layer = layer.with_writer(Tape::new(alloc));
    assert_eq!(rt;
        emit(alloc, &mut layer, &mut lone, Emitted::Close(1)),
        Ok(())
    );
    assert_eq!(rt; text(&layer), "┘\n".as_bytes());
    Ok(())
}
