//! Calls on a layer without a registry, over each kind of live spans.

use std::alloc::Global;
use tracing_tree::call::Call;
use tracing_tree::format::{Context, Id, Refusal, Tape};
use tracing_tree::layer::HierarchicalLayer;
use tracing_tree::registry::{Attributes, Event, LookupSpan, Record, Registry, Walked};

/// What both registries can do.
pub trait Keeps: LookupSpan {
    fn make(&mut self, attributes: Attributes, context: &Context) -> Result<Id, Refusal>;

    fn hold(&mut self, id: Id) -> Result<Id, Refusal>;

    fn list_closing(&self, alloc: Global, id: Id) -> Result<Vec<Id>, Refusal>;

    fn close(&mut self, id: Id) -> Result<bool, Refusal>;
}

impl Keeps for Registry {
    fn make(&mut self, attributes: Attributes, context: &Context) -> Result<Id, Refusal> {
        self.new_span(attributes, context)
    }

    fn hold(&mut self, id: Id) -> Result<Id, Refusal> {
        self.clone_span(id)
    }

    fn list_closing(&self, alloc: Global, id: Id) -> Result<Vec<Id>, Refusal> {
        self.closing(alloc, id)
    }

    fn close(&mut self, id: Id) -> Result<bool, Refusal> {
        self.try_close(id)
    }
}

impl Keeps for Walked {
    fn make(&mut self, attributes: Attributes, context: &Context) -> Result<Id, Refusal> {
        self.new_span(attributes, context)
    }

    fn hold(&mut self, id: Id) -> Result<Id, Refusal> {
        self.clone_span(id)
    }

    fn list_closing(&self, alloc: Global, id: Id) -> Result<Vec<Id>, Refusal> {
        self.closing(alloc, id)
    }

    fn close(&mut self, id: Id) -> Result<bool, Refusal> {
        self.try_close(id)
    }
}

// The calls on the layer are in separate functions without contracts: only what is drawn is tested.

type Layer = HierarchicalLayer<Tape, ()>;

fn open<S: Keeps>(
    layer: &mut Layer,
    spans: &mut S,
    attributes: Attributes,
    context: &Context,
) -> Result<(), Refusal> {
    let id = spans.make(attributes, context)?;
    layer.on_new_span(id, spans, context)
}

fn emit<S: Keeps>(
    layer: &mut Layer,
    spans: &mut S,
    event: &Event,
    context: &Context,
) -> Result<(), Refusal> {
    layer.on_event(event, spans, context)
}

fn record<S: Keeps>(
    layer: &mut Layer,
    spans: &mut S,
    id: Id,
    values: &Record,
) -> Result<(), Refusal> {
    layer.on_record(id, values, spans)
}

fn end<S: Keeps>(
    layer: &mut Layer,
    spans: &mut S,
    id: Id,
    context: &Context,
) -> Result<(), Refusal> {
    layer.on_close(id, spans, context)
}

// All that closes with this handle.
fn end_all<S: Keeps>(
    alloc: Global,
    layer: &mut Layer,
    spans: &mut S,
    id: Id,
    context: &Context,
) -> Result<(), Refusal> {
    for gone in spans.list_closing(alloc, id)? {
        end(layer, spans, gone, context)?;
    }
    spans.close(id)?;
    Ok(())
}

fn make<S: Keeps>(
    alloc: Global,
    layer: &mut Layer,
    spans: &mut S,
    call: Call,
) -> Result<(), Refusal> {
    match call {
        Call::New(attributes, context) => open(layer, spans, attributes, &context),
        Call::Clone(id) => match spans.hold(id) {
            Ok(_) => Ok(()),
            Err(refusal) => Err(refusal),
        },
        Call::Record(id, values) => record(layer, spans, id, &values),
        Call::Event(event, context) => emit(layer, spans, &event, &context),
        Call::Close(id, context) => end_all(alloc, layer, spans, id, &context),
    }
}

/// Makes the calls, one after another, over these spans, and returns the first refusal.
pub fn make_all<S: Keeps + Drop>(
    alloc: Global,
    layer: &mut Layer,
    mut spans: S,
    calls: Vec<Call>,
) -> Option<Refusal> {
    for call in calls {
        if let Err(refusal) = make(alloc, layer, &mut spans, call) {
            return Some(refusal);
        }
    }
    None
}
