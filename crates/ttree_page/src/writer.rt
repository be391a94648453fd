//! A receiver of calls that writes lines.

ghost use Rattle.std.specs.Prelude.{◌≡◌, ◌++◌, IfErr, OnOk, map, string_bytes};
ghost use Rattle.tracing_tree_layer.specs.Layered.Answered.{Writes};
ghost use Rattle.tracing_tree_layer.specs.Replies.{answer_as, cloned, closed, done, span};
ghost use Rattle.tracing_tree_output.specs.Writers.{seen_writer};
ghost use Rattle.ttree_page.specs.Lines.{step_line};
ghost use Rattle.ttree_page.specs.Reading.{AreCutLinesRead, AreLinesRead, AreLinesReadBack, IsEachLineRead, IsEachLineReadBack};
ghost use Rattle.ttree_page.specs.Runs.{EndsPage, RunsWritePrefixes};
ghost use Rattle.ttree_page.specs.Steps.{About, End, close_step};
ghost use Rattle.ttree_page.specs.Writing.{Answers, AreLinesHarmless, IsFree, WritesBytes, lines_of, seen_steps};
ghost use Rattle.tracing_tree_spans.specs.Registry.Forest.{empty_forest, if_live, is_live};
ghost use Rattle.tracing_tree_spans.specs.Registry.Ids.{id_of};
ghost use Rattle.tracing_tree_base.specs.Extended.{IsExtended};

use crate::form::LineForm;
use crate::line::{push_about, push_close, push_event, push_finish, push_new, push_record};
use std::alloc::{AllocError, Global};
use std::marker::Model;
use tracing_tree_base::{Context, Id, Refusal};
use tracing_tree_layer::call::{Call, Reply};
use tracing_tree_layer::calls::Calls;
use tracing_tree_layer::parts::EventParts;
use tracing_tree_output::{Output, write_whole};
use tracing_tree_spans::registry::{Attributes, Event, LookupSpan, Record, Registry};

/// A receiver of calls that writes a line for each step: for a new span, for fields that are
/// recorded later, for an event, and for each span that closes.
///
/// Between calls it keeps only the live spans. A refused call leaves them unchanged. A call is
/// refused with `NotHeld` or `TooMany` as by a layer, with `Memory` if an allocation fails, and
/// with `Writer` if the output fails. After `Writer`, a prefix of the call's lines may have been
/// written, and each later call is refused with `Failed`.
#[derive(Drop)]
pub struct StepWriter<W: Output> {
    form: LineForm,
    registry: Registry,
    writer: W,
    // The spans that a close removes, and the lines of a call. Kept so that they are allocated
    // once.
    closing: Vec<Id>,
    text: String,
}

impl<W: Output> Model for StepWriter<W> {
    ghost use Rattle.ttree_page.specs.Writing.{StepWriterView};

    ghost Value = { StepWriterView W };

    ghost view = { λ p. record { form = p.form; forest = p.registry; writer = p.writer } };
}

impl<W: Output> StepWriter<W> {
    /// Returns a writer without spans. The first id is 1. Never allocates.
    pub fn new(alloc: Global, form: LineForm, writer: W) -> StepWriter<W>
        ensures { result
            ≡ record { form = form; forest = empty_forest (id_of 1); writer = writer } }
    {
        StepWriter {
            form,
            registry: Registry::new(alloc),
            writer,
            closing: Vec::new(alloc),
            text: String::new(alloc),
        }
    }

    /// Writes the first bytes of a run, before any call: the head, unchanged, and the line with the
    /// title.
    ///
    /// # Errors
    ///
    /// `Memory` if an allocation fails, `Writer` if the output fails, `Failed` after that. After
    /// `Writer`, a prefix of these bytes may have been written.
    #[tactic(auto, using(crate::proofs::Harmless::lines_are_harmless, crate::proofs::Prefixes::runs_write_prefixes, crate::proofs::ReadLines::step_read, crate::proofs::ReadFiles::lines_are_read, crate::proofs::ReadFiles::cut_lines_are_read, crate::proofs::ReadLines::line_read, crate::proofs::ReadLines::lines_read))]
    pub fn begin(&mut self, head: &str, title: &str) -> Result<(), Refusal>
        ensures written { WritesBytes (head.now ++ step_line self.old.form (About title.now)) result
            (seen_steps W.Output self.old) (seen_steps W.Output self.new) }
        ensures harmless { AreLinesHarmless }
        ensures prefixes { RunsWritePrefixes }
        ensures read { IsEachLineRead }
        ensures all_read { AreLinesRead }
        ensures cut_read { AreCutLinesRead }
        ensures line_read { IsEachLineReadBack }
        ensures lines_read { AreLinesReadBack }
    {
        if self.writer.faults() > 0 {
            return Err(Refusal::Failed);
        }
        self.text.clear();
        self.text.push_str(head)?;
        push_about(&mut self.text, self.form, title)?;
        send(&mut self.text, &mut self.writer)
    }

    /// Writes the last bytes of a run, after all calls: the last line, and the tail, unchanged.
    /// With what was written since [`StepWriter::begin`], they are a page.
    ///
    /// # Errors
    ///
    /// As for [`StepWriter::begin`].
    #[tactic(auto, using(crate::proofs::Runs::ends_page))]
    pub fn end(&mut self, tail: &str) -> Result<(), Refusal>
        ensures written { WritesBytes (step_line self.old.form End ++ tail.now) result
            (seen_steps W.Output self.old) (seen_steps W.Output self.new) }
        ensures page { EndsPage tail.now result
            (seen_steps W.Output self.old) (seen_steps W.Output self.new) }
    {
        if self.writer.faults() > 0 {
            return Err(Refusal::Failed);
        }
        self.text.clear();
        push_finish(&mut self.text, self.form)?;
        self.text.push_str(tail)?;
        send(&mut self.text, &mut self.writer)
    }

    // Writes the line of an event.
    fn write_event(&mut self, event: &Event, context: &Context) -> Result<(), Refusal>
        ensures { Answers (Call.Event event.now context.now) (answer_as done result)
            (seen_steps W.Output self.old) (seen_steps W.Output self.new) }
    {
        if self.writer.faults() > 0 {
            return Err(Refusal::Failed);
        }
        let parent = if_live(&self.registry, event.parent.named(context.current));
        let current = if_live(&self.registry, context.current);
        self.text.clear();
        push_event(&mut self.text, self.form, context, parent, current, event)?;
        send(&mut self.text, &mut self.writer)
    }

    /// Returns the output, which has all that was written.
    pub fn writer(&self) -> &W
        ensures { result.now ≡ self.now.writer }
    {
        &self.writer
    }

    /// Returns the output, and drops the spans.
    pub fn into_writer(self) -> W
        ensures { result ≡ self.writer }
    {
        self.writer
    }

    /// Returns the live spans.
    pub fn registry(&self) -> &Registry
        ensures { result.now ≡ self.now.forest }
    {
        &self.registry
    }
}

impl<W: Output> Calls for StepWriter<W> {
    ghost use Rattle.ttree_page.specs.Writing.{Answers, PassesOn, seen_steps};

    ghost answers = { λ call answer old new.
        Answers call answer (seen_steps W.Output old) (seen_steps W.Output new) };

    ghost flushes = { λ old new. PassesOn (seen_steps W.Output old) (seen_steps W.Output new) };

    fn call(&mut self, call: Call) -> Result<Reply, Refusal> {
        match call {
            Call::New(attributes, context) => {
                Ok(Reply::Span(self.new_span(attributes, &context)?))
            }
            Call::Clone(id) => Ok(Reply::Cloned(self.clone_span(id)?)),
            Call::Record(id, values) => {
                self.record(id, values)?;
                Ok(Reply::Done)
            }
            Call::Event(event, context) => {
                self.write_event(&event, &context)?;
                Ok(Reply::Done)
            }
            Call::Close(id, context) => Ok(Reply::Closed(self.close(id, &context)?)),
        }
    }

    #[tactic(auto, using(crate::proofs::Refusals::new_refused, crate::proofs::Refusals::id_free, crate::proofs::Refusals::id_refused))]
    fn new_span(&mut self, attributes: Attributes, context: &Context) -> Result<Id, Refusal> {
        if self.writer.faults() > 0 {
            drop(attributes);
            return Err(Refusal::Failed);
        }
        let id = match free_id(&self.registry, &attributes, context) {
            Ok(id) => id,
            Err(refusal) => {
                drop(attributes);
                return Err(refusal);
            }
        };
        self.text.clear();
        push_new(&mut self.text, self.form, context, id, &attributes)?;
        let id = self.registry.new_span(attributes, context)?;
        if let Err(refusal) = send(&mut self.text, &mut self.writer) {
            self.registry.take_back(id);
            return Err(refusal);
        }
        Ok(id)
    }

    #[tactic(auto, using(crate::proofs::Refusals::clone_refused))]
    fn clone_span(&mut self, id: Id) -> Result<Id, Refusal> {
        if self.writer.faults() > 0 {
            return Err(Refusal::Failed);
        }
        self.registry.clone_span(id)
    }

    fn record(&mut self, id: Id, values: Record) -> Result<(), Refusal> {
        if self.writer.faults() > 0 {
            drop(values);
            return Err(Refusal::Failed);
        }
        if !is_live(&self.registry, id) {
            return Ok(());
        }
        self.text.clear();
        push_record(&mut self.text, self.form, id, values.fields.as_slice())?;
        send(&mut self.text, &mut self.writer)
    }

    fn event<E: EventParts>(&mut self, event: &E, context: &Context) -> Result<(), Refusal> {
        if self.writer.faults() > 0 {
            return Err(Refusal::Failed);
        }
        let event = event.to_event(*self.closing.allocator())?;
        self.write_event(&event, context)
    }

    #[tactic(auto, using(crate::proofs::Refusals::close_refused, crate::proofs::Refusals::closes_some))]
    fn close(&mut self, id: Id, context: &Context) -> Result<bool, Refusal> {
        if self.writer.faults() > 0 {
            return Err(Refusal::Failed);
        }
        self.registry.closing_into(id, &mut self.closing)?;
        let ids = self.closing.as_slice();
        if !ids.is_empty() {
            self.text.clear();
            push_closes(&mut self.text, self.form, context, ids)?;
            send(&mut self.text, &mut self.writer)?;
        }
        Ok(self.registry.close_listed(id, ids))
    }

    fn flush(&mut self) {
        self.writer.flush();
    }
}

// Appends the lines of spans that close. After an error, a prefix of them may have been appended.
fn push_closes(
    out: &mut String,
    form: LineForm,
    context: &Context,
    ids: &[Id],
) -> Result<(), AllocError>
    ensures { OnOk result (string_bytes out.new
        ≡ string_bytes out.old ++ lines_of form (map (close_step context.now) ids.now)) }
{
    for id in ids {
        push_close(out, form, context, *id)?;
    }
    Ok(())
}

// Returns the id of the next span. `NotHeld` if its parent isn't live, `TooMany` if no id is left.
fn free_id(registry: &Registry, attributes: &Attributes, context: &Context) -> Result<Id, Refusal>
    ensures { IsFree attributes.now context.now result registry.now }
{
    if let Some(id) = attributes.parent.named(context.current) {
        if !is_live(registry, id) {
            return Err(Refusal::NotHeld(id));
        }
    }
    match registry.next_id() {
        Some(id) => Ok(id),
        None => Err(Refusal::TooMany),
    }
}

// Returns the id, if there is one and it is live.
fn if_live(registry: &Registry, id: Option<Id>) -> Option<Id>
    ensures { result ≡ if_live registry.now id }
{
    let id = id?;
    if is_live(registry, id) {
        Some(id)
    } else {
        None
    }
}

// Returns whether a span is live.
fn is_live(registry: &Registry, id: Id) -> bool
    ensures { result ≡ is_live registry.now id }
{
    registry.kept_path(id).is_some()
}

// Writes a string.
fn send<W: Output>(text: &mut String, writer: &mut W) -> Result<(), Refusal>
    requires { W.fault_count writer.old ≡ 0 }
    ensures written { Writes (string_bytes text.old) result
        (seen_writer W.Output writer.old) (seen_writer W.Output writer.new) }
    ensures err { IfErr result (λ refusal. refusal ≡ Refusal.Writer) }
{
    match write_whole(text, writer) {
        Ok(()) => Ok(()),
        Err(_) => Err(Refusal::Writer),
    }
}
