//! Reports a test or a package: its lines, its span and its end.

ghost use Rattle.std.specs.Prelude.{◌≡◌, ◌++◌, ◌∷◌, [], IfOk, OnOk, option_map};
ghost use Rattle.ttree_source.specs.Calls.{close_call};
ghost use Rattle.ttree_go_test.specs.GoTest.{cached_fields, coverage_fields, elapsed_fields, text_event_emitted, held_finished, frame_printed, framed, holds, level_of_line, line_reported, part_line_emitted, held_opened, more_printed, part_emitted, quiet_emitted, span_ended, string_printed, text_printed, emitted_with_last};

use super::GoTest;
use super::running::{Kind, Running};
use super::tally::Ending;
use super::text::{ends_line, is_frame, without_line_end};
use std::alloc::{AllocError, Global};
use tracing_tree_base::Id;
use tracing_tree_base::field::{Field, Fields};
use tracing_tree_base::style::Level;
use tracing_tree_base::text::Text;
use tracing_tree_layer::call::Call;
use tracing_tree_lines::lines::is_skipped;
use ttree_source::calls::{close_call, event_call, message_field, shown, span_call};

impl GoTest {
    // Takes a string of a test or its package.
    pub(super) fn print_string(
        &mut self,
        owner: &mut Running,
        kind: Kind,
        text: &str,
    ) -> Result<(), AllocError>
        ensures { OnOk result (holds owner.new self.new
            ≡ string_printed kind text.now (holds owner.old self.old)) }
    {
        if kind.is_framing(owner.test.as_str(), text) {
            return self.print_frame(owner, text);
        }
        self.print_text(owner, kind.is_failure(), text)
    }

    // Takes a frame, which ends the line before it.
    fn print_frame(&mut self, owner: &mut Running, text: &str) -> Result<(), AllocError>
        ensures { OnOk result (holds owner.new self.new
            ≡ frame_printed text.now (holds owner.old self.old)) }
    {
        self.emit_part(owner)?;
        self.frame(owner, without_line_end(text))
    }

    // Takes a string that isn't a frame.
    fn print_text(
        &mut self,
        owner: &mut Running,
        is_error: bool,
        text: &str,
    ) -> Result<(), AllocError>
        ensures { OnOk result (holds owner.new self.new
            ≡ text_printed is_error text.now (holds owner.old self.old)) }
    {
        if ends_line(text.as_bytes()) {
            return self.emit_ended(owner, is_error, text);
        }
        owner.add_to_part(self.alloc, is_error, text)
    }

    // Reports the line that this string ends. A string that is the whole line isn't copied.
    fn emit_ended(
        &mut self,
        owner: &mut Running,
        is_error: bool,
        text: &str,
    ) -> Result<(), AllocError>
        ensures { OnOk result (holds owner.new self.new
            ≡ part_line_emitted (more_printed is_error text.now (holds owner.old self.old))) }
    {
        if owner.part.as_str().is_empty() {
            let level = level_of_line(owner.is_error || is_error);
            owner.is_error = false;
            return self.emit_line(owner, level, text);
        }
        owner.add_to_part(self.alloc, is_error, text)?;
        self.emit_printed(owner)
    }

    // Reports the line that a test has printed, if there is one.
    pub(super) fn emit_part(&mut self, owner: &mut Running) -> Result<(), AllocError>
        ensures { OnOk result (holds owner.new self.new ≡ part_emitted (holds owner.old self.old)) }
    {
        if owner.part.as_str().is_empty() {
            return Ok(());
        }
        self.emit_printed(owner)
    }

    // Reports the line that a test has printed, unless it is only a frame.
    fn emit_printed(&mut self, owner: &mut Running) -> Result<(), AllocError>
        ensures { OnOk result (holds owner.new self.new
            ≡ part_line_emitted (holds owner.old self.old)) }
    {
        let level = level_of_line(owner.is_error);
        let part = owner.take_part(self.alloc)?;
        self.emit_line(owner, level, part.as_str())
    }

    // Reports this line of a test or package, unless it is only a frame.
    fn emit_line(&mut self, owner: &mut Running, level: Level, text: &str) -> Result<(), AllocError>
        ensures { OnOk result (holds owner.new self.new
            ≡ line_reported level text.now (holds owner.old self.old)) }
    {
        let line = without_line_end(text);
        if is_frame(owner.test.as_str(), line) {
            return self.frame(owner, line);
        }
        self.open(owner)?;
        self.push_event(level, line, owner.span)
    }

    // Takes a line that is only a frame. For a package it may say how the package ended.
    fn frame(&self, owner: &mut Running, line: &str) -> Result<(), AllocError>
        ensures { OnOk result (holds owner.new self.now
            ≡ framed line.now (holds owner.old self.now)) }
    {
        if owner.test.as_str().is_empty() {
            return owner.note(self.alloc, line);
        }
        Ok(())
    }

    // Ends a test or a package. If it has a span, its end is reported there and the span closes.
    // Otherwise its end is one event in the parent's span.
    pub(super) fn finish(
        &mut self,
        one: Running,
        ending: Ending,
        elapsed: Option<&str>,
    ) -> Result<(), AllocError>
        ensures { OnOk result (self.new
            ≡ held_finished ending (option_map (λ e. e.now) elapsed.entry)
            (holds one self.old)) }
    {
        let mut one = one;
        self.emit_part(&mut one)?;
        let mut rest = elapsed_fields(self.alloc, elapsed)?;
        push_notes(self.alloc, &one, &mut rest)?;
        self.end_span(&one, ending, rest)
    }

    // Reports the end with these fields.
    fn end_span(
        &mut self,
        one: &Running,
        ending: Ending,
        rest: Vec<Field>,
    ) -> Result<(), AllocError>
        ensures { OnOk result (self.new
            ≡ span_ended ending rest.items one.now.span (holds one.now self.old)) }
    {
        match one.span {
            Some(id) => {
                self.push_fields(ending.level(), ending.word(), rest, Some(id))?;
                self.push_close(id, one.parent)
            }
            None => self.push_quiet(ending, one.name.as_str(), rest, one.parent),
        }
    }

    // Closes a span in its parent.
    pub(super) fn push_close(&mut self, id: Id, parent: Option<Id>) -> Result<(), AllocError>
        ensures { OnOk result (self.new
            ≡ emitted_with_last parent (close_call self.old.moment id parent) self.old) }
    {
        self.push(parent, close_call(self.moment, id, parent))
    }

    // Reports the end of a test that printed nothing.
    pub(super) fn push_quiet(
        &mut self,
        ending: Ending,
        name: &str,
        rest: Vec<Field>,
        parent: Option<Id>,
    ) -> Result<(), AllocError>
        ensures { OnOk result (self.new
            ≡ quiet_emitted ending name.now rest.items parent self.old) }
    {
        let mut text = String::from_str(self.alloc, ending.word())?;
        text.push_str(" ")?;
        text.push_str(name)?;
        self.push_fields(ending.level(), text.as_str(), rest, parent)
    }

    // Records an event in this span, unless its message is blank.
    pub(super) fn push_event(
        &mut self,
        level: Level,
        text: &str,
        parent: Option<Id>,
    ) -> Result<(), AllocError>
        ensures { OnOk result (self.new ≡ text_event_emitted level text.now [] parent self.old) }
    {
        let rest = Vec::new(self.alloc);
        self.push_fields(level, text, rest, parent)
    }

    // Records an event with these further fields in this span, unless its message is blank.
    fn push_fields(
        &mut self,
        level: Level,
        text: &str,
        rest: Vec<Field>,
        parent: Option<Id>,
    ) -> Result<(), AllocError>
        ensures { OnOk result (self.new
            ≡ text_event_emitted level text.now rest.items parent self.old) }
    {
        if is_skipped(text.as_bytes()) {
            return Ok(());
        }
        let mut fields = Fields::one(self.alloc, message_field(self.alloc, text)?);
        fields.append(Fields::from(rest))?;
        let call = event_call(self.alloc, self.moment, level, fields, parent)?;
        self.push(parent, call)
    }

    // Adds a call, and makes `last` the span of the last call.
    fn push(&mut self, last: Option<Id>, call: Call) -> Result<(), AllocError>
        ensures { OnOk result (self.new ≡ emitted_with_last last call self.old) }
    {
        self.calls.push(call)?;
        self.last = last;
        Ok(())
    }

    // Opens the span of a test or package, unless it is open.
    pub(super) fn open(&mut self, one: &mut Running) -> Result<(), AllocError>
        ensures { OnOk result (holds one.new self.new ≡ held_opened (holds one.old self.old)) }
    {
        if one.span.is_some() {
            return Ok(());
        }
        let call = span_call(
            self.alloc,
            self.moment,
            one.name.as_str(),
            Fields::new(self.alloc),
            one.parent,
        )?;
        let span = Some(Id(self.next));
        self.push(span, call)?;
        one.span = span;
        self.next = self.next.saturating_add(1);
        Ok(())
    }
}

// Returns the level of a line, given whether a string of it is an error.
fn level_of_line(is_error: bool) -> Level
    ensures { result ≡ level_of_line is_error }
{
    if is_error { Level::Error } else { Level::Info }
}

// Returns how long a test took, as a field.
pub(super) fn elapsed_fields(alloc: Global, elapsed: Option<&str>) -> Result<Vec<Field>, AllocError>
    ensures { IfOk result (λ fields. fields.items
        ≡ elapsed_fields (option_map (λ e. e.now) elapsed.entry)) }
{
    let mut fields = Vec::new(alloc);
    if let Some(elapsed) = elapsed {
        fields.push(Field::rendered(alloc, "elapsed", elapsed)?)?;
    }
    Ok(fields)
}

// Appends the other fields of a package's end.
fn push_notes(alloc: Global, one: &Running, fields: &mut Vec<Field>) -> Result<(), AllocError>
    ensures { OnOk result (fields.new.items ≡ fields.old.items
        ++ (cached_fields one.now.is_cached ++ coverage_fields one.now.coverage)) }
{
    if one.is_cached {
        fields.push(Field::truth(alloc, "cached", true)?)?;
    }
    push_coverage(alloc, &one.coverage, fields)
}

fn push_coverage(alloc: Global, coverage: &Text, fields: &mut Vec<Field>) -> Result<(), AllocError>
    ensures { OnOk result (fields.new.items
        ≡ fields.old.items ++ coverage_fields coverage.now) }
{
    if coverage.as_str().is_empty() {
        return Ok(());
    }
    let field = Field {
        name: Text::from_str(alloc, "coverage")?,
        value: shown(alloc, coverage.as_str())?,
    };
    Ok(fields.push(field)?)
}
