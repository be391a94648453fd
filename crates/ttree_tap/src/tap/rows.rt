//! The calls of rows.

ghost use Rattle.std.specs.Prelude.{◌≡◌, [], IfOk, OnOk, Some};
ghost use Rattle.tracing_tree_spans.specs.Registry.Ids.{id_of};
ghost use Rattle.ttree_tap.specs.Tap.{test_span_closed, closed_if, error_emitted, tap_line_emitted, lines_claimed, test_span_opened, row_emitted, call_queued};

use super::Tap;
use crate::queue::Role;
use std::alloc::AllocError;
use tracing_tree_base::Id;
use tracing_tree_base::field::{Field, Fields};
use tracing_tree_base::style::Level;
use tracing_tree_layer::call::Call;
use ttree_source::calls::{close_call, event_call, message_field, span_call};

impl Tap {
    pub(super) fn push(&mut self, role: Role, call: Call) -> Result<(), AllocError>
        ensures { OnOk result (self.new ≡ call_queued role call self.old) }
    {
        self.queue.add(role, call)
    }

    // Records an event with further fields in this span.
    pub(super) fn push_row(
        &mut self,
        role: Role,
        level: Level,
        text: &str,
        rest: Vec<Field>,
        span: Option<Id>,
    ) -> Result<(), AllocError>
        ensures { OnOk result (self.new ≡ row_emitted role level text.now rest.items span self.old) }
    {
        let mut fields = Fields::one(self.alloc, message_field(self.alloc, text)?);
        fields.append(Fields::from(rest))?;
        let call = event_call(self.alloc, self.moment, level, fields, span)?;
        self.push(role, call)
    }

    // Records a line in this span.
    pub(super) fn push_line(
        &mut self,
        role: Role,
        text: &str,
        span: Option<Id>,
    ) -> Result<(), AllocError>
        ensures { OnOk result (self.new ≡ tap_line_emitted role text.now span self.old) }
    {
        let fields = Fields::one(self.alloc, message_field(self.alloc, text)?);
        let call = event_call(self.alloc, self.moment, Level::Info, fields, span)?;
        self.push(role, call)
    }

    // Holds the lines before a test of this name that belong to it.
    pub(super) fn claim_lines(&mut self, name: &str) -> Result<(), AllocError>
        ensures { OnOk result (self.new ≡ lines_claimed name.now self.old) }
    {
        self.queue.claim(name)
    }

    // Records a failure that isn't a result.
    pub(super) fn push_error(&mut self, text: &str, span: Option<Id>) -> Result<(), AllocError>
        ensures { OnOk result (self.new ≡ error_emitted text.now span self.old) }
    {
        self.tally = self.tally.broken();
        let fields = Fields::one(self.alloc, message_field(self.alloc, text)?);
        let call = event_call(self.alloc, self.moment, Level::Error, fields, span)?;
        self.push(Role::Failure, call)
    }

    // Opens a span, and returns its id.
    pub(super) fn open(&mut self, name: &str, parent: Option<Id>) -> Result<Option<Id>, AllocError>
        ensures id { IfOk result (λ id. id ≡ Some (id_of self.old.next)) }
        ensures opened { OnOk result (self.new ≡ test_span_opened name.now parent self.old) }
    {
        self.claim_lines(name)?;
        let fields = Fields::new(self.alloc);
        let call = span_call(self.alloc, self.moment, name, fields, parent)?;
        self.push(Role::Opening, call)?;
        let span = Id(self.next);
        self.next = self.next.saturating_add(1);
        Ok(Some(span))
    }

    // Closes a span, if there is one.
    pub(super) fn close_if(
        &mut self,
        span: Option<Id>,
        parent: Option<Id>,
    ) -> Result<(), AllocError>
        ensures { OnOk result (self.new ≡ closed_if span parent self.old) }
    {
        match span {
            Some(id) => self.close(id, parent),
            None => Ok(()),
        }
    }

    // Closes a span. If it is left out, its id is free again: all later spans were in it.
    fn close(&mut self, id: Id, parent: Option<Id>) -> Result<(), AllocError>
        ensures { OnOk result (self.new ≡ test_span_closed id parent self.old) }
    {
        if self.queue.is_held() {
            self.next = id.0;
        }
        self.push(Role::Closing, close_call(self.moment, id, parent))
    }
}
