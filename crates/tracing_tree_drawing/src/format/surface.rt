//! API of the Rust crate that no call of the layer uses: its buffers, `FmtEvent`, and the prefix as
//! a separate string. It works with the same functions that draw a call.

ghost use Rattle.std.specs.Prelude.{◌≡◌, ◌<◌, ◌++◌, [], None, IfOk, OnOk, OnErr, string_bytes};
ghost use Rattle.tracing_tree_output.specs.Writers.{WritesWhole, emptied_when_ok, seen_writer};
ghost use Rattle.tracing_tree_drawing.specs.Format.Texts.{comma_after, event_field, prefix_text};
ghost use Rattle.tracing_tree_drawing.specs.Format.Picture.{drawn_row, is_too_wide, unnamed_row};
ghost use Rattle.tracing_tree_drawing.specs.Format.Buffers.{IndentsRow};

use super::draw::push_row;
use super::event::push_event_field;
use super::{Config, SpanMode};
use std::alloc::{AllocError, Global};
use std::marker::Model;
use std::mem;
use tracing_tree_base::field::Field;
use tracing_tree_base::{Context, Id, Refusal};
use tracing_tree_output::{Output, OutputFault, write_whole};

/// The rows of a call while they are built, and the last span shown. (`Buffers` of the Rust crate.)
#[derive(Drop)]
pub struct Buffers {
    /// The block of the row that is being built, or the rows that are ready to be written.
    pub current_buf: String,

    /// The rows that have been drawn.
    pub indent_buf: String,

    /// The last span shown: a span that opened, a span that an event or a close was retraced to, or
    /// the parent of a span that closed. It may have closed since.
    pub current_span: Option<Id>,
}

impl Model for Buffers {
    ghost use Rattle.std.specs.Prelude.{string_bytes};
    ghost use Rattle.tracing_tree_drawing.specs.Format.Buffers.{BuffersView};

    ghost Value = { BuffersView };

    ghost view = { λ b. record {
      current_buf = string_bytes b.current_buf;
      indent_buf = string_bytes b.indent_buf;
      current_span = b.current_span;
    } };
}

impl Buffers {
    /// Returns two empty strings, and no span. Never allocates.
    pub fn new(alloc: Global) -> Buffers
        ensures { result ≡ record { current_buf = []; indent_buf = []; current_span = None } }
    {
        Buffers {
            current_buf: String::new(alloc),
            indent_buf: String::new(alloc),
            current_span: None,
        }
    }

    /// Passes `current_buf` to the output, and empties it. The output keeps the string, or it is
    /// written in full.
    ///
    /// # Errors
    ///
    /// `OutputFault` if a write fails. The buffers are unchanged then. Only a first part of the
    /// string was written, or nothing if the output takes each write whole.
    pub fn flush_current_buf<O: Output>(&mut self, out: &mut O) -> Result<(), OutputFault>
        requires { O.fault_count out.old < u64.MAX }
        ensures written { WritesWhole self.old.current_buf result
            (seen_writer O.Output out.old) (seen_writer O.Output out.new) }
        ensures buffers { let text = emptied_when_ok result self.old.current_buf in
            self.new ≡ record self.old { current_buf = text } }
    {
        write_whole(&mut self.current_buf, out)
    }

    /// Moves `indent_buf` to the end of `current_buf`.
    ///
    /// # Errors
    ///
    /// `AllocError` if an allocation fails. Nothing has changed then. If `current_buf` is empty, it
    /// never allocates.
    pub fn flush_indent_buf(&mut self) -> Result<(), AllocError>
        ensures ok { OnOk result (self.new ≡ record self.old {
          current_buf = self.old.current_buf ++ self.old.indent_buf;
          indent_buf = [];
        }) }
        ensures err { OnErr result (self.new ≡ self.old) }
        ensures succeeds { OnErr result (self.old.current_buf ≡ [] → ⊥) }
    {
        if self.current_buf.is_empty() {
            mem::swap(&mut self.current_buf, &mut self.indent_buf);
            return Ok(());
        }
        self.current_buf.push_str(self.indent_buf.as_str())?;
        self.indent_buf.clear();
        Ok(())
    }

    /// Replaces the block in `current_buf` by the picture of its row at this level.
    /// (`indent_current` of the Rust crate.) The level is a number of spans, before it wraps round.
    /// The caller must ensure that `indent_buf` is empty.
    ///
    /// # Errors
    ///
    /// `TooWide` if the row's width exceeds `usize::MAX` columns. `Memory` if an allocation fails.
    /// The buffers are unchanged after both.
    pub fn indent_current(
        &mut self,
        indent: usize,
        config: &Config,
        mode: SpanMode,
        context: &Context,
    ) -> Result<(), Refusal>
        requires { self.old.indent_buf ≡ [] }
        ensures { let prefix = prefix_text config.now context.now in
            let row = unnamed_row mode indent self.old.current_buf prefix in
            IndentsRow (is_too_wide config.now row) (drawn_row config.now row) result self.old
            self.new }
    {
        let block = self.current_buf.as_str();
        push_row(&mut self.indent_buf, block, indent, config, mode, context)?;
        self.current_buf.clear();
        mem::swap(&mut self.current_buf, &mut self.indent_buf);
        Ok(())
    }
}

/// A writer of an event's fields to the block of its row, in the order of the calls. (`FmtEvent` of
/// the Rust crate.)
#[derive(Drop)]
pub struct FmtEvent<'a> {
    /// The buffers. Fields are appended to `current_buf`.
    pub bufs: &'a mut Buffers,

    /// Whether a comma comes before the next field.
    pub comma: bool,
}

impl FmtEvent<'_> {
    /// Appends a field after a space, or after a comma and a space if `comma` is on. A field whose
    /// name starts with `log.` is skipped.
    ///
    /// # Errors
    ///
    /// `AllocError` if an allocation fails. Nothing has changed then.
    pub fn record(&mut self, field: &Field) -> Result<(), AllocError>
        ensures ok { let old = self.old in
            let text = old.bufs.now.current_buf ++ event_field old.comma field.now in
            OnOk result (self.new.bufs.now ≡ record old.bufs.now { current_buf = text }) }
        ensures comma { let old = self.old in
            OnOk result (self.new.comma ≡ comma_after old.comma field.now) }
        ensures err { OnErr result (self.new.bufs.now ≡ self.old.bufs.now) }
        ensures kept { OnErr result (self.new.comma ≡ self.old.comma) }
    {
        let bufs = &mut *self.bufs;
        push_event_field(&mut bufs.current_buf, &mut self.comma, field)
    }
}

impl Config {
    /// Returns the prefix of each line of a call's rows: the thread's number and name, if the
    /// settings show them. (`prefix` of the Rust crate.)
    ///
    /// # Errors
    ///
    /// `AllocError` if an allocation fails.
    pub fn prefix(&self, alloc: Global, context: &Context) -> Result<String, AllocError>
        ensures { IfOk result (λ prefix. string_bytes prefix ≡ prefix_text self.now context.now) }
    {
        let mut prefix = String::new(alloc);
        self.push_prefix(&mut prefix, context)?;
        Ok(prefix)
    }
}
