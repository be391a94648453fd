//! The settings of a layer.

ghost use Rattle.std.specs.Prelude.{◌≡◌, ◌+◌, ◌^◌, ◌++◌, ◌<◌, [], Ok, Err, IfOk, OnOk, string_bytes, if◌then◌else◌};
ghost use Rattle.tracing_tree_drawing.specs.Format.Picture.{is_too_wide, unnamed_row, wrapped_level};
ghost use Rattle.tracing_tree_drawing.specs.Format.Settings.{default_settings};
ghost use Rattle.tracing_tree_base.specs.Extended.{IsExtended};
ghost use Rattle.tracing_tree_drawing.specs.Format.Texts.{prefix_text};

use super::SpanMode;
use itoa::Buffer;
use std::alloc::AllocError;
use std::marker::Model;
use tracing_tree_base::{Context, Refusal};

/// The settings of a layer, with the names of the Rust crate. `Config::default` has ansi on, two
/// columns per level and a wraparound of `usize::MAX`. All other settings are off.
///
/// A layer with lines, four columns per level and targets:
/// ```rust
/// let config = Config::new(4, false)
///     .with_indent_lines(true)
///     .with_targets(true);
/// HierarchicalLayer::with_config(alloc, config, Tape::new(alloc))
/// ```
#[derive(Drop)]
pub struct Config {
    ansi: bool,
    indent_lines: bool,
    indent_amount: usize,
    targets: bool,
    render_thread_ids: bool,
    render_thread_names: bool,
    wraparound: usize,
    verbose_entry: bool,
    verbose_exit: bool,
    span_retrace: bool,
    bracketed_fields: bool,
    deferred_spans: bool,
    span_modes: bool,
    close_retrace: bool,
}

impl Model for Config {
    ghost use Rattle.std.specs.Prelude.{◌<◌, false};
    ghost use Rattle.tracing_tree_drawing.specs.Format.Settings.{Settings};

    ghost Value = { Settings };

    ghost view = { λ c. record {
      ansi = c.ansi;
      indent_lines = c.indent_lines;
      indent_amount = c.indent_amount;
      targets = c.targets;
      render_thread_ids = c.render_thread_ids;
      render_thread_names = c.render_thread_names;
      wraparound = c.wraparound;
      verbose_entry = c.verbose_entry;
      verbose_exit = c.verbose_exit;
      span_retrace = c.span_retrace;
      bracketed_fields = c.bracketed_fields;
      deferred_spans = c.deferred_spans;
      span_modes = c.span_modes;
      close_retrace = c.close_retrace;
    } };

    ghost invariant = { λ c. 0 < c.wraparound };
}

impl Default for Config {
    ghost is_default = { λ c. c ≡ default_settings };

    fn default() -> Config {
        Config {
            ansi: true,
            indent_lines: false,
            indent_amount: 2,
            targets: false,
            render_thread_ids: false,
            render_thread_names: false,
            wraparound: usize::MAX,
            verbose_entry: false,
            verbose_exit: false,
            span_retrace: false,
            bracketed_fields: false,
            deferred_spans: false,
            span_modes: false,
            close_retrace: false,
        }
    }
}

impl Config {
    /// Returns the default settings, with this amount (columns per level) and this ansi.
    pub fn new(indent_amount: usize, ansi: bool) -> Config
        ensures { result ≡ record default_settings { indent_amount = indent_amount; ansi = ansi } }
    {
        Config {
            indent_amount,
            ansi,
            ..Config::default()
        }
    }

    /// Sets whether rows are painted with ANSI escapes for a terminal.
    pub fn with_ansi(self, ansi: bool) -> Config
        ensures { result ≡ record self { ansi = ansi } }
    {
        Config { ansi, ..self }
    }

    /// Sets whether the tree is drawn with lines, or only with spaces.
    pub fn with_indent_lines(self, indent_lines: bool) -> Config
        ensures { result ≡ record self { indent_lines = indent_lines } }
    {
        Config {
            indent_lines,
            ..self
        }
    }

    /// Sets how many columns a level takes.
    pub fn with_indent_amount(self, amount: usize) -> Config
        ensures { result ≡ record self { indent_amount = amount } }
    {
        Config {
            indent_amount: amount,
            ..self
        }
    }

    /// Sets whether spans and events show their targets.
    pub fn with_targets(self, targets: bool) -> Config
        ensures { result ≡ record self { targets = targets } }
    {
        Config { targets, ..self }
    }

    /// Sets whether each line starts with the thread's number.
    pub fn with_thread_ids(self, thread_ids: bool) -> Config
        ensures { result ≡ record self { render_thread_ids = thread_ids } }
    {
        Config {
            render_thread_ids: thread_ids,
            ..self
        }
    }

    /// Sets whether each line starts with the thread's name, if it has one.
    pub fn with_thread_names(self, thread_names: bool) -> Config
        ensures { result ≡ record self { render_thread_names = thread_names } }
    {
        Config {
            render_thread_names: thread_names,
            ..self
        }
    }

    /// Sets after how many levels the indent starts at the left edge again. The caller must ensure
    /// that the number isn't 0.
    pub fn with_wraparound(self, wraparound: usize) -> Config
        requires { 0 < wraparound }
        ensures { result ≡ record self { wraparound = wraparound } }
    {
        Config { wraparound, ..self }
    }

    /// Sets whether the parent is shown again before a child is entered.
    pub fn with_verbose_entry(self, verbose_entry: bool) -> Config
        ensures { result ≡ record self { verbose_entry = verbose_entry } }
    {
        Config {
            verbose_entry,
            ..self
        }
    }

    /// Sets whether a closing span is shown in full, and its parent again after it.
    pub fn with_verbose_exit(self, verbose_exit: bool) -> Config
        ensures { result ≡ record self { verbose_exit = verbose_exit } }
    {
        Config {
            verbose_exit,
            ..self
        }
    }

    /// Sets whether the ancestors of an event or a new span are shown again if another span was
    /// shown last.
    pub fn with_span_retrace(self, span_retrace: bool) -> Config
        ensures { result ≡ record self { span_retrace = span_retrace } }
    {
        Config {
            span_retrace,
            ..self
        }
    }

    /// Sets whether a span is drawn only when the first event occurs in it or in one of its
    /// descendants.
    pub fn with_deferred_spans(self, deferred_spans: bool) -> Config
        ensures { result ≡ record self { deferred_spans = deferred_spans } }
    {
        Config {
            deferred_spans,
            ..self
        }
    }

    /// Sets whether a closing span and its ancestors are shown again if its parent isn't on the
    /// path of the last span shown. It has no effect unless `span_retrace` or `deferred_spans` is
    /// on. (The Rust crate has no such setting.)
    pub fn with_close_retrace(self, close_retrace: bool) -> Config
        ensures { result ≡ record self { close_retrace = close_retrace } }
    {
        Config {
            close_retrace,
            ..self
        }
    }

    /// Sets whether rows of spans are labelled with their mode.
    pub fn with_span_modes(self, span_modes: bool) -> Config
        ensures { result ≡ record self { span_modes = span_modes } }
    {
        Config { span_modes, ..self }
    }

    /// Sets whether a span's fields are in braces.
    pub fn with_bracketed_fields(self, bracketed_fields: bool) -> Config
        ensures { result ≡ record self { bracketed_fields = bracketed_fields } }
    {
        Config {
            bracketed_fields,
            ..self
        }
    }

    /// Returns whether rows are painted for a terminal.
    pub fn ansi(&self) -> bool
        ensures { result ≡ self.now.ansi }
    {
        self.ansi
    }

    /// Returns whether the tree is drawn with lines. Otherwise it is drawn with spaces only.
    pub fn indent_lines(&self) -> bool
        ensures { result ≡ self.now.indent_lines }
    {
        self.indent_lines
    }

    /// Returns how many columns a level takes.
    pub fn indent_amount(&self) -> usize
        ensures { result ≡ self.now.indent_amount }
    {
        self.indent_amount
    }

    /// Returns whether spans and events show their targets.
    pub fn targets(&self) -> bool
        ensures { result ≡ self.now.targets }
    {
        self.targets
    }

    /// Returns whether each line starts with the thread's number.
    pub fn render_thread_ids(&self) -> bool
        ensures { result ≡ self.now.render_thread_ids }
    {
        self.render_thread_ids
    }

    /// Returns whether each line starts with the thread's name, if it has one.
    pub fn render_thread_names(&self) -> bool
        ensures { result ≡ self.now.render_thread_names }
    {
        self.render_thread_names
    }

    /// Returns after how many levels the indent starts at the left edge again. It is at least 1.
    pub fn wraparound(&self) -> usize
        ensures value { result ≡ self.now.wraparound }
        ensures positive { 0 < result }
    {
        self.wraparound
    }

    /// Returns whether the parent is shown again before a child is entered.
    pub fn verbose_entry(&self) -> bool
        ensures { result ≡ self.now.verbose_entry }
    {
        self.verbose_entry
    }

    /// Returns whether a closing span is shown in full, and its parent again after it.
    pub fn verbose_exit(&self) -> bool
        ensures { result ≡ self.now.verbose_exit }
    {
        self.verbose_exit
    }

    /// Returns whether the ancestors of an event or a new span are shown again if another span was
    /// shown last.
    pub fn span_retrace(&self) -> bool
        ensures { result ≡ self.now.span_retrace }
    {
        self.span_retrace
    }

    /// Returns whether a span's fields are in braces.
    pub fn bracketed_fields(&self) -> bool
        ensures { result ≡ self.now.bracketed_fields }
    {
        self.bracketed_fields
    }

    /// Returns whether a span is drawn only when the first event occurs in it or in one of its
    /// descendants.
    pub fn deferred_spans(&self) -> bool
        ensures { result ≡ self.now.deferred_spans }
    {
        self.deferred_spans
    }

    /// Returns whether rows of spans are labelled with their mode.
    pub fn span_modes(&self) -> bool
        ensures { result ≡ self.now.span_modes }
    {
        self.span_modes
    }

    /// Returns whether a closing span and its ancestors are shown again if its parent isn't on the
    /// path of the last span shown.
    pub fn close_retrace(&self) -> bool
        ensures { result ≡ self.now.close_retrace }
    {
        self.close_retrace
    }

    /// Checks that a row of this mode at this level can be drawn. Its width is the level used times
    /// the amount. The level used wraps round, and is one more for a parent's row with lines.
    ///
    /// # Errors
    ///
    /// `TooWide` if the width exceeds `usize::MAX` columns.
    pub fn check_width(&self, mode: SpanMode, level: usize) -> Result<(), Refusal>
        ensures { let row = unnamed_row mode level [] [] in
            result ≡ (if is_too_wide self.now row then Err Refusal.TooWide else Ok tt) }
    {
        let wrapped = self.wrapped_level(level);
        let used = match mode {
            SpanMode::PreOpen | SpanMode::PostClose if self.indent_lines => wrapped + 1,
            _ => wrapped,
        };
        let columns = used.checked_mul(self.indent_amount);
        columns.ok_or(Refusal::TooWide)?;
        Ok(())
    }

    // Returns the level that the indent is counted by. Few levels wrap round, so most need no
    // division.
    pub(crate) fn wrapped_level(&self, level: usize) -> usize
        ensures value { result ≡ wrapped_level self.now level }
        ensures below { result + 1 < 2 ^ 64 }
    {
        if level < self.wraparound {
            level
        } else {
            level % self.wraparound
        }
    }

    // Appends the prefix. If an allocation fails, a part of it may be appended. Most settings have
    // no prefix.
    #[inline(always)]
    pub(crate) fn push_prefix(&self, out: &mut String, context: &Context) -> Result<(), AllocError>
        ensures ok { let prefix = prefix_text self.now context.now in
            OnOk result (string_bytes out.new ≡ string_bytes out.old ++ prefix) }
        ensures extended { IsExtended (string_bytes out.old) (string_bytes out.new) }
    {
        if self.render_thread_ids || self.render_thread_names {
            return self.push_thread(out, context);
        }
        Ok(())
    }

    // Appends the thread's number and name, if they are shown. If an allocation fails, a part of
    // them may be appended.
    fn push_thread(&self, out: &mut String, context: &Context) -> Result<(), AllocError>
        ensures ok { let prefix = prefix_text self.now context.now in
            OnOk result (string_bytes out.new ≡ string_bytes out.old ++ prefix) }
        ensures extended { IsExtended (string_bytes out.old) (string_bytes out.new) }
    {
        if self.render_thread_ids {
            out.push_str(Buffer::new().format(context.thread_id))?;
        }
        if !self.render_thread_names {
            return Ok(());
        }
        let Some(name) = &context.thread_name else {
            return Ok(());
        };
        if self.render_thread_ids {
            out.push_str(":")?;
        }
        out.push_str(name.as_str())
    }
}
