//! The builders of the layer. Each changes one setting.

ghost use Rattle.std.specs.Prelude.{◌≡◌, ◌<◌};

use super::HierarchicalLayer;
use tracing_tree_output::Output;
use tracing_tree_time::FormatTime;

impl<W: Output, FT: FormatTime> HierarchicalLayer<W, FT> {
    /// Sets whether rows are painted with ANSI escapes for a terminal.
    pub fn with_ansi(mut self, ansi: bool) -> HierarchicalLayer<W, FT>
        ensures { result ≡ record self { settings = record self.settings { ansi = ansi } } }
    {
        self.config = self.config.with_ansi(ansi);
        self
    }

    /// Sets whether the tree is drawn with lines, or only with spaces.
    pub fn with_indent_lines(mut self, indent_lines: bool) -> HierarchicalLayer<W, FT>
        ensures { result ≡ record self {
          settings = record self.settings { indent_lines = indent_lines };
        } }
    {
        self.config = self.config.with_indent_lines(indent_lines);
        self
    }

    /// Sets how many columns a level takes.
    pub fn with_indent_amount(mut self, indent_amount: usize) -> HierarchicalLayer<W, FT>
        ensures { result ≡ record self {
          settings = record self.settings { indent_amount = indent_amount };
        } }
    {
        self.config = self.config.with_indent_amount(indent_amount);
        self
    }

    /// Sets whether spans and events show their targets.
    pub fn with_targets(mut self, targets: bool) -> HierarchicalLayer<W, FT>
        ensures { result ≡ record self { settings = record self.settings { targets = targets } } }
    {
        self.config = self.config.with_targets(targets);
        self
    }

    /// Sets whether each line starts with the thread's number.
    pub fn with_thread_ids(mut self, thread_ids: bool) -> HierarchicalLayer<W, FT>
        ensures { result ≡ record self {
          settings = record self.settings { render_thread_ids = thread_ids };
        } }
    {
        self.config = self.config.with_thread_ids(thread_ids);
        self
    }

    /// Sets whether each line starts with the thread's name, if it has one.
    pub fn with_thread_names(mut self, thread_names: bool) -> HierarchicalLayer<W, FT>
        ensures { result ≡ record self {
          settings = record self.settings { render_thread_names = thread_names };
        } }
    {
        self.config = self.config.with_thread_names(thread_names);
        self
    }

    /// Sets after how many levels the indent starts at the left edge again. The caller must ensure
    /// that the number isn't 0.
    pub fn with_wraparound(mut self, wraparound: usize) -> HierarchicalLayer<W, FT>
        requires { 0 < wraparound }
        ensures { result ≡ record self {
          settings = record self.settings { wraparound = wraparound };
        } }
    {
        self.config = self.config.with_wraparound(wraparound);
        self
    }

    /// Sets whether the parent is shown again before a child is entered.
    pub fn with_verbose_entry(mut self, verbose_entry: bool) -> HierarchicalLayer<W, FT>
        ensures { result ≡ record self {
          settings = record self.settings { verbose_entry = verbose_entry };
        } }
    {
        self.config = self.config.with_verbose_entry(verbose_entry);
        self
    }

    /// Sets whether a closing span is shown in full, and its parent again after it.
    pub fn with_verbose_exit(mut self, verbose_exit: bool) -> HierarchicalLayer<W, FT>
        ensures { result ≡ record self {
          settings = record self.settings { verbose_exit = verbose_exit };
        } }
    {
        self.config = self.config.with_verbose_exit(verbose_exit);
        self
    }

    /// Sets whether rows of spans are labelled with their mode.
    pub fn with_span_modes(mut self, span_modes: bool) -> HierarchicalLayer<W, FT>
        ensures { result ≡ record self {
          settings = record self.settings { span_modes = span_modes };
        } }
    {
        self.config = self.config.with_span_modes(span_modes);
        self
    }

    /// Sets whether a span's fields are in braces.
    pub fn with_bracketed_fields(mut self, bracketed_fields: bool) -> HierarchicalLayer<W, FT>
        ensures { result ≡ record self {
          settings = record self.settings { bracketed_fields = bracketed_fields };
        } }
    {
        self.config = self.config.with_bracketed_fields(bracketed_fields);
        self
    }

    /// Sets whether the ancestors of an event or a new span are shown again if another span was
    /// shown last.
    pub fn with_span_retrace(mut self, span_retrace: bool) -> HierarchicalLayer<W, FT>
        ensures { result ≡ record self {
          settings = record self.settings { span_retrace = span_retrace };
        } }
    {
        self.config = self.config.with_span_retrace(span_retrace);
        self
    }

    /// Sets whether a span is drawn only when the first event occurs in it or in one of its
    /// descendants.
    pub fn with_deferred_spans(mut self, deferred_spans: bool) -> HierarchicalLayer<W, FT>
        ensures { result ≡ record self {
          settings = record self.settings { deferred_spans = deferred_spans };
        } }
    {
        self.config = self.config.with_deferred_spans(deferred_spans);
        self
    }

    /// Sets whether a closing span and its ancestors are shown again if its parent isn't on the
    /// path of the last span shown. It has no effect unless `span_retrace` or `deferred_spans` is
    /// on. (The Rust crate has no such setting.)
    pub fn with_close_retrace(mut self, close_retrace: bool) -> HierarchicalLayer<W, FT>
        ensures { result ≡ record self {
          settings = record self.settings { close_retrace = close_retrace };
        } }
    {
        self.config = self.config.with_close_retrace(close_retrace);
        self
    }

    /// Sets the timer that shows moments and elapsed times, in place of the previous one.
    pub fn with_timer<FT2: FormatTime>(self, timer: FT2) -> HierarchicalLayer<W, FT2>
    where
        FT: Drop,
        ensures { result ≡ record {
          settings = self.settings;
          writer = self.writer;
          timer = timer;
          last = self.last;
          failed = self.failed;
          unwritten = self.unwritten;
        } }
    {
        HierarchicalLayer {
            page: self.page,
            plan: self.plan,
            config: self.config,
            writer: self.writer,
            timer,
            last: self.last,
            failed: self.failed,
        }
    }

    /// Replaces the writer, and drops the previous one. The caller must ensure that the new writer
    /// has no faults.
    pub fn with_writer<Other: Output>(self, writer: Other) -> HierarchicalLayer<Other, FT>
    where
        W: Drop,
        requires { Other.fault_count writer ≡ 0 }
        ensures { result ≡ record {
          settings = self.settings;
          writer = writer;
          timer = self.timer;
          last = self.last;
          failed = self.failed;
          unwritten = self.unwritten;
        } }
    {
        HierarchicalLayer {
            page: self.page,
            plan: self.plan,
            config: self.config,
            writer,
            timer: self.timer,
            last: self.last,
            failed: self.failed,
        }
    }
}
