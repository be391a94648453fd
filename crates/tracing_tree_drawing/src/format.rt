//! The settings, and the drawing of a row: its strings, its frame and its width.

ghost use Rattle.std.specs.Prelude.{◌≡◌, ◌++◌, OnOk, OnErr, string_bytes};
ghost use Rattle.tracing_tree_drawing.specs.Format.Texts.{label};

mod config;
mod draw;
mod event;
mod surface;

pub use config::Config;
pub use draw::{RowDrawing, RowPlace, push_frame, push_row};
pub use event::{push_event_field, push_event_texts, push_named, push_shown};
use std::alloc::AllocError;
pub use surface::{Buffers, FmtEvent};

/// The mode of a row: what it shows. (`SpanMode` of the Rust crate.)
#[derive(Clone, Copy, Debug, PartialEq, Eq)]
pub enum SpanMode {
    /// The parent, shown again before a child is entered.
    PreOpen,

    /// A span that opens.
    Open { verbose: bool },

    /// A span that closes.
    Close { verbose: bool },

    /// A span that was opened before and is shown again.
    Retrace { verbose: bool },

    /// The parent, shown again after a child has closed.
    PostClose,

    /// An event.
    Event,
}

/// Appends the label of a mode (`write_span_mode` of the Rust crate). Events have one too.
///
/// # Errors
///
/// `AllocError` if an allocation fails. Nothing is appended then.
pub fn write_span_mode(out: &mut String, mode: SpanMode) -> Result<(), AllocError>
    ensures ok { OnOk result (string_bytes out.new ≡ string_bytes out.old ++ label mode) }
    ensures err { OnErr result (string_bytes out.new ≡ string_bytes out.old) }
{
    out.push_str(match mode {
        SpanMode::PreOpen => "pre_open: ",
        SpanMode::Open { verbose: false } => "open: ",
        SpanMode::Open { verbose: true } => "open(v): ",
        SpanMode::Retrace { verbose: false } => "retrace: ",
        SpanMode::Retrace { verbose: true } => "retrace(v): ",
        SpanMode::Close { verbose: false } => "close: ",
        SpanMode::Close { verbose: true } => "close(v): ",
        SpanMode::PostClose => "post_close: ",
        SpanMode::Event => "event: ",
    })
}
