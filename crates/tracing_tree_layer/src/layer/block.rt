//! The blocks of rows, before they are drawn.

ghost use Rattle.std.specs.Prelude.{◌≡◌, ◌++◌, ◌∷◌, true, false, OnOk, OnErr, codes, string_bytes};
ghost use Rattle.tracing_tree_drawing.specs.Format.Texts.{label, named_value, shown_field, span_fields};
ghost use Rattle.tracing_tree_layer.specs.Layer.Block.{shown_brace, span_text, span_block, event_tail};
ghost use Rattle.tracing_tree_layer.specs.Layer.Heads.{shown_target, span_head};

use crate::parts::EventParts;
use std::alloc::AllocError;
use tracing_tree_base::field::Field;
use tracing_tree_base::style::push_level;
use tracing_tree_drawing::format::{Config, SpanMode, push_named, push_shown, write_span_mode};
use tracing_tree_spans::registry::SpanRef;

// Appends the fields of a span. A message is shown as its value only if it is the first field.
fn push_span_fields(out: &mut String, fields: &[Field]) -> Result<(), AllocError>
    ensures { OnOk result (string_bytes out.new ≡ string_bytes out.old ++ span_fields fields.now) }
{
    let Some((first, others)) = fields.split_first() else {
        return Ok(());
    };
    push_shown(out, first)?;
    for field in others {
        out.push_str(", ")?;
        push_named(out, field)?;
    }
    Ok(())
}

// Appends the target, name and fields of a span.
fn push_span_text(out: &mut String, config: &Config, span: &SpanRef) -> Result<(), AllocError>
    ensures { OnOk result
        (string_bytes out.new ≡ string_bytes out.old
        ++ span_text config.now span.now.target span.now.name span.now.kept.fields) }
{
    if config.ansi() {
        push_painted_head(out, config, span)?;
    } else {
        push_plain_head(out, config, span)?;
    }
    push_span_fields(out, span.data().fields.as_slice())?;
    match (config.bracketed_fields(), config.ansi()) {
        (true, true) => out.push_str("\x1b[1;32m}\x1b[0m"),
        (true, false) => out.push_str("}"),
        (false, _) => Ok(()),
    }
}

// Appends everything before the fields of a span, with ansi. Consecutive codes are one string.
fn push_painted_head(out: &mut String, config: &Config, span: &SpanRef) -> Result<(), AllocError>
    requires { config.now.ansi ≡ true }
    ensures { OnOk result
        (string_bytes out.new ≡ string_bytes out.old
        ++ span_head config.now span.now.target span.now.name) }
{
    push_painted_target(out, config, span)?;
    out.push_str(span.name())?;
    push_painted_brace(out, config)
}

// Appends the target of a span, if targets are on, and the code that starts its name, with ansi.
fn push_painted_target(out: &mut String, config: &Config, span: &SpanRef) -> Result<(), AllocError>
    requires { config.now.ansi ≡ true }
    ensures { OnOk result
        (string_bytes out.new ≡ string_bytes out.old
        ++ shown_target config.now span.now.target ++ 27 ∷ codes "[1;32m") }
{
    if !config.targets() {
        return out.push_str("\x1b[1;32m");
    }
    out.push_str("\x1b[2m")?;
    out.push_str(span.target())?;
    out.push_str("\x1b[0m::\x1b[1;32m")
}

// Appends the code that ends a name, and a brace or a space before the fields, with ansi.
fn push_painted_brace(out: &mut String, config: &Config) -> Result<(), AllocError>
    requires { config.now.ansi ≡ true }
    ensures { let brace = shown_brace config.now (codes "{") (codes " ") in
        OnOk result (string_bytes out.new ≡ string_bytes out.old ++ 27 ∷ codes "[0m" ++ brace) }
{
    if config.bracketed_fields() {
        out.push_str("\x1b[0m\x1b[1;32m{\x1b[0m")
    } else {
        out.push_str("\x1b[0m ")
    }
}

// Appends everything before the fields of a span, without ansi.
fn push_plain_head(out: &mut String, config: &Config, span: &SpanRef) -> Result<(), AllocError>
    requires { config.now.ansi ≡ false }
    ensures { OnOk result
        (string_bytes out.new ≡ string_bytes out.old
        ++ span_head config.now span.now.target span.now.name) }
{
    if config.targets() {
        out.push_str(span.target())?;
        out.push_str("::")?;
    }
    out.push_str(span.name())?;
    if config.bracketed_fields() {
        out.push_str("{")
    } else {
        out.push_str(" ")
    }
}

// Appends the block of a span's row: its label, if labels are on, then its target, name and fields.
// A plain close doesn't show these three. After an error, a part of the block may be in `out`.
pub(super) fn push_span_block(
    out: &mut String,
    config: &Config,
    mode: SpanMode,
    span: &SpanRef,
) -> Result<(), AllocError>
    ensures { OnOk result
        (string_bytes out.new ≡ string_bytes out.old
        ++ span_block config.now mode span.now.target span.now.name span.now.kept.fields) }
{
    if config.span_modes() {
        write_span_mode(out, mode)?;
    }
    if mode == (SpanMode::Close { verbose: false }) {
        return Ok(());
    }
    push_span_text(out, config, span)
}

/// Appends the level, target and fields of an event, which come after the timer's strings.
///
/// # Errors
///
/// `AllocError` if an allocation fails. A part of them may be in `out` then.
pub fn push_event_tail<E: EventParts>(
    out: &mut String,
    config: &Config,
    event: &E,
) -> Result<(), AllocError>
    ensures { OnOk result
        (string_bytes out.new ≡ string_bytes out.old ++ event_tail config.now (E.whole event.now)) }
{
    push_level(out, config.ansi(), event.level())?;
    if config.targets() && config.ansi() {
        out.push_str(" \x1b[2m")?;
        out.push_str(event.target())?;
        out.push_str("\x1b[0m")?;
    } else if config.targets() {
        out.push_str(" ")?;
        out.push_str(event.target())?;
    }
    event.push_fields(out)
}
