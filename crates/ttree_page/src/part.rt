//! The parts of a line.
//!
//! After an error, each of these may have appended a prefix of its part.

ghost use Rattle.std.specs.Prelude.{◌≡◌, ℕ, ◌++◌, ◌∷◌, [], pos, true, OnOk, codes, string_bytes, decimal, flat_map};
ghost use Rattle.std.specs.Fmt.{signed_decimal};
ghost use Rattle.std.specs.Int.{int_div_euclid, int_rem_euclid};
ghost use Rattle.tracing_tree_drawing.specs.Format.Texts.{thread_name_text};
ghost use Rattle.ttree_page.specs.Lines.{after_comma, ahead_parts, escaped_byte, field_parts, key_text, level_text, name_and_value, keyed_part, later_pair, pair, pairs, stamp_parts, in_quotes};
ghost use Rattle.ttree_page.specs.Steps.{stamp_of, thread_text};
ghost use Rattle.tracing_tree_base.specs.Extended.{IsExtended};

use crate::form::{LineForm, level_text};
use crate::string::{push_escaped, push_quoted};
use itoa::Buffer;
use std::alloc::AllocError;
use tracing_tree_base::Context;
use tracing_tree_base::field::Field;
use tracing_tree_base::style::Level;

// The nanoseconds of a second.
const SECOND: u64 = 1_000_000_000;

// Appends a comma, and the key if the lines have keys.
fn push_key(out: &mut String, form: LineForm, key: &str) -> Result<(), AllocError>
    ensures ok { OnOk result
        (string_bytes out.new ≡ string_bytes out.old ++ after_comma (key_text form key.now)) }
    ensures extended { IsExtended (string_bytes out.old) (string_bytes out.new) }
{
    match form {
        LineForm::Arrays => out.push_str(","),
        LineForm::Objects => push_quoted_key(out, key),
    }
}

fn push_quoted_key(out: &mut String, key: &str) -> Result<(), AllocError>
    ensures ok { OnOk result (string_bytes out.new
        ≡ string_bytes out.old ++ (44 ∷ 34 ∷ (key.now ++ codes "\":"))) }
    ensures extended { IsExtended (string_bytes out.old) (string_bytes out.new) }
{
    out.push_str(",\"")?;
    out.push_str(key)?;
    out.push_str("\":")
}

// Appends a number.
pub(crate) fn push_number(
    out: &mut String,
    form: LineForm,
    key: &str,
    number: u64,
) -> Result<(), AllocError>
    ensures ok { OnOk result (string_bytes out.new
        ≡ string_bytes out.old ++ after_comma (keyed_part form key.now (decimal number))) }
    ensures extended { IsExtended (string_bytes out.old) (string_bytes out.new) }
{
    push_key(out, form, key)?;
    out.push_str(Buffer::new().format(number))
}

// Appends a number that may be below zero.
fn push_signed(out: &mut String, form: LineForm, key: &str, number: i128) -> Result<(), AllocError>
    ensures ok { OnOk result (string_bytes out.new
        ≡ string_bytes out.old ++ after_comma (keyed_part form key.now (signed_decimal number))) }
    ensures extended { IsExtended (string_bytes out.old) (string_bytes out.new) }
{
    push_key(out, form, key)?;
    out.push_str(Buffer::new().format(number))
}

// Appends a string in quotes.
pub(crate) fn push_string(
    out: &mut String,
    form: LineForm,
    key: &str,
    text: &str,
) -> Result<(), AllocError>
    ensures ok { OnOk result (string_bytes out.new
        ≡ string_bytes out.old ++ after_comma (keyed_part form key.now (in_quotes text.now))) }
    ensures extended { IsExtended (string_bytes out.old) (string_bytes out.new) }
{
    push_key(out, form, key)?;
    push_quoted(out, text)
}

// Appends a level.
pub(crate) fn push_level(out: &mut String, form: LineForm, level: Level) -> Result<(), AllocError>
    ensures ok { OnOk result (string_bytes out.new
        ≡ string_bytes out.old ++ after_comma (keyed_part form (codes "level") (level_text form level))) }
    ensures extended { IsExtended (string_bytes out.old) (string_bytes out.new) }
{
    push_key(out, form, "level")?;
    out.push_str(level_text(form, level))
}

// Appends the names and values of fields.
pub(crate) fn push_fields(
    out: &mut String,
    form: LineForm,
    fields: &[Field],
) -> Result<(), AllocError>
    ensures ok { OnOk result (string_bytes out.new
        ≡ string_bytes out.old ++ flat_map after_comma (field_parts form fields.now)) }
    ensures extended { IsExtended (string_bytes out.old) (string_bytes out.new) }
{
    match form {
        LineForm::Arrays => push_names_and_values(out, fields),
        LineForm::Objects => push_field_object(out, fields),
    }
}

fn push_names_and_values(out: &mut String, fields: &[Field]) -> Result<(), AllocError>
    ensures ok { OnOk result (string_bytes out.new
        ≡ string_bytes out.old ++ flat_map after_comma (flat_map name_and_value fields.now)) }
    ensures extended { IsExtended (string_bytes out.old) (string_bytes out.new) }
{
    for field in fields {
        push_after_comma(out, field.name.as_str())?;
        push_after_comma(out, field.value.as_str())?;
    }
    Ok(())
}

fn push_after_comma(out: &mut String, text: &str) -> Result<(), AllocError>
    ensures ok { OnOk result
        (string_bytes out.new ≡ string_bytes out.old ++ after_comma (in_quotes text.now)) }
    ensures extended { IsExtended (string_bytes out.old) (string_bytes out.new) }
{
    out.push_str(",")?;
    push_quoted(out, text)
}

fn push_field_object(out: &mut String, fields: &[Field]) -> Result<(), AllocError>
    ensures ok { let object = codes "\"fields\":{" ++ (pairs fields.now ++ codes "}") in
        OnOk result (string_bytes out.new ≡ string_bytes out.old ++ after_comma object) }
    ensures extended { IsExtended (string_bytes out.old) (string_bytes out.new) }
{
    out.push_str(",\"fields\":{")?;
    push_pairs(out, fields)?;
    out.push_str("}")
}

fn push_pairs(out: &mut String, fields: &[Field]) -> Result<(), AllocError>
    ensures ok { OnOk result (string_bytes out.new ≡ string_bytes out.old ++ pairs fields.now) }
    ensures extended { IsExtended (string_bytes out.old) (string_bytes out.new) }
{
    let Some((first, others)) = fields.split_first() else {
        return Ok(());
    };
    push_pair(out, first)?;
    push_later_pairs(out, others)
}

fn push_later_pairs(out: &mut String, fields: &[Field]) -> Result<(), AllocError>
    ensures ok { OnOk result
        (string_bytes out.new ≡ string_bytes out.old ++ flat_map later_pair fields.now) }
    ensures extended { IsExtended (string_bytes out.old) (string_bytes out.new) }
{
    for field in fields {
        push_later_pair(out, field)?;
    }
    Ok(())
}

fn push_later_pair(out: &mut String, field: &Field) -> Result<(), AllocError>
    ensures ok { OnOk result
        (string_bytes out.new ≡ string_bytes out.old ++ later_pair field.now) }
    ensures extended { IsExtended (string_bytes out.old) (string_bytes out.new) }
{
    out.push_str(",")?;
    push_pair(out, field)
}

fn push_pair(out: &mut String, field: &Field) -> Result<(), AllocError>
    ensures ok { OnOk result (string_bytes out.new ≡ string_bytes out.old ++ pair field.now) }
    ensures extended { IsExtended (string_bytes out.old) (string_bytes out.new) }
{
    push_quoted(out, field.name.as_str())?;
    out.push_str(":")?;
    push_quoted(out, field.value.as_str())
}

// Appends the moment and the thread of a call.
pub(crate) fn push_stamp(
    out: &mut String,
    form: LineForm,
    context: &Context,
) -> Result<(), AllocError>
    ensures ok { OnOk result (string_bytes out.new
        ≡ string_bytes out.old ++ flat_map after_comma (stamp_parts form (stamp_of context.now))) }
    ensures extended { IsExtended (string_bytes out.old) (string_bytes out.new) }
{
    let mono = context.moment.mono;
    push_number(out, form, "seconds", mono / SECOND)?;
    push_number(out, form, "nanos", mono % SECOND)?;
    push_ahead(out, form, context)?;
    push_thread(out, form, context)
}

// Returns by how many nanoseconds the wall clock is ahead of the monotonic clock.
fn ahead_of(context: &Context) -> i128
    ensures { result ≡ (stamp_of context.now).ahead }
{
    context.moment.wall.as_nanosecond() - i128::from(context.moment.mono)
}

fn ahead_seconds(context: &Context) -> i128
    ensures { result ≡ int_div_euclid (stamp_of context.now).ahead (pos 1_000_000_000) }
{
    ahead_of(context).div_euclid(1_000_000_000)
}

fn ahead_nanos(context: &Context) -> i128
    ensures { result ≡ int_rem_euclid (stamp_of context.now).ahead (pos 1_000_000_000) }
{
    ahead_of(context).rem_euclid(1_000_000_000)
}

// Appends by how much the wall clock is ahead.
fn push_ahead(out: &mut String, form: LineForm, context: &Context) -> Result<(), AllocError>
    ensures ok { let ahead = flat_map after_comma (ahead_parts form (stamp_of context.now).ahead) in
        OnOk result (string_bytes out.new ≡ string_bytes out.old ++ ahead) }
    ensures extended { IsExtended (string_bytes out.old) (string_bytes out.new) }
{
    push_ahead_seconds(out, form, context)?;
    push_ahead_nanos(out, form, context)
}

fn push_ahead_seconds(out: &mut String, form: LineForm, context: &Context) -> Result<(), AllocError>
    ensures ok { let number = int_div_euclid (stamp_of context.now).ahead (pos 1_000_000_000) in
        OnOk result (string_bytes out.new ≡ string_bytes out.old
        ++ after_comma (keyed_part form (codes "ahead_seconds") (signed_decimal number))) }
    ensures extended { IsExtended (string_bytes out.old) (string_bytes out.new) }
{
    push_key(out, form, "ahead_seconds")?;
    push_whole_seconds(out, context)
}

fn push_whole_seconds(out: &mut String, context: &Context) -> Result<(), AllocError>
    ensures ok { let number = int_div_euclid (stamp_of context.now).ahead (pos 1_000_000_000) in
        OnOk result (string_bytes out.new ≡ string_bytes out.old ++ signed_decimal number) }
    ensures extended { IsExtended (string_bytes out.old) (string_bytes out.new) }
{
    out.push_str(Buffer::new().format(ahead_seconds(context)))
}

fn push_ahead_nanos(out: &mut String, form: LineForm, context: &Context) -> Result<(), AllocError>
    ensures ok { let number = int_rem_euclid (stamp_of context.now).ahead (pos 1_000_000_000) in
        OnOk result (string_bytes out.new ≡ string_bytes out.old
        ++ after_comma (keyed_part form (codes "ahead_nanos") (signed_decimal number))) }
    ensures extended { IsExtended (string_bytes out.old) (string_bytes out.new) }
{
    push_signed(out, form, "ahead_nanos", ahead_nanos(context))
}

// Appends the number of the thread, and its name if it has one.
fn push_thread(out: &mut String, form: LineForm, context: &Context) -> Result<(), AllocError>
    ensures ok { let thread = in_quotes (thread_text context.now) in
        OnOk result (string_bytes out.new
        ≡ string_bytes out.old ++ after_comma (keyed_part form (codes "thread") thread)) }
    ensures extended { IsExtended (string_bytes out.old) (string_bytes out.new) }
{
    push_key(out, form, "thread")?;
    push_quoted_thread(out, context)
}

fn push_quoted_thread(out: &mut String, context: &Context) -> Result<(), AllocError>
    ensures ok { OnOk result
        (string_bytes out.new ≡ string_bytes out.old ++ in_quotes (thread_text context.now)) }
    ensures extended { IsExtended (string_bytes out.old) (string_bytes out.new) }
{
    out.push_str("\"")?;
    out.push_str(Buffer::new().format(context.thread_id))?;
    push_thread_name(out, context)?;
    out.push_str("\"")
}

// Appends a colon and the name of the thread, if it has one.
fn push_thread_name(out: &mut String, context: &Context) -> Result<(), AllocError>
    ensures ok { let name = thread_name_text true context.now.thread_name in
        OnOk result (string_bytes out.new ≡ string_bytes out.old ++ flat_map escaped_byte name) }
    ensures extended { IsExtended (string_bytes out.old) (string_bytes out.new) }
{
    let Some(name) = &context.thread_name else {
        return Ok(());
    };
    out.push_str(":")?;
    push_escaped(out, name.as_str())
}
