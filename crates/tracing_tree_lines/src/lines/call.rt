//! The call of a line.

ghost use Rattle.std.specs.Prelude.{◌≡◌, [], Some, codes, option_and_then, option_map, IfOk};
ghost use Rattle.serde_json.specs.Find.{as_str};
ghost use Rattle.tracing_tree_lines.specs.Lines.Parts.{part_data, parts_data};
ghost use Rattle.tracing_tree_base.specs.declared.context.Context.{Context};
ghost use Rattle.tracing_tree_lines.specs.Lines.Values.{IsReadAs, ValueSpells};
ghost use Rattle.tracing_tree_lines.specs.Lines.CallKinds.{word_of, IsKindIn};
ghost use Rattle.tracing_tree_lines.specs.Lines.Spelled.{attributes_in, event_in, fields_value, id_in, parent_value, read_or, SpellsCall};
ghost use Rattle.tracing_tree_spans.specs.declared.registry.Parent.TheVariants.{Current};
ghost use Rattle.tracing_tree_base.specs.Style.{level_named};
ghost use Rattle.tracing_tree_lines.specs.Lines.Steps.{MakesNamed, MakesSpelled};

use super::LineCause;
use super::context::{context_in, id_value};
use super::part::Part;
use super::parts::{Parts, read_object, refuse_floats};
use json::Scratch;
use std::alloc::{AllocError, Global};
use tracing_tree_base::field::Fields;
use tracing_tree_base::style::Level;
use tracing_tree_base::text::Text;
use tracing_tree_base::{Context, Id};
use tracing_tree_layer::call::{Call, Reply};
use tracing_tree_layer::calls::Calls;
use tracing_tree_layer::parts::{EventTexts, FieldTexts};
use tracing_tree_spans::registry::{Attributes, Parent, Record};

/// Makes the call of a line on a receiver, and returns its reply.
///
/// # Errors
///
/// - `NotACall` if the line isn't a call.
/// - `Memory` if an allocation fails before the call is made.
/// - `Refused` if the receiver refuses the call.
///
/// Nothing has changed after `NotACall` and `Memory`.
pub fn make_call<C: Calls>(
    alloc: Global,
    line: &str,
    scratch: &mut Scratch,
    receiver: &mut C,
) -> Result<Reply, LineCause>
    ensures { MakesSpelled C.answers (SpellsCall line.now) result receiver.old receiver.new }
{
    let mut parts = Parts::new();
    read_object(alloc, line, scratch, &mut parts)?;
    refuse_floats(alloc, line.as_bytes(), &parts)?;
    make_call_of(alloc, &parts, receiver)
}

// Makes the call that the parts of a line encode.
fn make_call_of<C: Calls>(
    alloc: Global,
    parts: &Parts<'_>,
    receiver: &mut C,
) -> Result<Reply, LineCause>
    ensures { MakesSpelled C.answers (ValueSpells (parts_data parts.now)) result
        receiver.old receiver.new }
{
    let context = context_in(alloc, parts)?;
    let kind = kind_in(parts).ok_or(LineCause::NotACall)?;
    make_call_of_kind(alloc, kind, parts, &context, receiver)
}

// The kinds of calls.
enum Kind {
    New,
    Clone,
    Record,
    Event,
    Close,
}

// Returns the kind of call that the parts name, or `None` if its name is unknown or missing.
#[tactic(auto, using(crate::proofs::LineParts::at_call))]
fn kind_in(parts: &Parts<'_>) -> Option<Kind>
    ensures { IsKindIn (parts_data parts.now) result }
{
    match parts.call.unless_null()?.as_str()? {
        "new" => Some(Kind::New),
        "clone" => Some(Kind::Clone),
        "record" => Some(Kind::Record),
        "event" => Some(Kind::Event),
        "close" => Some(Kind::Close),
        _ => None,
    }
}

// Makes the call of this kind.
#[inline(always)]
fn make_call_of_kind<C: Calls>(
    alloc: Global,
    kind: Kind,
    parts: &Parts<'_>,
    context: &Context,
    receiver: &mut C,
) -> Result<Reply, LineCause>
    ensures { MakesNamed C.answers (word_of kind) (parts_data parts.now) context.now result
        receiver.old receiver.new }
{
    match kind {
        Kind::New => {
            let attributes = attributes_in(alloc, parts)?;
            Ok(Reply::Span(receiver.new_span(attributes, context)?))
        }
        Kind::Clone => make_clone(parts, receiver),
        Kind::Record => make_record(alloc, parts, receiver),
        Kind::Event => {
            let event = event_in(parts).ok_or(LineCause::NotACall)?;
            receiver.event(&event, context)?;
            Ok(Reply::Done)
        }
        Kind::Close => {
            let id = id_in(parts).ok_or(LineCause::NotACall)?;
            Ok(Reply::Closed(receiver.close(id, context)?))
        }
    }
}

// Makes a new handle of a span. Clones and records are rare. As separate functions, they keep their
// values out of the caller's frame, which is zeroed for each line.
#[inline(never)]
fn make_clone<C: Calls>(parts: &Parts<'_>, receiver: &mut C) -> Result<Reply, LineCause>
    ensures { (context : Context) → MakesNamed C.answers (codes "clone") (parts_data parts.now)
        context result receiver.old receiver.new }
{
    let id = id_in(parts).ok_or(LineCause::NotACall)?;
    Ok(receiver.call(Call::Clone(id))?)
}

// Records fields of a span.
#[inline(never)]
fn make_record<C: Calls>(
    alloc: Global,
    parts: &Parts<'_>,
    receiver: &mut C,
) -> Result<Reply, LineCause>
    ensures { (context : Context) → MakesNamed C.answers (codes "record") (parts_data parts.now)
        context result receiver.old receiver.new }
{
    let id = id_in(parts).ok_or(LineCause::NotACall)?;
    let fields = copied(alloc, fields_in(parts).ok_or(LineCause::NotACall)?)?;
    Ok(receiver.call(Call::Record(id, Record { fields }))?)
}

// Reads the attributes of a new span. `NotACall` if they are invalid, `Memory` if an allocation
// fails.
fn attributes_in(alloc: Global, parts: &Parts<'_>) -> Result<Attributes, LineCause>
    ensures { IsReadAs (attributes_in (parts_data parts.now)) result }
{
    let name = name_in(parts).ok_or(LineCause::NotACall)?;
    let target = target_in(parts).ok_or(LineCause::NotACall)?;
    let parent = parent_in(parts).ok_or(LineCause::NotACall)?;
    let fields = fields_in(parts).ok_or(LineCause::NotACall)?;
    Ok(Attributes {
        name: Text::from_str(alloc, name)?,
        target: Text::from_str(alloc, target)?,
        parent,
        fields: copied(alloc, fields)?,
    })
}

// Reads an event, without a copy of its strings. `None` if it is invalid.
fn event_in<'a>(parts: &'a Parts<'a>) -> Option<EventTexts<'a>>
    ensures { result ≡ event_in (parts_data parts.now) }
{
    Some(EventTexts {
        level: level_in(parts)?,
        target: target_in(parts)?,
        parent: parent_in(parts)?,
        fields: fields_in(parts)?,
    })
}

// Reads the id of the call's span. `None` if it is missing or invalid.
#[tactic(auto, using(crate::proofs::LineParts::at_id))]
fn id_in(parts: &Parts<'_>) -> Option<Id>
    ensures { result ≡ id_in (parts_data parts.now) }
{
    id_value(parts.id.unless_null()?)
}

// Reads the name of a span. `None` if it is missing or invalid.
#[tactic(auto, using(crate::proofs::LineParts::at_name))]
fn name_in<'a>(parts: &Parts<'a>) -> Option<&'a str>
    ensures { option_map (λ name. name.now) result
        ≡ read_or None as_str (codes "name") (parts_data parts.now) }
{
    parts.name.unless_null()?.as_str()
}

// Reads the level of an event. `None` if it is missing or invalid.
#[tactic(auto, using(crate::proofs::LineParts::at_level))]
fn level_in(parts: &Parts<'_>) -> Option<Level>
    ensures { result ≡ read_or None (λ v. option_and_then level_named (as_str v)) (codes "level")
        (parts_data parts.now) }
{
    level_value(parts.level.unless_null()?)
}

// Reads a target. It is empty if it is missing. `None` if it is invalid.
#[tactic(auto, using(crate::proofs::LineParts::at_target))]
fn target_in<'a>(parts: &Parts<'a>) -> Option<&'a str>
    ensures { option_map (λ target. target.now) result
        ≡ read_or (Some []) as_str (codes "target") (parts_data parts.now) }
{
    match parts.target.unless_null() {
        Some(target) => target.as_str(),
        None => Some(""),
    }
}

// Reads a parent. It is the current span if it is missing. `None` if it is invalid.
#[tactic(auto, using(crate::proofs::LineParts::at_parent))]
fn parent_in(parts: &Parts<'_>) -> Option<Parent>
    ensures { result ≡ read_or (Some Current) parent_value (codes "parent") (parts_data parts.now) }
{
    match parts.parent.unless_null() {
        Some(parent) => parent_value(parent),
        None => Some(Parent::Current),
    }
}

// Reads the fields. The list is empty if they are missing. `None` if they are invalid.
#[tactic(auto, using(crate::proofs::LineParts::at_fields))]
fn fields_in<'a>(parts: &'a Parts<'a>) -> Option<&'a [FieldTexts<'a>]>
    ensures { option_map (λ fields. fields.now) result
        ≡ read_or (Some []) fields_value (codes "fields") (parts_data parts.now) }
{
    parts.fields.as_fields()
}

// Copies fields.
fn copied(alloc: Global, fields: &[FieldTexts<'_>]) -> Result<Fields, AllocError>
    ensures { IfOk result (λ made. made ≡ fields.now) }
{
    if let [field] = fields {
        return Ok(Fields::one(alloc, field.to_field(alloc)?));
    }
    // Grown by `push`, so the list has capacity for the first fields that are recorded later.
    let mut list = Vec::new(alloc);
    for field in fields {
        list.push(field.to_field(alloc)?)?;
    }
    Ok(Fields::from(list))
}

// Parses a level's name. `None` if it is unknown.
fn level_value(part: &Part<'_>) -> Option<Level>
    ensures { result ≡ option_and_then level_named (as_str (part_data part.now)) }
{
    part.as_str()?.parse().ok()
}

// Reads a parent: `root`, `current` or a span's number.
fn parent_value(part: &Part<'_>) -> Option<Parent>
    ensures { result ≡ parent_value (part_data part.now) }
{
    match part {
        Part::Text("root") => Some(Parent::Root),
        Part::Text("current") => Some(Parent::Current),
        Part::Whole(number) => Some(Parent::Of(Id(*number))),
        _ => None,
    }
}
