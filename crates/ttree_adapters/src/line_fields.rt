//! Further members of a line's JSON object, shown at its events.

ghost use Rattle.std.specs.Prelude.{◌≡◌, ◌++◌, IfOk, OnOk, map};
ghost use Rattle.json.specs.Value.{value_view};
ghost use Rattle.ttree_adapters.specs.LineFields.{all_with, call_with, found_fields, member_field};

use crate::mapping::Mapping;
use json::Value;
use std::alloc::{AllocError, Global};
use std::marker::Model;
use tracing_tree_base::field::{Field, Fields};
use tracing_tree_base::text::Text;
use tracing_tree_layer::call::Call;
use ttree_source::calls::shown;
use ttree_source::fields::text_of;

/// A member that is shown.
#[derive(Debug, Drop)]
pub struct Member {
    /// Its key in the object.
    pub key: Text,

    /// The name of the field that shows it.
    pub name: Text,
}

/// Shows members of a line's JSON object as fields of the line's events, after the others. A key
/// that a line doesn't have is left out.
#[derive(Debug, Drop)]
pub struct LineFields {
    alloc: Global,
    members: Vec<Member>,
}

impl Model for LineFields {
    ghost use Rattle.std.specs.Prelude.{List};
    ghost use Rattle.ttree_adapters.specs.declared.line_fields.Member.{Member};

    ghost Value = { List Member };

    ghost view = { λ l. l.members.items };
}

impl LineFields {
    /// Shows these members, in this order.
    pub fn new(alloc: Global, members: Vec<Member>) -> LineFields
        ensures { result ≡ members.items }
    {
        LineFields { alloc, members }
    }
}

impl Mapping for LineFields {
    ghost use Rattle.ttree_adapters.specs.LineFields.{makes_with_members};

    ghost makes = { makes_with_members };

    fn map(
        &mut self,
        _alloc: Global,
        value: Option<&Value<'_>>,
        calls: Vec<Call>,
    ) -> Result<Vec<Call>, AllocError> {
        let Some(value) = value else {
            return Ok(calls);
        };
        with_members(self.alloc, self.members.as_slice(), value, calls)
    }
}

// Returns the calls of a line with this value, and the members that it has at each event.
fn with_members(
    alloc: Global,
    members: &[Member],
    value: &Value<'_>,
    calls: Vec<Call>,
) -> Result<Vec<Call>, AllocError>
    ensures { IfOk result (λ made.
        made.items ≡ all_with (found_fields (value_view value.now) members.now) calls.items) }
{
    let fields = found_fields(alloc, members, value)?;
    all_with(alloc, &fields, calls)
}

// Returns the members that an object has, as fields.
fn found_fields(alloc: Global, members: &[Member], value: &Value<'_>) -> Result<Fields, AllocError>
    ensures { IfOk result (λ fields. fields ≡ found_fields (value_view value.now) members.now) }
{
    let mut fields = Vec::new(alloc);
    let mut rest = members;
    while let [member, others @ ..] = rest {
        push_found(alloc, &mut fields, member, value)?;
        rest = others;
    }
    Ok(Fields::from(fields))
}

fn push_found(
    alloc: Global,
    fields: &mut Vec<Field>,
    member: &Member,
    value: &Value<'_>,
) -> Result<(), AllocError>
    ensures { OnOk result (fields.new.items
        ≡ fields.old.items ++ member_field (value_view value.now) member.now) }
{
    let Some(found) = value.get(member.key.as_str()) else {
        return Ok(());
    };
    let field = Field {
        name: shown(alloc, member.name.as_str())?,
        value: text_of(alloc, found)?,
    };
    Ok(fields.push(field)?)
}

fn all_with(alloc: Global, fields: &Fields, calls: Vec<Call>) -> Result<Vec<Call>, AllocError>
    ensures { IfOk result (λ made. made.items ≡ all_with fields.now calls.items) }
{
    let mut made = Vec::new(alloc);
    for call in calls {
        made.push(call_with(fields, call)?)?;
    }
    Ok(made)
}

// Returns a call, which shows these fields too if it is an event.
fn call_with(fields: &Fields, call: Call) -> Result<Call, AllocError>
    ensures { IfOk result (λ made. made ≡ call_with fields.now call) }
{
    match call {
        Call::Event(event, context) => {
            let mut event = event;
            event.fields.append(fields.clone()?)?;
            Ok(Call::Event(event, context))
        }
        other => Ok(other),
    }
}
