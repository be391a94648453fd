//! Threads as columns of a fixed width.

ghost use Rattle.std.specs.Prelude.{◌≡◌, IfOk, map};
ghost use Rattle.ttree_adapters.specs.Threads.{call_in_column, column, in_column};

use crate::column::push_spaces;
use crate::mapping::Mapping;
use json::Value;
use std::alloc::{AllocError, Global};
use tracing_tree_base::Context;
use tracing_tree_base::text::Text;
use tracing_tree_layer::call::Call;
use ttree_columns::push_fitting;

// The columns of a thread. The last is a space.
const WIDTH: usize = 16;

/// Begins each row with a column for its thread, so that the tree stays aligned.
///
/// A name takes 16 columns on a terminal: its first characters, as many as take at most 15, and
/// spaces. A call without a thread has 16 spaces. The columns are drawn if names of threads are.
#[derive(Clone, Copy, Debug, Drop)]
pub struct ThreadColumns;

impl Mapping for ThreadColumns {
    ghost use Rattle.ttree_adapters.specs.Threads.{makes_in_columns};

    ghost makes = { makes_in_columns };

    fn reads_values(&self) -> bool {
        false
    }

    fn map(
        &mut self,
        alloc: Global,
        _value: Option<&Value<'_>>,
        calls: Vec<Call>,
    ) -> Result<Vec<Call>, AllocError> {
        all_in_columns(alloc, calls)
    }
}

fn all_in_columns(alloc: Global, calls: Vec<Call>) -> Result<Vec<Call>, AllocError>
    ensures { IfOk result (λ made. made.items ≡ map call_in_column calls.items) }
{
    let mut made = Vec::new(alloc);
    for call in calls {
        made.push(call_in_column(alloc, call)?)?;
    }
    Ok(made)
}

fn call_in_column(alloc: Global, call: Call) -> Result<Call, AllocError>
    ensures { IfOk result (λ made. made ≡ call_in_column call) }
{
    match call {
        Call::New(attributes, context) => Ok(Call::New(attributes, in_column(alloc, context)?)),
        Call::Event(event, context) => Ok(Call::Event(event, in_column(alloc, context)?)),
        Call::Close(id, context) => Ok(Call::Close(id, in_column(alloc, context)?)),
        other => Ok(other),
    }
}

fn in_column(alloc: Global, context: Context) -> Result<Context, AllocError>
    ensures { IfOk result (λ made. made ≡ in_column context) }
{
    let name = match &context.thread_name {
        Some(name) => column(alloc, name.as_str())?,
        None => column(alloc, "")?,
    };
    Ok(Context {
        thread_name: Some(name),
        ..context
    })
}

// Returns a name as a column.
fn column(alloc: Global, name: &str) -> Result<Text, AllocError>
    ensures { IfOk result (λ text. text ≡ column name.now) }
{
    let mut text = String::new(alloc);
    let reached = push_fitting(&mut text, name, WIDTH)?;
    push_spaces(&mut text, WIDTH.saturating_sub(reached))?;
    Ok(Text::from(text))
}
