//! The functions that C calls. Each returns a status: 0 on success, otherwise the reason (see the
//! header).

ghost use Rattle.std.specs.Prelude.{◌≡◌, ⊤, None, pos};
ghost use Rattle.std.specs.Fmt.{signed_decimal};
ghost use Rattle.tracing_tree_base.specs.Field.{quoted, truth_text};
ghost use Rattle.tracing_tree_spans.specs.Registry.Ids.{id_of};
ghost use Rattle.tracing_tree_layer.specs.declared.call.Call.TheVariants.{Clone};
ghost use Rattle.tracing_tree_c.specs.Foreign.{IsUtf8Fields, IsUtf8Context, IsUtf8New, IsUtf8Event, IsSmallContext, IsSmallNew, IsKnownNew, IsKnownEvent, IsSmallTime, IsUtf8Time, HasNoFields, IsNewOf, IsEventOf, IsRecordOf, IsCloseOf};
ghost use Rattle.tracing_tree_c.specs.Exports.{Answers, AnswersOpening, AnswersWith, Copies, IsCopied, IsCurrent, IsWritten, id_after, went_after};
ghost use Rattle.tracing_tree_c.specs.Trees.{Enters, Exits, MakesCall, SetsTime, written_of};

use crate::act::{Enter, Exit};
use crate::foreign::{
    AttributesRef, ContextRef, EventRef, FieldRef, TimeRef, close_in, event_in, new_in, record_in,
    time_in,
};
use crate::settings::SettingsRef;
use crate::tree::Tree;
use crate::value::{copy, write_quoted, write_whole};
use std::alloc::Global;
use tracing_tree_base::Id;
use tracing_tree_layer::call::Call;

// The version of these functions and structs.
const VERSION: u32 = 1;

/// Returns the version of these functions and structs.
#[unsafe(no_mangle)]
pub extern "C" fn tt_version() -> u32
    ensures { result ≡ 1 }
{
    VERSION
}

/// Makes a tree, unless there is one already. Returns a status.
#[unsafe(no_mangle)]
pub extern "C" fn tt_raw_new(alloc: Global, tree: &mut Tree, settings: &SettingsRef) -> u32
    ensures { AnswersOpening settings.now result tree.old.kept tree.new.kept }
{
    tree.open(alloc, settings).status()
}

/// Makes a span, and stores its id in `id`. Returns a status. If it isn't 0, `id` is unchanged.
#[unsafe(no_mangle)]
pub extern "C" fn tt_raw_new_span(
    alloc: Global,
    tree: &mut Tree,
    attributes: &AttributesRef,
    fields: &[FieldRef],
    context: &ContextRef,
    id: &mut u64,
) -> u32
    ensures { AnswersWith id_after (IsKnownNew attributes.now)
        (IsUtf8New attributes.now fields.now context.now)
        (IsSmallNew attributes.now fields.now context.now)
        (MakesCall (IsNewOf attributes.now fields.now context.now)) result id.old id.new
        tree.old.kept tree.new.kept }
{
    let read = new_in(alloc, attributes, fields, context, false);
    let outcome = tree.perform(alloc, read);
    *id = outcome.id_or(*id);
    outcome.status()
}

/// Records an event. Returns a status.
#[unsafe(no_mangle)]
pub extern "C" fn tt_raw_event(
    alloc: Global,
    tree: &mut Tree,
    event: &EventRef,
    fields: &[FieldRef],
    context: &ContextRef,
) -> u32
    ensures { Answers (IsKnownEvent event.now) (IsUtf8Event event.now fields.now context.now)
        (IsSmallContext context.now)
        (MakesCall (IsEventOf event.now fields.now context.now)) result
        tree.old.kept tree.new.kept }
{
    let read = event_in(alloc, event, fields, context, false);
    tree.perform(alloc, read).status()
}

/// Makes a span like `tt_raw_new_span`, without a check that its strings are UTF-8. The caller must
/// ensure that they are.
#[unsafe(no_mangle)]
pub extern "C" fn tt_utf8_new_span(
    alloc: Global,
    tree: &mut Tree,
    attributes: &AttributesRef,
    fields: &[FieldRef],
    context: &ContextRef,
    id: &mut u64,
) -> u32
    requires { IsUtf8New attributes.now fields.now context.now }
    ensures { AnswersWith id_after (IsKnownNew attributes.now)
        (IsUtf8New attributes.now fields.now context.now)
        (IsSmallNew attributes.now fields.now context.now)
        (MakesCall (IsNewOf attributes.now fields.now context.now)) result id.old id.new
        tree.old.kept tree.new.kept }
{
    let read = new_in(alloc, attributes, fields, context, true);
    let made = tree.perform(alloc, read);
    *id = made.id_or(*id);
    made.status()
}

/// Records an event like `tt_raw_event`, without a check that its strings are UTF-8. The caller
/// must ensure that they are.
#[unsafe(no_mangle)]
pub extern "C" fn tt_utf8_event(
    alloc: Global,
    tree: &mut Tree,
    event: &EventRef,
    fields: &[FieldRef],
    context: &ContextRef,
) -> u32
    requires { IsUtf8Event event.now fields.now context.now }
    ensures { Answers (IsKnownEvent event.now) (IsUtf8Event event.now fields.now context.now)
        (IsSmallContext context.now)
        (MakesCall (IsEventOf event.now fields.now context.now)) result
        tree.old.kept tree.new.kept }
{
    let read = event_in(alloc, event, fields, context, true);
    tree.perform(alloc, read).status()
}

/// Appends fields to those of a span. Returns a status.
#[unsafe(no_mangle)]
pub extern "C" fn tt_raw_record(alloc: Global, tree: &mut Tree, id: u64, fields: &[FieldRef]) -> u32
    ensures { Answers ⊤ (IsUtf8Fields fields.now) (HasNoFields fields.now)
        (MakesCall (IsRecordOf id fields.now)) result
        tree.old.kept tree.new.kept }
{
    let read = record_in(alloc, id, fields);
    tree.perform(alloc, read).status()
}

/// Adds a handle to a span. Returns a status.
#[unsafe(no_mangle)]
pub extern "C" fn tt_raw_clone_span(alloc: Global, tree: &mut Tree, id: u64) -> u32
    ensures { Answers ⊤ ⊤ ⊤ (MakesCall (λ call. call ≡ Clone (id_of id))) result
        tree.old.kept tree.new.kept }
{
    tree.perform(alloc, Ok(Call::Clone(Id(id)))).status()
}

/// Drops a handle of a span, and stores in `went` whether the span was removed. Returns a status.
/// If it isn't 0, `went` is unchanged.
#[unsafe(no_mangle)]
pub extern "C" fn tt_raw_close(
    alloc: Global,
    tree: &mut Tree,
    id: u64,
    context: &ContextRef,
    went: &mut bool,
) -> u32
    ensures { AnswersWith went_after ⊤ (IsUtf8Context context.now) (IsSmallContext context.now)
        (MakesCall (IsCloseOf id context.now)) result
        went.old went.new tree.old.kept tree.new.kept }
{
    let read = close_in(alloc, id, context);
    let outcome = tree.perform(alloc, read);
    *went = outcome.went_or(*went);
    outcome.status()
}

/// Sets the strings that are shown as the time of each event from now on. They replace the timer.
/// Returns a status.
#[unsafe(no_mangle)]
pub extern "C" fn tt_raw_set_time(alloc: Global, tree: &mut Tree, time: &TimeRef) -> u32
    ensures { Answers ⊤ (IsUtf8Time time.now) (IsSmallTime time.now)
        (SetsTime (written_of time.now)) result tree.old.kept tree.new.kept }
{
    let read = time_in(alloc, time);
    tree.perform(alloc, read).status()
}

/// Enters a live span. Returns a status.
#[unsafe(no_mangle)]
pub extern "C" fn tt_raw_enter(alloc: Global, tree: &mut Tree, id: u64) -> u32
    ensures { Answers ⊤ ⊤ ⊤ (Enters id) result tree.old.kept tree.new.kept }
{
    tree.perform(alloc, Ok(Enter(id))).status()
}

/// Removes the last entry into a span. Returns a status.
#[unsafe(no_mangle)]
pub extern "C" fn tt_raw_exit(alloc: Global, tree: &mut Tree, id: u64) -> u32
    ensures { Answers ⊤ ⊤ ⊤ (Exits id) result tree.old.kept tree.new.kept }
{
    tree.perform(alloc, Ok(Exit(id))).status()
}

/// Returns the id of the innermost entered span that is live, or 0.
#[unsafe(no_mangle)]
pub extern "C" fn tt_raw_current(alloc: Global, tree: &mut Tree) -> u64
    ensures { IsCurrent result tree.old.kept tree.new.kept }
{
    let Some(drawing) = tree.take(alloc) else {
        return 0;
    };
    let id = drawing.current();
    tree.put(drawing);
    id
}

/// Frees a tree. Does nothing if there isn't one.
#[unsafe(no_mangle)]
pub extern "C" fn tt_raw_free(alloc: Global, tree: &mut Tree)
    ensures { tree.new.kept ≡ None }
{
    drop(tree.take(alloc));
}

/// Copies the output of the last call to `room`, if it fits. Returns the output's length in bytes,
/// or 0 if there isn't a tree.
#[unsafe(no_mangle)]
pub extern "C" fn tt_raw_text(alloc: Global, tree: &mut Tree, room: &mut [u8]) -> usize
    ensures { Copies result room.old room.new tree.old.kept tree.new.kept }
{
    let Some(drawing) = tree.take(alloc) else {
        return 0;
    };
    let length = copy(drawing.text(), room);
    tree.put(drawing);
    length
}

/// Writes a string in Rust's debug form to `room`, if it fits. Returns its length in bytes, or 0 if
/// memory runs out.
#[unsafe(no_mangle)]
pub extern "C" fn tt_raw_string(alloc: Global, text: &[u8], room: &mut [u8]) -> usize
    ensures { IsWritten (quoted text.now) result room.old room.new }
{
    write_quoted(alloc, text, room)
}

/// Writes a whole number to `room` like `tt_raw_string`.
#[unsafe(no_mangle)]
pub extern "C" fn tt_raw_int(alloc: Global, value: i64, room: &mut [u8]) -> usize
    ensures { IsWritten (signed_decimal value) result room.old room.new }
{
    write_whole(alloc, i128::from(value), room)
}

/// Writes a whole number to `room` like `tt_raw_string`.
#[unsafe(no_mangle)]
pub extern "C" fn tt_raw_uint(alloc: Global, value: u64, room: &mut [u8]) -> usize
    ensures { IsWritten (signed_decimal (pos value)) result room.old room.new }
{
    write_whole(alloc, i128::from(value), room)
}

/// Writes `true` or `false` to `room`, if it fits. Returns the length in bytes.
#[unsafe(no_mangle)]
pub extern "C" fn tt_raw_bool(value: bool, room: &mut [u8]) -> usize
    ensures { IsCopied (truth_text value) result room.old room.new }
{
    copy(if value { b"true" } else { b"false" }, room)
}
