//! The context of each call.

ghost use Rattle.std.specs.Prelude.{◌≡◌, None, Some, codes, option_map, pos};
ghost use Rattle.std.specs.Option.{option_map_or};
ghost use Rattle.serde_json.specs.Find.{as_str};
ghost use Rattle.tracing_tree_lines.specs.Lines.Parts.{part_data, parts_data};
ghost use Rattle.tracing_tree_lines.specs.Lines.Values.{ReadsMoment, ReadsContext};
ghost use Rattle.tracing_tree_lines.specs.Lines.Spelled.{id_value, read_or, signed_value, unless_null, whole_value};

use super::LineCause;
use super::part::Part;
use super::parts::Parts;
use jiff::Timestamp;
use std::alloc::Global;
use tracing_tree_base::text::Text;
use tracing_tree_base::{Context, Id};
use tracing_tree_time::Moment;

// Reads the context of a call. `NotACall` if a part of it is invalid, `Memory` if an allocation
// fails.
pub(super) fn context_in(alloc: Global, parts: &Parts<'_>) -> Result<Context, LineCause>
    ensures { ReadsContext (parts_data parts.now) result }
{
    let moment = moment_in(parts).ok_or(LineCause::NotACall)?;
    let current = current_in(parts).ok_or(LineCause::NotACall)?;
    let thread_id = thread_in(parts).ok_or(LineCause::NotACall)?;
    let thread_name = match thread_name_in(parts).ok_or(LineCause::NotACall)? {
        Some(name) => Some(Text::from_str(alloc, name)?),
        None => None,
    };
    Ok(Context {
        current,
        thread_id,
        thread_name,
        moment,
    })
}

// Reads the current span, if there is one. `None` if it is invalid.
#[tactic(auto, using(crate::proofs::LineParts::at_current))]
fn current_in(parts: &Parts<'_>) -> Option<Option<Id>>
    ensures { result ≡ read_or (Some None) (λ v. option_map Some (id_value v)) (codes "current")
        (parts_data parts.now) }
{
    match parts.current.unless_null() {
        Some(current) => Some(Some(id_value(current)?)),
        None => Some(None),
    }
}

// Reads the number of the thread. It is 1 if it is missing. `None` if it is invalid.
#[tactic(auto, using(crate::proofs::LineParts::at_thread))]
fn thread_in(parts: &Parts<'_>) -> Option<u64>
    ensures { result ≡ read_or (Some 1) whole_value (codes "thread") (parts_data parts.now) }
{
    whole_or(1, &parts.thread)
}

// Reads the name of the thread, if it has one. `None` if it is invalid.
#[tactic(auto, using(crate::proofs::LineParts::at_thread_name))]
fn thread_name_in<'a>(parts: &Parts<'a>) -> Option<Option<&'a str>>
    ensures { option_map (option_map (λ name. name.now)) result
        ≡ read_or (Some None) (λ v. option_map Some (as_str v)) (codes "thread_name")
        (parts_data parts.now) }
{
    match parts.thread_name.unless_null() {
        Some(name) => Some(Some(name.as_str()?)),
        None => Some(None),
    }
}

// Reads the time of the call. `None` if it is invalid.
fn moment_in(parts: &Parts<'_>) -> Option<Moment>
    ensures { ReadsMoment (parts_data parts.now) result }
{
    let mono = mono_in(parts)?;
    let nanosecond = wall_in(parts)?;
    let wall = Timestamp::from_nanosecond(i128::from(nanosecond)).unwrap();
    Some(Moment { mono, wall })
}

// Reads the time in nanoseconds on the monotonic clock. It is 0 if it is missing. `None` if it is
// invalid.
#[tactic(auto, using(crate::proofs::LineParts::at_mono))]
fn mono_in(parts: &Parts<'_>) -> Option<u64>
    ensures { result ≡ read_or (Some 0) whole_value (codes "mono") (parts_data parts.now) }
{
    whole_or(0, &parts.mono)
}

// Reads the time in nanoseconds since 1970 on the wall clock. It is 0 if it is missing. `None` if
// it is invalid.
#[tactic(auto, using(crate::proofs::LineParts::at_wall))]
fn wall_in(parts: &Parts<'_>) -> Option<i64>
    ensures { result ≡ read_or (Some (pos 0)) signed_value (codes "wall") (parts_data parts.now) }
{
    match parts.wall.unless_null() {
        Some(wall) => wall.as_signed(),
        None => Some(0),
    }
}

// Reads a whole number of 64 bits, or returns `absent` if it is missing. `None` if it is invalid.
fn whole_or(absent: u64, part: &Part<'_>) -> Option<u64>
    ensures { result ≡ option_map_or whole_value (unless_null (part_data part.now)) (Some absent) }
{
    match part.unless_null() {
        Some(found) => found.as_whole(),
        None => Some(absent),
    }
}

// Reads a span's number.
pub(super) fn id_value(part: &Part<'_>) -> Option<Id>
    ensures { result ≡ id_value (part_data part.now) }
{
    Some(Id(part.as_whole()?))
}
