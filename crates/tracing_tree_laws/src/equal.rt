//! Equality holds exactly if all parts are equal. There is a function for each of 26 public types
//! that derive it, and for `Text` and `Fields`, whose contract says so.

ghost use Rattle.std.specs.Prelude.{◌≡◌};
ghost use Rattle.std.specs.Bool.{Decides};

use tracing_tree::call::{Call, Reply};
use tracing_tree::field::{Field, Fields};
use tracing_tree::format::{Context, Id, OutputFault, Refusal, SpanMode};
use tracing_tree::lines::{LineCause, LineFault};
use tracing_tree::registry::{Attributes, Common, Event, Parent, Record};
use tracing_tree::rows::{DrawFault, ReadFault, RowCause, RowFault, Shape};
use tracing_tree::style::{Level, Style};
use tracing_tree::text::Text;
use tracing_tree::time::{Moment, TimeFault, Uptime, UtcDateTime};

/// Returns whether two strings are equal in all parts.
pub fn texts(left: &Text, right: &Text) -> bool
    ensures { Decides result (left.now ≡ right.now) }
{
    left == right
}

/// Returns whether two fields are equal in all parts.
pub fn fields(left: &Field, right: &Field) -> bool
    ensures { Decides result (left.now ≡ right.now) }
{
    left == right
}

/// Returns whether two lists of fields are equal in all parts.
#[tactic(auto, using(tracing_tree_layer::proofs::Equality::fields_decide))]
pub fn field_lists(left: &Fields, right: &Fields) -> bool
    ensures { Decides result (left.now ≡ right.now) }
{
    left == right
}

/// Returns whether two styles are equal in all parts.
pub fn styles(left: &Style, right: &Style) -> bool
    ensures { Decides result (left.now ≡ right.now) }
{
    left == right
}

/// Returns whether two levels are equal in all parts.
pub fn levels(left: &Level, right: &Level) -> bool
    ensures { Decides result (left.now ≡ right.now) }
{
    left == right
}

/// Returns whether two ids are equal in all parts.
pub fn ids(left: &Id, right: &Id) -> bool
    ensures { Decides result (left.now ≡ right.now) }
{
    left == right
}

/// Returns whether two moments are equal in all parts.
pub fn moments(left: &Moment, right: &Moment) -> bool
    ensures { Decides result (left.now ≡ right.now) }
{
    left == right
}

/// Returns whether two contexts are equal in all parts.
pub fn contexts(left: &Context, right: &Context) -> bool
    ensures { Decides result (left.now ≡ right.now) }
{
    left == right
}

/// Returns whether two refusals are equal in all parts.
pub fn refusals(left: &Refusal, right: &Refusal) -> bool
    ensures { Decides result (left.now ≡ right.now) }
{
    left == right
}

/// Returns whether two kinds of rows are equal in all parts.
pub fn span_modes(left: &SpanMode, right: &SpanMode) -> bool
    ensures { Decides result (left.now ≡ right.now) }
{
    left == right
}

/// Returns whether two parents are equal in all parts.
pub fn parents(left: &Parent, right: &Parent) -> bool
    ensures { Decides result (left.now ≡ right.now) }
{
    left == right
}

/// Returns whether two attributes of new spans are equal in all parts.
pub fn attributes(left: &Attributes, right: &Attributes) -> bool
    ensures { Decides result (left.now ≡ right.now) }
{
    left == right
}

/// Returns whether two records are equal in all parts.
#[tactic(auto, using(tracing_tree_layer::proofs::Equality::fields_decide))]
pub fn records(left: &Record, right: &Record) -> bool
    ensures { Decides result (left.now ≡ right.now) }
{
    left == right
}

/// Returns whether two events are equal in all parts.
pub fn events(left: &Event, right: &Event) -> bool
    ensures { Decides result (left.now ≡ right.now) }
{
    left == right
}

/// Returns whether two results of `common` are equal in all parts.
pub fn commons(left: &Common, right: &Common) -> bool
    ensures { Decides result (left.now ≡ right.now) }
{
    left == right
}

/// Returns whether two faults of timers are equal in all parts.
pub fn time_faults(left: &TimeFault, right: &TimeFault) -> bool
    ensures { Decides result (left.now ≡ right.now) }
{
    left == right
}

/// Returns whether two faults of outputs are equal in all parts.
pub fn output_faults(left: &OutputFault, right: &OutputFault) -> bool
    ensures { Decides result (left.now ≡ right.now) }
{
    left == right
}

/// Returns whether two uptimes are equal in all parts.
pub fn uptimes(left: &Uptime, right: &Uptime) -> bool
    ensures { Decides result (left.now ≡ right.now) }
{
    left == right
}

/// Returns whether two clocks of UTC are equal in all parts.
pub fn utc_clocks(left: &UtcDateTime, right: &UtcDateTime) -> bool
    ensures { Decides result (left.now ≡ right.now) }
{
    left == right
}

/// Returns whether two calls are equal in all parts.
pub fn calls(left: &Call, right: &Call) -> bool
    ensures { Decides result (left.now ≡ right.now) }
{
    left == right
}

/// Returns whether two replies are equal in all parts.
pub fn replies(left: &Reply, right: &Reply) -> bool
    ensures { Decides result (left.now ≡ right.now) }
{
    left == right
}

/// Returns whether two causes of a fault of lines are equal in all parts.
pub fn line_causes(left: &LineCause, right: &LineCause) -> bool
    ensures { Decides result (left.now ≡ right.now) }
{
    left == right
}

/// Returns whether two faults of lines are equal in all parts.
pub fn line_faults(left: &LineFault, right: &LineFault) -> bool
    ensures { Decides result (left.now ≡ right.now) }
{
    left == right
}

/// Returns whether two faults of drawing rows are equal in all parts.
pub fn draw_faults(left: &DrawFault, right: &DrawFault) -> bool
    ensures { Decides result (left.now ≡ right.now) }
{
    left == right
}

/// Returns whether two causes of a fault of rows are equal in all parts.
pub fn row_causes(left: &RowCause, right: &RowCause) -> bool
    ensures { Decides result (left.now ≡ right.now) }
{
    left == right
}

/// Returns whether two faults of rows are equal in all parts.
pub fn row_faults(left: &RowFault, right: &RowFault) -> bool
    ensures { Decides result (left.now ≡ right.now) }
{
    left == right
}

/// Returns whether two faults of reading rows are equal in all parts.
pub fn read_faults(left: &ReadFault, right: &ReadFault) -> bool
    ensures { Decides result (left.now ≡ right.now) }
{
    left == right
}

/// Returns whether two shapes of rows are equal in all parts.
pub fn shapes(left: &Shape, right: &Shape) -> bool
    ensures { Decides result (left.now ≡ right.now) }
{
    left == right
}
