//! Runs whose events are read back only from their drawing.

ghost use Rattle.std.specs.Prelude.{◌≡◌, [], IfSome, Option, length};
ghost use Rattle.tracing_tree_base.specs.declared.context.Id.{Id};
ghost use Rattle.tracing_tree_drawing.specs.Format.Picture.{draw};
ghost use Rattle.tracing_tree_layer.specs.Laws.Reading.{rows_of};
ghost use Rattle.tracing_tree_layer.specs.Layered.Run.{accepted_calls};
ghost use Rattle.tracing_tree_laws.specs.ReadBack.{AreAllAccepted, FindsAll, IsEmpty};

use std::alloc::Global;
use std::str;
use tracing_tree::format::{Refusal, Tape};
use tracing_tree::rows::{EventPath, read_paths};
use tracing_tree::time::FormatTime;
use tracing_tree::{Call, Layered, Reply};

/// The answers of a run, and the paths of its events as its drawing shows them.
#[derive(Drop)]
pub struct EventsRead {
    /// The answer to each call, in order.
    pub answers: Vec<Result<Reply, Refusal>>,

    /// The events in order, with the indices of their ancestors.
    pub paths: Vec<EventPath>,
}

/// Makes the calls, and reads the events back from what they drew.
///
/// Suppose the layered value began empty, its rows are readable, `close_retrace` is on, and so is
/// `span_retrace` or `deferred_spans`. Then the rows show for each accepted event in its current
/// span the rows that open the spans on its path. This follows from the contracts of
/// [`Layered::run`] and [`read_paths`].
///
/// Returns `None` if the amount is below 2, memory runs out, the layer fails or its output can't be
/// read.
pub fn read_events<FT: FormatTime>(
    alloc: Global,
    layered: &mut Layered<Tape, FT>,
    calls: Vec<Call>,
) -> Option<EventsRead>
    ensures each { IfSome result (λ read. length read.answers.items ≡ length calls.items) }
    ensures drawn { (first : Option Id) → IsEmpty first layered.old
        → layered.old.layer.writer.bytes ≡ [] → IfSome result (λ read.
        layered.new.layer.writer.bytes ≡ draw layered.old.layer.settings (rows_of
        layered.old.layer.settings (FT.timer layered.old.layer.timer) first
        (accepted_calls calls.items read.answers.items))) }
    ensures found { (first : Option Id) → IsEmpty first layered.old
        → layered.old.layer.writer.bytes ≡ [] → IfSome result (λ read.
        FindsAll layered.old.layer.settings (FT.timer layered.old.layer.timer) first
        (accepted_calls calls.items read.answers.items) read.paths.items) }
    ensures accepted { (first : Option Id) → IsEmpty first layered.old → IfSome result (λ read.
        AreAllAccepted layered.old.layer.settings (FT.timer layered.old.layer.timer) first
        (accepted_calls calls.items read.answers.items)) }
{
    let answers = layered.run(alloc, calls).ok()?;
    let amount = layered.layer().config().indent_amount();
    if amount < 2 || layered.layer().failed() {
        return None;
    }
    let text = str::from_utf8(layered.writer().bytes()).ok()?;
    let paths = read_paths(alloc, text, amount).ok()?;
    Some(EventsRead { answers, paths })
}
