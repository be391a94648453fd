//! Runs whose drawing is read back, only from the public contracts of `Layered::run` and
//! `read_rows`.

ghost use Rattle.std.specs.Prelude.{◌≡◌, IfSome};
ghost use Rattle.tracing_tree_time.specs.Clock.{no_timer};
ghost use Rattle.tracing_tree_drawing.specs.Rows.Readable.{IsReadable, text_rows};
ghost use Rattle.tracing_tree_layer.specs.Layered.Run.{accepted_calls, run};
ghost use Rattle.tracing_tree_layer.specs.Layered.State.{State};

use std::alloc::{AllocError, Global};
use std::str;
use std::test::*;
use test_support::{Step, calls, lined};
use tracing_tree::call::{Call, Reply};
use tracing_tree::format::{Refusal, Tape};
use tracing_tree::layered::Layered;
use tracing_tree::rows::{Row, Shape, read_rows};
use tracing_tree::style::Level;

// What a run answered, and the rows that are read of its drawing.
#[derive(Drop)]
struct ReadBack {
    answers: Vec<Result<Reply, Refusal>>,
    rows: Vec<Row>,
}

// Makes the calls, and reads the rows that they drew: those of the run of the accepted calls, if
// these rows are readable. Returns `None` if the writer wasn't empty before, the amount is below 2,
// memory runs out, the layer fails or its drawing can't be read.
fn read_back(alloc: Global, layered: &mut Layered<Tape, ()>, calls: Vec<Call>) -> Option<ReadBack>
    ensures { IfSome result (λ back.
        let settings = layered.old.layer.settings in
        let state : State = record {
          forest = layered.old.forest;
          last = layered.old.layer.last;
          failed = layered.old.layer.failed;
        } in
        let accepted = accepted_calls calls.items back.answers.items in
        let rows = (run settings no_timer state accepted).rows in
        IsReadable settings rows → back.rows.items ≡ text_rows rows) }
{
    if !layered.writer().bytes().is_empty() {
        return None;
    }
    let answers = layered.run(alloc, calls).ok()?;
    let amount = layered.layer().config().indent_amount();
    if amount < 2 || layered.layer().failed() {
        return None;
    }
    let text = str::from_utf8(layered.writer().bytes()).ok()?;
    let rows = read_rows(alloc, text, amount).ok()?;
    Some(ReadBack { answers, rows })
}

// Two spans. The inner one has an event and closes. One close is refused.
const STEPS: [Step<'static>; 5] = [
    Step::New("a", None),
    Step::Close(7),
    Step::New("b", Some(1)),
    Step::Event(Level::Warn, "x", Some(2)),
    Step::Close(2),
];

// Returns what is read back of them. It promises nothing, so that the test is soon proved.
fn steps_read_back(alloc: Global) -> Result<Option<ReadBack>, AllocError> {
    let calls = calls(alloc, STEPS.as_slice())?;
    let mut layered = lined(alloc)?;
    Ok(read_back(alloc, &mut layered, calls))
}

const SHAPES: [Shape; 4] = [
    Shape::OpenRoot,
    Shape::Open(false),
    Shape::Event,
    Shape::Close(false),
];

#[test]
fn reads_a_run_back(rt: HostRuntime) -> Result<(), Fail> {
    let Some(back) = steps_read_back(rt.alloc())? else {
        return Err(Fail::from("the drawing isn't read"));
    };
    let accepted = back.answers.iter().filter(|answer| answer.is_ok()).count();
    assert_eq!(rt; accepted, 4);
    assert_eq!(rt; back.rows.len(), 4);
    for (row, shape) in back.rows.iter().zip(SHAPES) {
        assert_eq!(rt; row.shape(), shape);
    }
    Ok(())
}
