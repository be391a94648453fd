//! Refusals: the draft is returned, and the history and the output are unchanged.

ghost use Rattle.std.specs.Prelude.{◌≡◌};

use crate::opened::{lined, timed, wide};
use crate::plain::{apply, draft, drafted, finish, submit, text};
use std::alloc::{AllocError, Global};
use std::marker::Brand;
use std::sync::Wait;
use std::sync::ledger::{Blank, Ledger};
use std::test::*;
use test_support::{closed, event_call, made};
use tracing_tree_core::format::Refusal;
use tracing_tree_core::style::Level;
use tracing_tree_core::time::{FormatTime, Moment, TimeFault};
use tracing_tree_layer::call::Call;
use tracing_tree_shared::{Book, Draft, Finished, Pass, Refused, SharedLayer};

// Shows nothing, and faults at one moment.
#[derive(Drop)]
struct StopAt {
    moment: u64,
}

impl FormatTime for StopAt {
    ghost use Rattle.std.specs.Prelude.{◌==◌, [], None, Some, if◌then◌else◌};

    ghost timer = { λ stop. record {
      moment_text = λ moment. if moment.mono == stop.moment then None else Some [];
      elapsed_text = λ ansi nanos. Some [];
    } };

    fn format_time(&self, moment: &Moment, _out: &mut String) -> Result<(), TimeFault> {
        if moment.mono == self.moment {
            return Err(TimeFault::Fault);
        }
        Ok(())
    }

    fn style_timestamp(
        &self,
        _ansi: bool,
        _elapsed_ns: u64,
        _out: &mut String,
    ) -> Result<(), TimeFault> {
        Ok(())
    }
}

// Returns an event outside every span, at this moment.
fn event_at(alloc: Global, mono: u64) -> Result<Call, AllocError> {
    let mut call = event_call(alloc, Level::Info, "x", None)?;
    if let Call::Event(_, context) = &mut call {
        context.moment.mono = mono;
    }
    Ok(call)
}

// Returns what was answered to events at these moments, and how many calls were accepted in the
// end.
fn stopped_with<L: Ledger, R: Wait>(
    rt: &R,
    alloc: Global,
    blank: Blank,
) -> Result<Option<(Vec<Option<Refusal>>, usize)>, AllocError>
    requires name { blank.name ≡ L.name }
    requires parts { blank.parts ≡ L.parts }
    requires two { L.parts ≡ 2 }
{
    let layered = timed(alloc, StopAt { moment: 2 });
    let (layer, mut passes) = SharedLayer::<StopAt, L>::open(alloc, blank, layered, 1)?;
    let mut pass = passes.pop().unwrap();
    let mut answers = Vec::new(alloc);
    for mono in 1..=3u64 {
        let Some(draft) = draft(alloc, &layer, event_at(alloc, mono)?) else {
            return Ok(None);
        };
        let answer = submit(rt, &layer, &mut pass, draft);
        answers.push(answer.err().map(|refused| refused.cause))?;
    }
    passes.push(pass)?;
    Ok(finish(layer, passes).map(|finished| (answers, finished.accepted)))
}

#[test]
fn a_timers_fault_is_the_last_but_failed(rt: HostRuntime) -> Result<(), Fail> {
    let ended = stopped_with::<Brand, HostRuntime>(&rt, rt.alloc(), Blank::new(2))?;
    let (answers, accepted) = ended.expect(&rt, "one history");
    assert_eq!(rt;
        answers.as_slice(),
        [None, Some(Refusal::Timer), Some(Refusal::Failed)].as_slice()
    );
    assert_eq!(rt; accepted, 1);
    Ok(())
}

// Applies this call, and returns whether it is accepted.
fn is_applied(alloc: Global, book: &mut Book<()>, call: Call) -> Result<bool, AllocError> {
    Ok(apply(book, drafted(alloc, call)?).is_ok())
}

// Applies this call. If it is refused, returns the refusal with its draft.
fn refused(
    alloc: Global,
    book: &mut Book<()>,
    call: Call,
) -> Result<Option<Box<Refused>>, AllocError> {
    match apply(book, drafted(alloc, call)?) {
        Ok(_) => Ok(None),
        Err(refused) => Ok(Some(Box::new(alloc, refused)?)),
    }
}

// Applies the draft that came back, and returns whether it is accepted.
fn is_applied_again(book: &mut Book<()>, refused: Box<Refused>) -> bool {
    apply(book, Box::into_inner(refused).draft).is_ok()
}

// Returns a book in a box, since each step of a test is proved over all that its own values hold.
fn boxed(alloc: Global, book: Book<()>) -> Result<Box<Book<()>>, AllocError> {
    Ok(Box::new(alloc, book)?)
}

// Returns a book over a layer with lines.
fn lined_book(alloc: Global) -> Result<Box<Book<()>>, AllocError> {
    boxed(alloc, Book::new(alloc, lined(alloc)))
}

// Returns a book whose rows at level 1 exceed all memory.
fn wide_book(alloc: Global) -> Result<Box<Book<()>>, AllocError> {
    boxed(alloc, Book::new(alloc, wide(alloc)))
}

#[test]
fn a_refused_draft_comes_back(rt: HostRuntime) -> Result<(), Fail> {
    let alloc = rt.alloc();
    let mut book = lined_book(alloc)?;
    let refused = refused(alloc, &mut book, closed(7))?.expect(&rt, "a refusal");
    assert_eq!(rt;
        refused.cause,
        Refusal::NotHeld(tracing_tree_core::format::Id(7))
    );
    assert_eq!(rt; *refused.draft.call(), closed(7));
    assert_eq!(rt; book.history().len(), 0);
    assert_eq!(rt; text(&book), "".as_bytes());
    Ok(())
}

#[test]
fn a_draft_that_memory_was_refused_to_is_applied_again(rt: HostRuntime) -> Result<(), Fail> {
    let alloc = rt.alloc();
    let mut book = wide_book(alloc)?;
    assert!(rt; is_applied(alloc, &mut book, made(alloc, "a", None)?)?);
    let event = event_call(alloc, Level::Info, "x", Some(1))?;
    let refused = refused(alloc, &mut book, event)?.expect(&rt, "a refusal");
    assert_eq!(rt; refused.cause, Refusal::Memory);
    assert_eq!(rt; book.history().len(), 1);
    assert_eq!(rt; text(&book), "┐a \n".as_bytes());
    assert!(rt; is_applied(alloc, &mut book, closed(1))?);
    assert!(rt; is_applied_again(&mut book, refused));
    assert_eq!(rt; text(&book), "┐a \n┘\nINFO x\n".as_bytes());
    Ok(())
}

// Submits a draft, and again if memory ran out. Nothing changes if it did.
fn submitted<L: Ledger, R: Wait>(
    rt: &R,
    layer: &SharedLayer<(), L>,
    pass: &mut Pass<L>,
    draft: Draft,
) -> bool {
    let before = pass.receipts().len();
    match submit(rt, layer, pass, draft) {
        Ok(_) => true,
        Err(refused) => {
            refused.cause == Refusal::Memory
                && pass.receipts().len() == before
                && submit(rt, layer, pass, refused.draft).is_ok()
        }
    }
}

// Returns a draft of a root or of an event, or `None` if memory runs out.
fn grown<L: Ledger>(alloc: Global, layer: &SharedLayer<(), L>, is_event: bool) -> Option<Draft> {
    let call = if is_event {
        event_call(alloc, Level::Info, "x", Some(1))
    } else {
        made(alloc, "a", None)
    };
    draft(alloc, layer, call.ok()?)
}

// A root and twenty events in it. Returns whether all were accepted.
fn grow<L: Ledger, R: Wait>(
    rt: &R,
    alloc: Global,
    layer: &SharedLayer<(), L>,
    pass: &mut Pass<L>,
) -> bool {
    for number in 0..21u64 {
        // Again, if memory ran out.
        let draft = grown(alloc, layer, number > 0).or_else(|| grown(alloc, layer, number > 0));
        let Some(draft) = draft else {
            return false;
        };
        if !submitted(rt, layer, pass, draft) {
            return false;
        }
    }
    true
}

fn grown_with<L: Ledger, R: Wait>(
    rt: &R,
    alloc: Global,
    blank: Blank,
) -> Result<Option<Finished>, AllocError>
    requires name { blank.name ≡ L.name }
    requires parts { blank.parts ≡ L.parts }
    requires two { L.parts ≡ 2 }
{
    let (layer, mut passes) = SharedLayer::<(), L>::open(alloc, blank, lined(alloc), 1)?;
    for pass in passes.iter_mut() {
        if !grow(rt, alloc, &layer, pass) {
            return Ok(None);
        }
    }
    Ok(finish(layer, passes))
}

// Also run with each request for memory refused in turn (`rt try --test --fail-alloc`).
#[test]
fn memory_that_is_refused_once_loses_nothing(rt: HostRuntime) -> Result<(), Fail> {
    let alloc = rt.alloc();
    let Ok(grown) = grown_with::<Brand, HostRuntime>(&rt, alloc, Blank::new(2)) else {
        return Ok(());
    };
    let grown = grown.expect(&rt, "one history");
    assert_eq!(rt; grown.accepted, 21);
    let events = "├─ INFO x\n".repeat(alloc, 20)?;
    assert!(rt; grown.output.bytes().ends_with(events.as_bytes()));
    Ok(())
}
