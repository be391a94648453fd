//! Drafts: their tails, and that they wait for nobody.

ghost use Rattle.std.specs.Prelude.{◌≡◌};

use crate::opened::{lined, timed};
use crate::plain::{apply, draft, drafted, make, text};
use std::alloc::{AllocError, Global};
use std::marker::Brand;
use std::sync::Wait;
use std::sync::atomic::{AtomicBool, Ordering};
use std::sync::ledger::{Blank, Ledger};
use std::test::*;
use std::thread;
use std::thread::Threads;
use test_support::{at, closed, event_call, recorded};
use tracing_tree_core::format::Config;
use tracing_tree_core::registry::{Event, Parent};
use tracing_tree_core::style::Level;
use tracing_tree_core::text::Text;
use tracing_tree_core::time::{FormatTime, Moment, TimeFault};
use tracing_tree_layer::call::Call;
use tracing_tree_shared::{Book, Draft, Pass, SharedLayer};

// Returns a warning of target `t`.
fn warning(alloc: Global) -> Result<Call, AllocError> {
    Ok(Call::Event(
        Event {
            level: Level::Warn,
            target: Text::from_str(alloc, "t")?,
            parent: Parent::Current,
            fields: recorded(alloc, "message", "x")?,
        },
        at(None),
    ))
}

#[test]
fn a_draft_under_other_settings_is_drawn_again(rt: HostRuntime) -> Result<(), Fail> {
    let alloc = rt.alloc();
    let settings = Config::new(2, false).with_targets(true);
    let draft = Draft::new(alloc, &settings, warning(alloc)?)?;
    assert_eq!(rt; draft.tail(), Some("WARN t x"));
    let mut book = Book::new(alloc, lined(alloc));
    assert!(rt; apply(&mut book, draft).is_ok());
    assert_eq!(rt; text(&book), "WARN x\n".as_bytes());
    Ok(())
}

#[test]
fn only_an_event_has_a_tail(rt: HostRuntime) -> Result<(), Fail> {
    let draft = drafted(rt.alloc(), closed(1))?;
    assert_eq!(rt; draft.tail(), None);
    Ok(())
}

// How often a thread looks before it gives up, after about half a minute.
const LIMIT: u64 = 100_000_000;

// Returns whether the flag was seen before the limit. The other thread may wait for this one's
// processor.
fn is_seen(flag: &AtomicBool) -> bool {
    for _ in 0..LIMIT {
        if flag.load(Ordering::SeqCst) {
            return true;
        }
        thread::yield_now();
    }
    false
}

// A timer that shows nothing. It signals that it is under the lock, and waits there for a draft of
// another thread.
#[derive(Drop)]
struct Watch<'a> {
    entered: &'a AtomicBool,
    drafted: &'a AtomicBool,
    saw: &'a AtomicBool,
}

impl FormatTime for Watch<'_> {
    ghost use Rattle.tracing_tree_time.specs.Clock.{no_timer};

    ghost timer = { λ _. no_timer };

    fn format_time(&self, _moment: &Moment, _out: &mut String) -> Result<(), TimeFault> {
        self.entered.store(true, Ordering::SeqCst);
        if is_seen(self.drafted) {
            self.saw.store(true, Ordering::SeqCst);
        }
        Ok(())
    }

    fn style_timestamp(
        &self,
        _ansi: bool,
        _elapsed_ns: u64,
        _out: &mut String,
    ) -> Result<(), TimeFault> {
        Ok(())
    }
}

// Submits an event, whose timer waits for the other thread's draft.
fn submits<L: Ledger, R: Wait>(
    rt: &R,
    alloc: Global,
    layer: &SharedLayer<Watch<'_>, L>,
    mut pass: Pass<L>,
) -> bool {
    match event_call(alloc, Level::Info, "x", None) {
        Ok(call) => make(rt, alloc, layer, &mut pass, call).is_some(),
        Err(_) => false,
    }
}

// Drafts an event once the timer is under the lock.
fn drafts<L: Ledger>(
    alloc: Global,
    layer: &SharedLayer<Watch<'_>, L>,
    entered: &AtomicBool,
    drafted: &AtomicBool,
) -> bool {
    if !is_seen(entered) {
        return false;
    }
    let drawn = is_drafted(alloc, layer);
    drafted.store(true, Ordering::SeqCst);
    drawn
}

// Drafts a warning, and returns whether its tail is drawn.
fn is_drafted<L: Ledger>(alloc: Global, layer: &SharedLayer<Watch<'_>, L>) -> bool {
    match warning(alloc) {
        Ok(call) => draft(alloc, layer, call).is_some_and(|draft| draft.tail() == Some("WARN x")),
        Err(_) => false,
    }
}

fn locked_with<L: Ledger + Send + Sync, R: Threads + Wait + Sync>(
    rt: &R,
    alloc: Global,
    blank: Blank,
) -> Result<bool, AllocError>
    requires name { blank.name ≡ L.name }
    requires parts { blank.parts ≡ L.parts }
    requires two { L.parts ≡ 2 }
{
    let entered = AtomicBool::new(false);
    let drafted = AtomicBool::new(false);
    let saw = AtomicBool::new(false);
    let watch = Watch {
        entered: &entered,
        drafted: &drafted,
        saw: &saw,
    };
    let (layer, mut passes) = SharedLayer::<Watch<'_>, L>::open(
        alloc,
        blank,
        timed(alloc, watch),
        1,
    )?;
    let pass = passes.pop().unwrap();
    let shared = &layer;
    let (submitted, drawn) = thread::join(
        rt,
        move || submits(rt, alloc, shared, pass),
        || drafts(alloc, shared, &entered, &drafted),
    );
    Ok(submitted && drawn && saw.load(Ordering::SeqCst))
}

#[test]
fn draft_while_locked(rt: HostRuntime) -> Result<(), Fail> {
    assert!(rt; locked_with::<Brand, HostRuntime>(&rt, rt.alloc(), Blank::new(2))?);
    Ok(())
}
