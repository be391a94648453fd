//! How often a tracer calls its clock.

use crate::lined::lined;
use crate::steps::{Given, Line, Step, first_unlike};
use jiff::Timestamp;
use std::cell::Cell;
use std::test::*;
use tracing_tree_core::style::Level;
use tracing_tree_core::time::Moment;
use tracing_tree_tracer::{Now, Tracer};

// A clock that counts its calls.
#[derive(Drop)]
struct Asked<'a> {
    count: &'a Cell<u32>,
}

impl Now for Asked<'_> {
    ghost use Rattle.std.specs.Prelude.{⊤};

    ghost reads = { λ clock moment. ⊤ };

    fn now(&self) -> Option<Moment> {
        self.count.set(self.count.get().wrapping_add(1));
        Some(Moment {
            mono: 0,
            wall: Timestamp::UNIX_EPOCH,
        })
    }
}

const ONCE_EACH: [Line<'static>; 3] = [
    (Step::Open("a"), Ok(Given::Span(1)), 1),
    (Step::Emit(Level::Info, "x"), Ok(Given::Done), 1),
    (Step::Close, Ok(Given::Closed(true)), 0),
];

#[test]
fn each_call_asks_the_clock_once(rt: HostRuntime) -> Result<(), Fail> {
    let count = Cell::new(0);
    let clock = Asked { count: &count };
    let mut tracer = Tracer::new(rt.alloc(), lined(rt.alloc()), clock);
    assert_eq!(rt; first_unlike(&mut tracer, ONCE_EACH.as_slice()), None);
    assert_eq!(rt; count.get(), 3);
    Ok(())
}
