//! What a run of a trace notes.

use super::seen::{START, Skipped, drawn};
use std::alloc::{AllocError, Global};
use std::test::*;
use ttree_chrome::{Leaves, run_trace};
use ttree_source::{Cut, Problem};

const WHOLE: &str = "[{\"ph\":\"i\",\"ts\":1,\"name\":\"x\"},{},{\"ph\":\"B\"}]";

const CUT: &str =
    "[{\"ph\":\"i\",\"ts\":1,\"name\":\"x\"},{},{\"ph\":\"i\",\"ts\":2},{\"ph\":\"i\",\"t";

#[test]
fn skipped_elements_are_noted_by_their_numbers(rt: HostRuntime) -> Result<(), Fail> {
    let whole = noted(rt.alloc(), WHOLE)?;
    assert_eq!(rt;
        whole.lines.as_slice(),
        [(2, Problem::Phase), (3, Problem::Start)].as_slice()
    );
    let cut = noted(rt.alloc(), CUT)?;
    assert_eq!(rt;
        cut.lines.as_slice(),
        [(2, Problem::Phase), (4, Problem::Object)].as_slice()
    );
    let none = noted(rt.alloc(), "{}")?;
    assert_eq!(rt; none.lines.as_slice(), [(1, Problem::Trace)].as_slice());
    Ok(())
}

fn noted(alloc: Global, text: &str) -> Result<Box<Skipped>, AllocError> {
    let cut = Cut {
        min_time: 0,
        depth: None,
    };
    let mut notes = Box::new(alloc, Skipped::new(alloc))?;
    let mut layered = drawn(alloc)?;
    let _made = run_trace(
        alloc,
        1,
        START,
        cut,
        Leaves::Rows,
        text,
        &mut *layered,
        &mut *notes,
    );
    Ok(notes)
}
