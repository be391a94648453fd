//! When a run shows its output, and what it notes.

use super::seen::{ByLine, START, interpreted};
use std::test::*;
use ttree_go_test::GoTest;
use ttree_source::Problem;

const TESTS: &str = concat!(
    "{\"Action\":\"run\",\"Package\":\"p\",\"Test\":\"A\"}\n",
    "[1]\n",
    "{\"Action\":\"output\",\"Package\":\"p\",\"Test\":\"A\",\"Output\":\"x\\n\"}\n",
    "{\"Action\":\"run\"}\n",
    "{\"Action\":\"fail\",\"Package\":\"p\",\"Test\":\"A\"}\n",
    "{\"Action\":\"fail\",\"Package\":\"p\"}\n",
);

// The drawing of these lines, by the line that draws it. A line that is skipped draws nothing.
const DRAWN: [&str; 6] = [
    "┐p \n",
    "",
    "└─┐A \n  ├─ INFO x\n",
    "",
    "  ├─ ERROR fail\n┌─┘\n",
    "├─ ERROR fail\n┘\n",
];

#[test]
fn skipped_lines_are_noted_by_their_numbers(rt: HostRuntime) -> Result<(), Fail> {
    let mut source = GoTest::new(rt.alloc(), 1, START)?;
    let run = interpreted(rt.alloc(), &mut source, TESTS.as_bytes())?;
    assert_eq!(rt;
        run.noted.as_slice(),
        [(2, Problem::Action), (4, Problem::Package)].as_slice()
    );
    assert_eq!(rt; run.fault, None);
    Ok(())
}

// A read may wait, and what it waits for may be an answer to what was drawn before.
#[test]
fn what_is_drawn_is_shown_before_each_read(rt: HostRuntime) -> Result<(), Fail> {
    let mut source = GoTest::new(rt.alloc(), 1, START)?;
    let reader = ByLine {
        rest: TESTS.as_bytes(),
    };
    let run = interpreted(rt.alloc(), &mut source, reader)?;
    let mut drawn = Vec::new(rt.alloc());
    let mut bytes: usize = 0;
    drawn.push(bytes)?;
    for text in DRAWN {
        bytes = bytes.wrapping_add(text.len());
        drawn.push(bytes)?;
    }
    assert_eq!(rt; run.shown.as_slice(), drawn.as_slice());
    Ok(())
}

#[test]
fn lines_that_the_buffer_holds_are_not_shown_one_by_one(rt: HostRuntime) -> Result<(), Fail> {
    let mut source = GoTest::new(rt.alloc(), 1, START)?;
    let run = interpreted(rt.alloc(), &mut source, TESTS.as_bytes())?;
    assert_eq!(rt; run.shown.len(), 2);
    Ok(())
}
