//! Readers and writers that fault in each way, once and repeatedly: what is answered, what is taken
//! or drawn, and how often they are called.

use std::alloc::{AllocError, Global};
use std::io;
use std::io::{ErrorKind, Read, Write};
use std::process::Abort;
use std::test::*;
use test_support::{Step, calls, lined_over};
use tracing_tree::call::Reply;
use tracing_tree::format::{Id, Output, Refusal, Tape, Wrap};
use tracing_tree::lines::{LineCause, LineFault, run_lines};
use tracing_tree::rows::{RowCause, RowFault, rows_to_json};
use tracing_tree::style::Level;

// The result of an attempt to read or write.
#[derive(Clone, Copy, Debug)]
enum Attempt {
    // At most this many bytes.
    Bytes(usize),

    // An error of this kind.
    Fails(ErrorKind),
}

const ONE: Attempt = Attempt::Bytes(1);

const NOTHING: Attempt = Attempt::Bytes(0);

const INTERRUPTED: Attempt = Attempt::Fails(ErrorKind::Interrupted);

const ALWAYS: u32 = u32::MAX;

// The errors that aren't retried.
const ERRORS: [ErrorKind; 9] = [
    ErrorKind::WouldBlock,
    ErrorKind::BrokenPipe,
    ErrorKind::TimedOut,
    ErrorKind::PermissionDenied,
    ErrorKind::StorageFull,
    ErrorKind::UnexpectedEof,
    ErrorKind::WriteZero,
    ErrorKind::OutOfMemory,
    ErrorKind::Other,
];

// A script of results, each for a number of attempts in a row, and how many attempts were made.
// After the script, all bytes are taken or returned.
#[derive(Drop)]
struct Attempts<'a> {
    script: &'a [(Attempt, u32)],
    done: u32,
    made: u32,
}

impl<'a> Attempts<'a> {
    fn new(script: &'a [(Attempt, u32)]) -> Attempts<'a> {
        Attempts {
            script,
            done: 0,
            made: 0,
        }
    }

    // Makes an attempt: how many bytes it may take or give.
    fn next(&mut self) -> io::Result<usize> {
        self.made = self.made.wrapping_add(1);
        let Some((first, rest)) = self.script.split_first() else {
            return Ok(usize::MAX);
        };
        let (attempt, times) = *first;
        self.done = self.done.wrapping_add(1);
        if self.done == times {
            self.script = rest;
            self.done = 0;
        }
        match attempt {
            Attempt::Bytes(count) => Ok(count),
            Attempt::Fails(kind) => Err(io::Error::from(kind)),
        }
    }
}

// A writer of these attempts. It counts the writes of no bytes, and notes how many bytes were taken
// at each flush.
#[derive(Drop)]
struct Sink<'a> {
    attempts: Attempts<'a>,
    taken: Vec<u8>,
    empty: u32,
    shown: Vec<usize>,
}

impl<'a> Sink<'a> {
    fn new(alloc: Global, script: &'a [(Attempt, u32)]) -> Sink<'a> {
        Sink {
            attempts: Attempts::new(script),
            taken: Vec::new(alloc),
            empty: 0,
            shown: Vec::new(alloc),
        }
    }
}

impl Write for Sink<'_> {
    fn write(&mut self, bytes: &[u8]) -> io::Result<usize> {
        if bytes.is_empty() {
            self.empty = self.empty.wrapping_add(1);
        }
        let count = self.attempts.next()?.min(bytes.len());
        self.taken.extend_from_slice(&bytes[..count])?;
        Ok(count)
    }

    fn flush(&mut self) -> io::Result<()> {
        self.shown.push(self.taken.len())?;
        Ok(())
    }
}

// A reader of these attempts.
#[derive(Drop)]
struct Source<'a> {
    attempts: Attempts<'a>,
    rest: &'a [u8],
}

impl Read for Source<'_> {
    fn read(&mut self, buf: &mut [u8]) -> io::Result<usize> {
        let count = self.attempts.next()?.min(buf.len()).min(self.rest.len());
        let (given, rest) = self.rest.split_at(count);
        buf[..count].copy_from_slice(given);
        self.rest = rest;
        Ok(count)
    }
}

// Settings and three calls: lines of 22, 26, 38 and 71 bytes.
const INPUT: &[u8] = br#"{"indent_lines":true}
{"call":"new","name":"a"}
{"call":"new","name":"b","current":1}
{"call":"event","level":"INFO","fields":[["message","x"]],"current":2}
"#;

// What they draw: lines of 6, 12 and 16 bytes.
const TREE: &str = "┐a \n└─┐b \n  ├─ INFO x\n";

// How many bytes the first calls draw: 0, 1, 2 and 3 of them.
const DRAWN: [usize; 4] = [0, 6, 18, 34];

// Returns the answers to the three calls if this many are accepted, and the next one is refused
// because of the writer.
fn answers(alloc: Global, accepted: usize) -> Result<Vec<Result<Reply, Refusal>>, AllocError> {
    let replies = [Reply::Span(Id(1)), Reply::Span(Id(2)), Reply::Done];
    let mut answers = Vec::new(alloc);
    for (place, reply) in replies.into_iter().enumerate() {
        answers.push(if place < accepted {
            Ok(reply)
        } else if place == accepted {
            Err(Refusal::Writer)
        } else {
            Err(Refusal::Failed)
        })?;
    }
    Ok(answers)
}

// Checks what a writer with these attempts was called with and took, and when it was flushed.
fn took(rt: &impl Abort, sink: &Sink<'_>, taken: &[u8], made: u32, shown: &[usize]) {
    assert_eq!(rt; sink.taken.as_slice(), taken, "{made} attempts");
    assert_eq!(rt; sink.attempts.made, made);
    assert_eq!(rt; sink.empty, 0);
    assert_eq!(rt; sink.shown.as_slice(), shown);
}

// The calls in the lines of the input.
const CALLS: [Step<'static>; 3] = [
    Step::New("a", None),
    Step::New("b", Some(1)),
    Step::Event(Level::Info, "x", Some(2)),
];

// Makes the calls over a writer with these attempts, checks how many are accepted, and returns the
// writer.
fn after_calls<'a>(
    rt: &(impl Abort + AllocGlobal),
    script: &'a [(Attempt, u32)],
    accepted: usize,
) -> Result<Sink<'a>, AllocError> {
    let alloc = rt.alloc();
    let calls = calls(alloc, CALLS.as_slice())?;
    let mut layered = lined_over(alloc, Wrap::new(Sink::new(alloc, script)))?;
    let answered = layered.run(alloc, calls)?;
    assert_eq!(rt; answered.as_slice(), answers(alloc, accepted)?.as_slice());
    let (_registry, layer) = Box::into_inner(layered).into_parts();
    Ok(layer.into_writer().into_inner())
}

// Runs the lines over a writer with these attempts, checks how many calls are accepted, and returns
// the writer.
fn after_lines<'a>(
    rt: &(impl Abort + AllocGlobal),
    script: &'a [(Attempt, u32)],
    accepted: usize,
) -> Sink<'a> {
    let alloc = rt.alloc();
    let ran = run_lines(alloc, INPUT, Wrap::new(Sink::new(alloc, script)));
    let line = (accepted as u64).saturating_add(2);
    let cause = LineCause::Refused(Refusal::Writer);
    let wanted = if accepted < 3 {
        Some(LineFault { line, cause })
    } else {
        None
    };
    assert_eq!(rt; ran.fault, wanted);
    assert_eq!(rt; ran.accepted, accepted as u64);
    assert_eq!(rt; ran.writer.faults(), if accepted < 3 { 1 } else { 0 });
    ran.writer.into_inner()
}

// Checks how many calls are accepted over a writer with these attempts, how many bytes it takes,
// and in how many attempts.
fn draws(
    rt: &(impl Abort + AllocGlobal),
    script: &[(Attempt, u32)],
    accepted: usize,
    bytes: usize,
    made: u32,
) -> Result<(), Fail> {
    let taken = &TREE.as_bytes()[..bytes.min(TREE.len())];
    let nothing = [].as_slice();
    let sink = after_calls(rt, script, accepted)?;
    took(rt, &sink, taken, made, nothing);
    // The read that finds the end of the input is the only one after the first.
    let end = [34];
    let shown = if accepted < 3 {
        nothing
    } else {
        end.as_slice()
    };
    let sink = after_lines(rt, script, accepted);
    took(rt, &sink, taken, made, shown);
    Ok(())
}

#[test]
fn writes_in_pieces(rt: HostRuntime) -> Result<(), Fail> {
    draws(&rt, [].as_slice(), 3, 34, 3)?;
    draws(&rt, [(ONE, 1)].as_slice(), 3, 34, 4)?;
    draws(&rt, [(ONE, ALWAYS)].as_slice(), 3, 34, 34)?;
    draws(&rt, [(Attempt::Bytes(5), ALWAYS)].as_slice(), 3, 34, 9)
}

#[test]
fn writes_are_interrupted(rt: HostRuntime) -> Result<(), Fail> {
    let whole = Attempt::Bytes(100);
    draws(&rt, [(INTERRUPTED, 1)].as_slice(), 3, 34, 4)?;
    draws(&rt, [(INTERRUPTED, 8)].as_slice(), 3, 34, 11)?;
    draws(&rt, [(INTERRUPTED, 9)].as_slice(), 0, 0, 9)?;
    draws(&rt, [(INTERRUPTED, ALWAYS)].as_slice(), 0, 0, 9)?;
    draws(&rt, [(whole, 1), (INTERRUPTED, 8)].as_slice(), 3, 34, 11)?;
    draws(&rt, [(whole, 1), (INTERRUPTED, 9)].as_slice(), 1, 6, 10)?;
    draws(&rt, [(ONE, 1), (INTERRUPTED, 9)].as_slice(), 0, 1, 10)?;
    draws(
        &rt,
        [(ONE, 1), (INTERRUPTED, 8), (ONE, 1), (INTERRUPTED, 8)].as_slice(),
        3,
        34,
        21,
    )
}

// Each write is refused in turn, in each way.
#[test]
fn writes_are_refused(rt: HostRuntime) -> Result<(), Fail> {
    for place in 0..3 {
        let before = (Attempt::Bytes(100), place as u32);
        let bytes = DRAWN[place];
        let made = place as u32 + 1;
        for times in [1, ALWAYS] {
            refuses(&rt, before, (NOTHING, times), place, bytes, made)?;
            for kind in ERRORS {
                refuses(
                    &rt,
                    before,
                    (Attempt::Fails(kind), times),
                    place,
                    bytes,
                    made,
                )?;
            }
        }
    }
    for kind in ERRORS {
        draws(
            &rt,
            [(ONE, 4), (Attempt::Fails(kind), 1)].as_slice(),
            0,
            4,
            5,
        )?;
    }
    draws(&rt, [(ONE, 4), (NOTHING, 1)].as_slice(), 0, 4, 5)
}

// Like `draws`, but these attempts are made first, if there are any.
fn refuses(
    rt: &(impl Abort + AllocGlobal),
    before: (Attempt, u32),
    refused: (Attempt, u32),
    accepted: usize,
    bytes: usize,
    made: u32,
) -> Result<(), Fail> {
    if before.1 == 0 {
        return draws(rt, [refused].as_slice(), accepted, bytes, made);
    }
    draws(rt, [before, refused].as_slice(), accepted, bytes, made)
}

// Checks how many calls are accepted over a reader with these attempts, how often it is called, and
// how the run ends.
fn reads(
    rt: &(impl Abort + AllocGlobal),
    script: &[(Attempt, u32)],
    accepted: usize,
    made: u32,
    ended: Option<(u64, LineCause)>,
) {
    let alloc = rt.alloc();
    let mut source = Source {
        attempts: Attempts::new(script),
        rest: INPUT,
    };
    let ran = run_lines(alloc, &mut source, Tape::new(alloc));
    let drawn = DRAWN.get(accepted).copied().unwrap_or(0).min(TREE.len());
    assert_eq!(rt;
        ran.fault,
        ended.map(|(line, cause)| LineFault { line, cause })
    );
    assert_eq!(rt; ran.accepted, accepted as u64);
    assert_eq!(rt; ran.writer.bytes(), &TREE.as_bytes()[..drawn]);
    assert_eq!(rt; source.attempts.made, made);
}

// The first lines, by their bytes.
const LINES_1: (Attempt, u32) = (Attempt::Bytes(22), 1);

const LINES_2: (Attempt, u32) = (Attempt::Bytes(48), 1);

const LINES_3: (Attempt, u32) = (Attempt::Bytes(86), 1);

// Checks after how many bytes the writer is flushed, if the input arrives in these parts.
fn shows(rt: &(impl Abort + AllocGlobal), reading: &[(Attempt, u32)], shown: &[usize]) {
    let alloc = rt.alloc();
    let source = Source {
        attempts: Attempts::new(reading),
        rest: INPUT,
    };
    let ran = run_lines(alloc, source, Wrap::new(Sink::new(alloc, [].as_slice())));
    assert_eq!(rt; ran.fault, None);
    took(rt, &ran.writer.into_inner(), TREE.as_bytes(), 3, shown);
}

// Everything that the complete lines before a read draw is flushed before it. The writer is flushed
// at no other time.
#[test]
fn shows_before_reads(rt: HostRuntime) {
    shows(&rt, [].as_slice(), [34].as_slice());
    shows(&rt, [(Attempt::Bytes(10), 1)].as_slice(), [34].as_slice());
    shows(&rt, [LINES_1].as_slice(), [0, 34].as_slice());
    shows(
        &rt,
        [(Attempt::Bytes(40), 1)].as_slice(),
        [0, 34].as_slice(),
    );
    shows(&rt, [LINES_2].as_slice(), [6, 34].as_slice());
    shows(
        &rt,
        [(Attempt::Bytes(60), 1)].as_slice(),
        [6, 34].as_slice(),
    );
    shows(&rt, [LINES_3].as_slice(), [18, 34].as_slice());
    shows(&rt, [(ONE, ALWAYS)].as_slice(), [0, 6, 18, 34].as_slice());
    shows(
        &rt,
        [LINES_2, (INTERRUPTED, 8)].as_slice(),
        [6, 34].as_slice(),
    );
}

// A long input is read in blocks, and the writer flushed once for each.
#[test]
fn shows_once_a_block(rt: HostRuntime) -> Result<(), Fail> {
    let alloc = rt.alloc();
    let mut input = Vec::new(alloc);
    input.extend_from_slice(b"{}\n")?;
    for _call in 0..10_000 {
        input.extend_from_slice(b"{\"call\":\"event\",\"level\":\"INFO\"}\n")?;
    }
    let mut source = Source {
        attempts: Attempts::new([].as_slice()),
        rest: input.as_slice(),
    };
    let writer = Wrap::new(Sink::new(alloc, [].as_slice()));
    let ran = run_lines(alloc, &mut source, writer);
    assert_eq!(rt; ran.accepted, 10_000);
    // 320,003 bytes are five blocks of 64 KiB, and one more read finds the end.
    assert_eq!(rt; source.attempts.made, 6);
    assert_eq!(rt; ran.writer.into_inner().shown.len(), 5);
    Ok(())
}

#[test]
fn reads_in_pieces(rt: HostRuntime) {
    reads(&rt, [].as_slice(), 3, 2, None);
    reads(&rt, [(ONE, 1)].as_slice(), 3, 3, None);
    reads(&rt, [(ONE, ALWAYS)].as_slice(), 3, 158, None);
    reads(&rt, [(Attempt::Bytes(50), ALWAYS)].as_slice(), 3, 5, None);
}

// If a read returns nothing, the input ends.
#[test]
fn reads_nothing(rt: HostRuntime) {
    for times in [1, ALWAYS] {
        let end = (NOTHING, times);
        reads(&rt, [end].as_slice(), 0, 1, Some((1, LineCause::Settings)));
        reads(&rt, [LINES_1, end].as_slice(), 0, 2, None);
        reads(&rt, [LINES_2, end].as_slice(), 1, 2, None);
        let cut = (Attempt::Bytes(60), 1);
        reads(
            &rt,
            [cut, end].as_slice(),
            1,
            2,
            Some((3, LineCause::NotACall)),
        );
    }
}

#[test]
fn reads_are_interrupted(rt: HostRuntime) {
    let whole = (Attempt::Bytes(1_000), 1);
    let one = (ONE, 1);
    let eight = (INTERRUPTED, 8);
    let nine = (INTERRUPTED, 9);
    reads(&rt, [(INTERRUPTED, 1)].as_slice(), 3, 3, None);
    reads(&rt, [eight].as_slice(), 3, 10, None);
    reads(&rt, [nine].as_slice(), 0, 9, Some((1, LineCause::Read)));
    reads(
        &rt,
        [(INTERRUPTED, ALWAYS)].as_slice(),
        0,
        9,
        Some((1, LineCause::Read)),
    );
    reads(&rt, [one, eight, one, eight].as_slice(), 3, 20, None);
    reads(&rt, [LINES_3, eight].as_slice(), 3, 11, None);
    reads(
        &rt,
        [LINES_3, nine].as_slice(),
        2,
        10,
        Some((4, LineCause::Read)),
    );
    reads(&rt, [whole, eight].as_slice(), 3, 10, None);
    reads(
        &rt,
        [whole, nine].as_slice(),
        3,
        10,
        Some((5, LineCause::Read)),
    );
}

#[test]
fn reads_are_refused(rt: HostRuntime) {
    for kind in ERRORS {
        for times in [1, ALWAYS] {
            let refused = (Attempt::Fails(kind), times);
            let cut = (Attempt::Bytes(60), 1);
            reads(&rt, [refused].as_slice(), 0, 1, Some((1, LineCause::Read)));
            reads(
                &rt,
                [LINES_1, refused].as_slice(),
                0,
                2,
                Some((2, LineCause::Read)),
            );
            reads(
                &rt,
                [LINES_2, refused].as_slice(),
                1,
                2,
                Some((3, LineCause::Read)),
            );
            reads(
                &rt,
                [cut, refused].as_slice(),
                1,
                2,
                Some((3, LineCause::Read)),
            );
            reads(
                &rt,
                [LINES_3, refused].as_slice(),
                2,
                2,
                Some((4, LineCause::Read)),
            );
        }
    }
}

// Four rows as the program that reads prints them: lines of 6, 12, 10 and 4 bytes.
const ROWS: &str = "┐a \n└─┐b \n┌─┘\n┘\n";

const PRINTED: [&str; 4] = [
    "{\"shape\":\"OpenRoot\",\"level\":0,\"lines\":[\"a \"]}\n",
    "{\"shape\":\"Open\",\"verbose\":false,\"level\":1,\"lines\":[\"b \"]}\n",
    "{\"shape\":\"Close\",\"verbose\":false,\"level\":1,\"lines\":[\"\"]}\n",
    "{\"shape\":\"CloseRoot\",\"level\":0,\"lines\":[\"\"]}\n",
];

// Checks how many rows are printed over a reader and a writer with these attempts, how often each
// is called, and how the reading ends.
fn prints(
    rt: &(impl Abort + AllocGlobal),
    reading: &[(Attempt, u32)],
    writing: &[(Attempt, u32)],
    rows: usize,
    made: (u32, u32),
    ended: Option<(u64, RowCause)>,
) -> Result<(), Fail> {
    let alloc = rt.alloc();
    let mut wanted = String::new(alloc);
    for row in PRINTED.iter().take(rows) {
        wanted.push_str(row)?;
    }
    let mut source = Source {
        attempts: Attempts::new(reading),
        rest: ROWS.as_bytes(),
    };
    let mut sink = Sink::new(alloc, writing);
    let ran = rows_to_json(alloc, &mut source, &mut sink, 2);
    match ended {
        Some((line, cause)) => assert_eq!(rt; ran, Err(RowFault { line, cause })),
        None => assert_eq!(rt; ran, Ok(())),
    }
    assert_eq!(rt; source.attempts.made, made.0);
    took(rt, &sink, wanted.as_bytes(), made.1, [].as_slice());
    Ok(())
}

#[test]
fn rows_are_read(rt: HostRuntime) -> Result<(), Fail> {
    let none = [].as_slice();
    let read = |line: u64| Some((line, RowCause::Read));
    let row = (Attempt::Bytes(6), 1);
    let cut = (Attempt::Bytes(10), 1);
    let whole = (Attempt::Bytes(100), 1);
    prints(&rt, none, none, 4, (2, 4), None)?;
    prints(&rt, [(ONE, ALWAYS)].as_slice(), none, 4, (33, 4), None)?;
    prints(&rt, [(INTERRUPTED, 8)].as_slice(), none, 4, (10, 4), None)?;
    prints(&rt, [(INTERRUPTED, 9)].as_slice(), none, 0, (9, 0), read(1))?;
    prints(
        &rt,
        [whole, (INTERRUPTED, 9)].as_slice(),
        none,
        4,
        (10, 4),
        read(5),
    )?;
    prints(&rt, [(NOTHING, 1)].as_slice(), none, 0, (1, 0), None)?;
    prints(&rt, [row, (NOTHING, 1)].as_slice(), none, 1, (2, 1), None)?;
    prints(
        &rt,
        [cut, (NOTHING, 1)].as_slice(),
        none,
        1,
        (2, 1),
        Some((2, RowCause::NotARow)),
    )?;
    for kind in ERRORS {
        let refused = (Attempt::Fails(kind), 1);
        prints(&rt, [refused].as_slice(), none, 0, (1, 0), read(1))?;
        prints(&rt, [row, refused].as_slice(), none, 1, (2, 1), read(2))?;
        prints(&rt, [cut, refused].as_slice(), none, 1, (2, 1), read(2))?;
    }
    Ok(())
}

#[test]
fn rows_are_written(rt: HostRuntime) -> Result<(), Fail> {
    let none = [].as_slice();
    let whole = (Attempt::Bytes(100), 1);
    let writer = |line: u64| Some((line, RowCause::Writer));
    prints(&rt, none, [(ONE, ALWAYS)].as_slice(), 4, (2, 206), None)?;
    prints(&rt, none, [(INTERRUPTED, 1)].as_slice(), 4, (2, 5), None)?;
    prints(&rt, none, [(NOTHING, 1)].as_slice(), 0, (1, 1), writer(2))?;
    for kind in ERRORS {
        let refused = (Attempt::Fails(kind), 1);
        prints(&rt, none, [refused].as_slice(), 0, (1, 1), writer(2))?;
        prints(&rt, none, [whole, refused].as_slice(), 1, (1, 2), writer(3))?;
    }
    Ok(())
}
