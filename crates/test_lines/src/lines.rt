//! Properties of lines that aren't in a contract: faults as strings, and readers that fail.

use std::alloc::{AllocError, Global};
use std::io;
use std::io::{ErrorKind, Read};
use std::process::Abort;
use std::test::*;
use tracing_tree::format::{Id, Refusal, Tape};
use tracing_tree::lines::{LineCause, LineFault, run_lines};

// A reader that gives one byte at a time. After the first `calm` bytes it fails `times` times
// before each.
#[derive(Drop)]
struct Hesitant<'a> {
    rest: &'a [u8],
    calm: u32,
    times: u32,
    left: u32,
    kind: ErrorKind,
}

impl<'a> Hesitant<'a> {
    fn new(text: &'a [u8], calm: u32, times: u32, kind: ErrorKind) -> Hesitant<'a> {
        Hesitant {
            rest: text,
            calm,
            times,
            left: times,
            kind,
        }
    }
}

impl Read for Hesitant<'_> {
    fn read(&mut self, buf: &mut [u8]) -> io::Result<usize> {
        if self.calm > 0 {
            self.calm -= 1;
        } else if self.left > 0 {
            self.left -= 1;
            return Err(io::Error::from(self.kind));
        } else {
            self.left = self.times;
        }
        let Some((first, rest)) = self.rest.split_first() else {
            return Ok(0);
        };
        let Some(place) = buf.first_mut() else {
            return Ok(0);
        };
        *place = *first;
        self.rest = rest;
        Ok(1)
    }
}

// Three lines. The last two are skipped, and the third starts after four bytes.
const THREE_LINES: &[u8] = b"{}\n\n \t\n";

// Returns the fault of a run over the three lines, by a reader that fails so.
fn fault_of(alloc: Global, calm: u32, times: u32, kind: ErrorKind) -> Option<LineFault> {
    let reader = Hesitant::new(THREE_LINES, calm, times, kind);
    run_lines(alloc, reader, Tape::new(alloc)).fault
}

fn read_fault(line: u64) -> Option<LineFault> {
    Some(LineFault {
        line,
        cause: LineCause::Read,
    })
}

#[test]
fn interruptions(rt: HostRuntime) {
    let alloc = rt.alloc();
    assert_eq!(rt; fault_of(alloc, 0, 8, ErrorKind::Interrupted), None);
    assert_eq!(rt;
        fault_of(alloc, 0, 9, ErrorKind::Interrupted),
        read_fault(1)
    );
    assert_eq!(rt;
        fault_of(alloc, 1, 9, ErrorKind::Interrupted),
        read_fault(1)
    );
    assert_eq!(rt;
        fault_of(alloc, 3, 9, ErrorKind::Interrupted),
        read_fault(2)
    );
    assert_eq!(rt;
        fault_of(alloc, 4, 9, ErrorKind::Interrupted),
        read_fault(3)
    );
    assert_eq!(rt;
        fault_of(alloc, 6, 9, ErrorKind::Interrupted),
        read_fault(3)
    );
    // The end of the input is read as a fourth line.
    assert_eq!(rt;
        fault_of(alloc, 7, 9, ErrorKind::Interrupted),
        read_fault(4)
    );
}

#[test]
fn errors(rt: HostRuntime) {
    let alloc = rt.alloc();
    assert_eq!(rt; fault_of(alloc, 0, 1, ErrorKind::BrokenPipe), read_fault(1));
    assert_eq!(rt; fault_of(alloc, 5, 1, ErrorKind::BrokenPipe), read_fault(3));
}

// Returns settings, a line of `spaces` spaces, and a line that isn't a call.
fn long_line(alloc: Global, spaces: usize) -> Result<String, AllocError> {
    let mut text = String::new(alloc);
    text.push_str("{}\n")?;
    text.push_str(" ".repeat(alloc, spaces)?.as_str())?;
    text.push_str("\n{\n")?;
    Ok(text)
}

// A line may come in many parts, and be longer than the buffer of the input.
#[test]
fn long_lines(rt: HostRuntime) -> Result<(), Fail> {
    let alloc = rt.alloc();
    let wanted = Some(LineFault {
        line: 3,
        cause: LineCause::NotACall,
    });
    let parts = long_line(alloc, 5_000)?;
    let reader = Hesitant::new(parts.as_bytes(), u32::MAX, 0, ErrorKind::BrokenPipe);
    assert_eq!(rt; run_lines(alloc, reader, Tape::new(alloc)).fault, wanted);
    let blocks = long_line(alloc, 200_000)?;
    let ran = run_lines(alloc, blocks.as_bytes(), Tape::new(alloc));
    assert_eq!(rt; ran.fault, wanted);
    Ok(())
}

// The parts before and after 200,000 spaces, in lines that aren't valid settings or calls and are
// longer than the buffer of the input.
const WRONG: [(&str, &str, u64, LineCause); 6] = [
    ("{", "\n", 1, LineCause::Settings),
    ("{\"ansi\":", "1}\n", 1, LineCause::Settings),
    ("{}\n{", "\n", 2, LineCause::NotACall),
    ("{}\n{\"x\":\"", "", 2, LineCause::NotACall),
    (
        "{}\n{\"call\":\"new\",\"name\":\"",
        "\",\"x\":1.5}",
        2,
        LineCause::NotACall,
    ),
    (
        "{}\n{\"call\":\"close\",\"id\":",
        "\"1\"}",
        2,
        LineCause::NotACall,
    ),
];

#[test]
fn long_lines_that_are_wrong(rt: HostRuntime) -> Result<(), Fail> {
    let alloc = rt.alloc();
    let long = " ".repeat(alloc, 200_000)?;
    for (head, tail, line, cause) in WRONG {
        let text = format!(in alloc; "{head}{long}{tail}")?;
        let ran = run_lines(alloc, text.as_bytes(), Tape::new(alloc));
        assert_eq!(rt; ran.fault, Some(LineFault { line, cause }));
        assert_eq!(rt; ran.writer.bytes().is_empty(), true);
    }
    Ok(())
}

// Nothing is read after the line that ended the run.
#[test]
fn reads_no_further(rt: HostRuntime) {
    let alloc = rt.alloc();
    let mut reader = Hesitant::new(b"{}\n{\n{}\n", u32::MAX, 0, ErrorKind::BrokenPipe);
    let ran = run_lines(alloc, &mut reader, Tape::new(alloc));
    assert_eq!(rt; ran.fault.map(|fault| fault.line), Some(2));
    assert_eq!(rt; reader.rest, b"{}\n".as_slice());
}

// Compares a fault in line 3 as a string.
fn reads_as(rt: &(impl Abort + AllocGlobal), cause: LineCause, wanted: &str) -> Result<(), Fail> {
    let fault = LineFault { line: 3, cause };
    let text = format!(in rt.alloc(); "{fault}")?;
    assert_eq!(rt; text.as_str(), wanted);
    Ok(())
}

#[test]
fn texts(rt: HostRuntime) -> Result<(), Fail> {
    reads_as(&rt, LineCause::Settings, "line 3: settings")?;
    reads_as(&rt, LineCause::NotACall, "line 3: not a call")?;
    reads_as(&rt, LineCause::Read, "line 3: read")?;
    reads_as(&rt, LineCause::Memory, "line 3: memory")
}

#[test]
fn texts_of_refusals(rt: HostRuntime) -> Result<(), Fail> {
    reads_as(
        &rt,
        LineCause::Refused(Refusal::NotHeld(Id(7))),
        "line 3: not held 7",
    )?;
    reads_as(
        &rt,
        LineCause::Refused(Refusal::TooWide),
        "line 3: too wide",
    )?;
    reads_as(
        &rt,
        LineCause::Refused(Refusal::TooMany),
        "line 3: too many",
    )?;
    reads_as(&rt, LineCause::Refused(Refusal::Memory), "line 3: memory")?;
    reads_as(&rt, LineCause::Refused(Refusal::Timer), "line 3: timer")?;
    reads_as(&rt, LineCause::Refused(Refusal::Writer), "line 3: writer")?;
    reads_as(&rt, LineCause::Refused(Refusal::Failed), "line 3: failed")
}
