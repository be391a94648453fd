//! The program: draws the calls on standard input as a tree on standard output.
#![tactic(auto)]

use std::io;
use std::io::{BufWriter, Write};
use std::process::ExitCode;
use tracing_tree::format::Wrap;
use tracing_tree::lines::BLOCK;
use tracing_tree::{LineCause, LineFault, LinesRun, run_lines, status};

fn main(rt: HostRuntime) -> ExitCode {
    let (fault, flushed) = draw(&rt);
    emit(&rt, &fault, flushed);
    ExitCode::from(status(&fault, flushed))
}

// Draws the tree. Returns the fault that ended the run, if there was one, and whether everything
// was flushed: the last text, and all texts before it.
fn draw<R: AllocGlobal + Input + Print>(rt: &R) -> (Option<LineFault>, bool) {
    let alloc = rt.alloc();
    let Ok(writer) = BufWriter::with_capacity(alloc, BLOCK, io::writer(rt)) else {
        let fault = LineFault {
            line: 1,
            cause: LineCause::Memory,
        };
        return (Some(fault), true);
    };
    let LinesRun {
        writer,
        accepted: _,
        fault,
    } = run_lines(alloc, rt.reader(), Wrap::new(writer));
    let stuck = writer.is_stuck();
    let flushed = writer.into_inner().flush().is_ok();
    (fault, flushed && !stuck)
}

// Prints the fault on standard error. A fault of standard error itself changes nothing.
fn emit(rt: &impl Eprint, fault: &Option<LineFault>, flushed: bool) {
    let emitted = match fault {
        Some(fault) => eprintln!(rt; "{fault}"),
        None if flushed => Ok(()),
        None => eprintln!(rt; "end: writer"),
    };
    let _ = emitted;
}
