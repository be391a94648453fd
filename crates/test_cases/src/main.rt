//! Runs the worked cases in the current folder, and prints how many of each folder passed.
//!
//! `NAME.in` is the program's input in a case. `NAME.out` and `NAME.err` are its standard output
//! and standard error, and `NAME.status` is its exit status. The last two may be missing: then it
//! writes no error, and its status is 0.
#![tactic(auto)]

use std::alloc::{AllocError, Global};
use std::io::ErrorKind;
use std::path::Path;
use std::rt::Files;
use std::{fs, io};
use tracing_tree::format::Tape;
use tracing_tree::{LineFault, run_lines, status};

// The folders of cases.
const FOLDERS: [&str; 7] = [
    "clocks",
    "close_retrace",
    "drawing",
    "first",
    "lines",
    "registry",
    "retracing",
];

// The number of cases, and how many of them passed.
#[derive(Clone, Copy)]
struct Tally {
    cases: u64,
    passed: u64,
}

impl Tally {
    // No cases.
    const NONE: Tally = Tally {
        cases: 0,
        passed: 0,
    };

    // Adds one case.
    fn counted(self, passed: bool) -> Tally {
        Tally {
            cases: self.cases.saturating_add(1),
            passed: self.passed.saturating_add(u64::from(passed)),
        }
    }

    // Adds the cases of another tally.
    fn with(self, other: Tally) -> Tally {
        Tally {
            cases: self.cases.saturating_add(other.cases),
            passed: self.passed.saturating_add(other.passed),
        }
    }
}

fn main(rt: HostRuntime) -> io::Result<()> {
    let mut total = Tally::NONE;
    for folder in FOLDERS {
        let tally = run_folder(&rt, folder)?;
        emit(&rt, folder, tally)?;
        total = total.with(tally);
    }
    emit(&rt, "total", total)
}

// Prints a tally under a name.
fn emit(rt: &impl Print, name: &str, tally: Tally) -> io::Result<()> {
    let Tally { cases, passed } = tally;
    println!(rt; "{name}: {passed} of {cases}")
}

// Runs the cases of a folder. Prints those that fail on standard error.
fn run_folder<R: AllocGlobal + Clone + Drop + Eprint + Files>(
    rt: &R,
    folder: &str,
) -> io::Result<Tally> {
    let mut tally = Tally::NONE;
    for entry in fs::read_dir(rt, folder)? {
        let entry = entry?;
        let Some(case) = input_name(entry.path()) else {
            continue;
        };
        let passed = passes(rt, case)?;
        if !passed {
            eprintln!(rt; "failed: {case}")?;
        }
        tally = tally.counted(passed);
    }
    Ok(tally)
}

// Returns the name of the case whose input this is, if it is an input.
fn input_name(path: Path<'_>) -> Option<&str> {
    path.to_str()?.strip_suffix(".in")
}

// Returns whether a run of the case writes what its files say.
fn passes<R: AllocGlobal + Files>(rt: &R, case: &str) -> io::Result<bool> {
    let alloc = rt.alloc();
    let input = read_part(rt, case, "in")?;
    let run = run_lines(alloc, input.as_slice(), Tape::new(alloc));
    let emitted = fault_line(alloc, &run.fault)?;
    let ended = format!(in alloc; "{}", status(&run.fault, true))?;
    let out = read_part(rt, case, "out")?;
    let err = read_part_or(rt, case, "err", "")?;
    let wanted = read_part_or(rt, case, "status", "0")?;
    let drawn = run.writer.bytes() == out.as_slice();
    let blamed = emitted.as_bytes() == err.as_slice();
    Ok(drawn && blamed && ended.as_bytes() == wanted.trim_ascii())
}

// Reads one file of a case.
fn read_part<R: AllocGlobal + Files>(rt: &R, case: &str, part: &str) -> io::Result<Vec<u8>> {
    let path = format!(in rt.alloc(); "{case}.{part}")?;
    fs::read(rt, path.as_str())
}

// Reads one file of a case, or returns `absent` if the case doesn't have it.
fn read_part_or<R: AllocGlobal + Files>(
    rt: &R,
    case: &str,
    part: &str,
    absent: &str,
) -> io::Result<Vec<u8>> {
    match read_part(rt, case, part) {
        Err(error) if error.kind() == ErrorKind::NotFound => {
            Ok(Vec::from_slice(rt.alloc(), absent.as_bytes())?)
        }
        read => read,
    }
}

// Returns what the program writes on standard error.
fn fault_line(alloc: Global, fault: &Option<LineFault>) -> Result<String, AllocError> {
    match fault {
        Some(fault) => format!(in alloc; "{fault}\n"),
        None => Ok(String::new(alloc)),
    }
}
