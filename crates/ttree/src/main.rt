//! The program `ttree`: another tool's output drawn as a tree.
#![tactic(auto)]

mod document;
mod draw;
mod found;
mod input;
mod junit;
mod options;
mod otlp;
mod output;
mod page;
mod report;
mod shown;
mod summary;
mod tree;

use clap::Error;
use clap::error::ErrorKind;
use draw::draw;
use options::{Options, Terminal, parse};
use report::{Origin, Status, out_of_memory};
use std::io::IsTerminal;
use std::process::ExitCode;
use std::rt::{Env, Files};
use std::{env, fs, io};

fn main(rt: HostRuntime) -> ExitCode {
    let args = match args(&rt) {
        Ok(args) => args,
        Err(error) if error.kind() == io::ErrorKind::OutOfMemory => return no_memory(&rt),
        Err(_) => {
            let _ = eprintln!(rt; "error: an argument isn't UTF-8");
            return ExitCode::from(2);
        }
    };
    match parse(rt.alloc(), args.as_slice(), terminal(&rt)) {
        Ok(options) => draw_files(&rt, &options).exit_code(),
        Err(error) if error.kind() == ErrorKind::OutOfMemory => no_memory(&rt),
        Err(error) => answer(&rt, &error),
    }
}

// Returns what standard output is. If it isn't a terminal, it has no colours and no width.
fn terminal(rt: &HostRuntime) -> Terminal {
    let is_terminal = rt.stdout().is_terminal();
    Terminal {
        is_coloured: is_terminal && !is_colour_unwanted(rt),
        width: columns(rt).filter(|_: &usize| -> bool { is_terminal }),
    }
}

// Returns the number that COLUMNS is set to.
fn columns<R: AllocGlobal + Env>(rt: &R) -> Option<usize> {
    env::var(rt, "COLUMNS").ok()?.as_str().parse().ok()
}

// Returns whether NO_COLOR is set and not empty, or the terminal has no colours.
fn is_colour_unwanted<R: AllocGlobal + Env>(rt: &R) -> bool {
    let is_dumb = match env::var(rt, "TERM") {
        Ok(terminal) => terminal.as_str() == "dumb",
        Err(_) => false,
    };
    match env::var(rt, "NO_COLOR") {
        Ok(value) => is_dumb || !value.as_str().is_empty(),
        Err(env::VarError::NotPresent) => is_dumb,
        Err(_) => true,
    }
}

// Reports that memory ran out before the command line was read.
fn no_memory(rt: &impl Eprint) -> ExitCode {
    out_of_memory(rt, Origin { file: None }).exit_code()
}

// Returns the arguments of the command line, the program's name first.
fn args<R: AllocGlobal + Env>(rt: &R) -> io::Result<Vec<String>> {
    Ok(std::env::args(rt)?.collect(rt.alloc())?)
}

// Prints what the parser of arguments answers: help, the version, or a mistake.
fn answer(rt: &(impl Print + Eprint), error: &Error) -> ExitCode {
    let _ = error.print(rt);
    if error.use_stderr() {
        ExitCode::from(2)
    } else {
        ExitCode::SUCCESS
    }
}

// Draws the inputs, one after another. The status is the worst of theirs.
fn draw_files<R: AllocGlobal + Eprint + Files + Input + Print>(
    rt: &R,
    options: &Options<'_>,
) -> Status {
    let mut status = Status::Success;
    for file in options.files.iter().copied() {
        match draw_file(rt, file, options) {
            Status::Closed => return Status::Closed,
            ended => status = status.worse(ended),
        }
    }
    status
}

// Draws a file; - is standard input.
fn draw_file<R: AllocGlobal + Eprint + Files + Input + Print>(
    rt: &R,
    file: &str,
    options: &Options<'_>,
) -> Status {
    if file == "-" {
        return draw(rt, Origin { file: None }, rt.reader(), options);
    }
    let origin = Origin { file: Some(file) };
    match fs::open(rt, file) {
        Ok(input) => draw(rt, origin, input, options),
        Err(error) if error.kind() == io::ErrorKind::OutOfMemory => out_of_memory(rt, origin),
        Err(error) => {
            let _ = eprintln!(rt; "{origin}{error}");
            Status::Usage
        }
    }
}
