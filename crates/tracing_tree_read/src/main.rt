//! Reads the drawing on standard input, and prints each of its rows as a line of JSON.
#![tactic(auto)]

ghost use Rattle.std.specs.Prelude.{◌≤◌, IfOk};

use clap::error::ErrorKind;
use clap::{Arg, ArgAction, Command, Error, value_parser};
use std::alloc::Global;
use std::io;
use std::io::{BufWriter, Write};
use std::process::ExitCode;
use std::rt::Env;
use tracing_tree::lines::BLOCK;
use tracing_tree::rows::{RowCause, RowFault, rows_to_json};

// The amount without an argument.
const AMOUNT: usize = 2;

// The fault if an allocation fails before the first line.
const NO_MEMORY: RowFault = RowFault {
    line: 1,
    cause: RowCause::Memory,
};

fn main(rt: HostRuntime) -> ExitCode {
    let args = match args(&rt) {
        Ok(args) => args,
        Err(error) if error.kind() == io::ErrorKind::OutOfMemory => return end(
            &rt,
            Err(NO_MEMORY),
            true,
        ),
        Err(_) => return refuse(&rt),
    };
    match amount(rt.alloc(), args.as_slice()) {
        Ok(amount) => read(&rt, amount),
        Err(error) if error.kind() == ErrorKind::OutOfMemory => end(&rt, Err(NO_MEMORY), true),
        Err(error) => answer(&rt, &error),
    }
}

// Returns the arguments of the command line, the program's name first.
fn args<R: AllocGlobal + Env>(rt: &R) -> io::Result<Vec<String>> {
    Ok(std::env::args(rt)?.collect(rt.alloc())?)
}

// Reports an argument that isn't UTF-8.
fn refuse(rt: &impl Eprint) -> ExitCode {
    let _ = eprintln!(rt; "error: an argument isn't UTF-8");
    ExitCode::from(2)
}

// Returns the amount in the arguments.
fn amount(alloc: Global, args: &[String]) -> Result<usize, Error>
    ensures { IfOk result (λ n. 2 ≤ n) }
{
    let amount = Arg::new(alloc, "amount")
        .long("amount")
        .value_name("N")
        .help("The columns a level of the drawing, 2 or more")
        .action(ArgAction::Set)
        .value_parser(value_parser!(usize).range(2..))
        .default_value("2");
    let command = Command::new(alloc, "tracing_tree_read")
        .version("0.1.0")
        .about("Reads a drawing and prints a line of JSON for each of its rows")
        .arg(amount)?;
    let matches = command.try_get_matches_from(args)?;
    Ok(
        matches
            .get_one::<usize>("amount")
            .unwrap_or(AMOUNT)
            .max(AMOUNT),
    )
}

// Prints what the parser of arguments reports: help, the version, or a mistake.
fn answer(rt: &(impl Print + Eprint), error: &Error) -> ExitCode {
    let _ = error.print(rt);
    if error.use_stderr() {
        ExitCode::from(2)
    } else {
        ExitCode::SUCCESS
    }
}

// Reads the drawing.
fn read<R: AllocGlobal + Eprint + Input + Print>(rt: &R, amount: usize) -> ExitCode
    requires { 2 ≤ amount }
{
    let alloc = rt.alloc();
    let Ok(mut writer) = BufWriter::with_capacity(alloc, BLOCK, io::writer(rt)) else {
        return end(rt, Err(NO_MEMORY), true);
    };
    let run = rows_to_json(alloc, rt.reader(), &mut writer, amount);
    let flushed = writer.flush().is_ok();
    end(rt, run, flushed)
}

// Prints the fault on standard error, if there is one, and returns the status. A fault of standard
// error itself changes nothing.
fn end(rt: &impl Eprint, run: Result<(), RowFault>, flushed: bool) -> ExitCode {
    let emitted = match run {
        Err(fault) => eprintln!(rt; "{fault}"),
        Ok(()) if flushed => return ExitCode::SUCCESS,
        Ok(()) => eprintln!(rt; "end: writer"),
    };
    let _ = emitted;
    ExitCode::FAILURE
}
