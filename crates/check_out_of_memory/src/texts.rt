//! Texts read back, and runs by lines.

ghost use Rattle.std.specs.Prelude.{◌≡◌};

use crate::board::Board;
use std::alloc::{AllocError, Global};
use tracing_tree::format::Refusal;
use tracing_tree::rows::{
    DrawFault, EventPath, ReadFault, Reader, Row, RowCause, Taken, draw_rows, read_paths,
    read_rows, rows_to_json,
};
use tracing_tree::{LineCause, LinesRun, run_lines};

const TREE: &str = "┐a \n└─┐b \n  ├─ WARN x\n  │  y\n┌─┘\n┘\n";

/// How many rows the tree has.
pub const ROWS: usize = 5;

const JSON: &str = "{\"shape\":\"OpenRoot\",\"level\":0,\"lines\":[\"a \"]}\n\
    {\"shape\":\"Open\",\"verbose\":false,\"level\":1,\"lines\":[\"b \"]}\n\
    {\"shape\":\"Event\",\"level\":2,\"lines\":[\" WARN x\",\"y\"],\"ancestors\":[0,1]}\n\
    {\"shape\":\"Close\",\"verbose\":false,\"level\":1,\"lines\":[\"\"]}\n\
    {\"shape\":\"CloseRoot\",\"level\":0,\"lines\":[\"\"]}\n";

// A string of more than 16 bytes allocates.
const LINES: &str =
    "{\"indent_lines\":true,\"deferred_spans\":true,\"targets\":true,\"thread_names\":true}\n\
    {\"call\":\"new\",\"name\":\"the first of two spans\",\"target\":\"a target of a span\"}\n\
    {\"call\":\"new\",\"name\":\"b\",\"current\":1,\"fields\":[[\"the name of a field\",\"1\"]]}\n\
    {\"call\":\"record\",\"id\":2,\"fields\":[[\"k\",\"a value that is long\"]]}\n\
    {\"call\":\"event\",\"level\":\"WARN\",\"target\":\"a target of an event\",\"current\":2,\
    \"thread_name\":\"a thread with a name\",\"fields\":[[\"message\",\"a message that is long\"]]}\n\
    {\"call\":\"close\",\"id\":2}\n\
    {\"call\":\"close\",\"id\":1}\n";

const DRAWN: &str = "a thread with a name┐a target of a span::the first of two spans \n\
    a thread with a name└─┐::b the name of a field=1, k=a value that is long\n\
    a thread with a name  ├─ WARN a target of an event a message that is long\n\
    ┌─┘\n\
    ┘\n";

// The calls are in separate functions without contracts: only what they return is tested.

fn read(alloc: Global, text: &str) -> Result<Vec<Row>, ReadFault> {
    read_rows(alloc, text, 2)
}

fn drawn(alloc: Global, rows: &[Row]) -> Result<String, DrawFault> {
    draw_rows(alloc, rows, 2)
}

fn found(alloc: Global, text: &str) -> Result<Vec<EventPath>, ReadFault> {
    read_paths(alloc, text, 2)
}

fn emitted(alloc: Global, text: &[u8], board: &mut Board) -> Result<(), RowCause> {
    rows_to_json(alloc, text, board, 2).map_err(|fault| fault.cause)
}

fn run(alloc: Global, lines: &[u8], board: Board) -> LinesRun<Board>
    requires { board.faults ≡ 0 }
{
    run_lines(alloc, lines, board)
}

/// Reads a tree and draws it again. Returns how many allocations failed.
pub fn read_and_draw(alloc: Global) -> anyhow::Result<u32> {
    let (rows, unread) = match read(alloc, TREE) {
        Err(ReadFault::Memory) => (read(alloc, TREE), 1u32),
        rows => (rows, 0),
    };
    let Ok(rows) = rows else {
        anyhow::bail!("a tree is not read");
    };
    Ok(unread.saturating_add(drawn_again(alloc, rows.as_slice())?))
}

// Draws the rows of the tree, and again if an allocation failed. Returns how many did.
fn drawn_again(alloc: Global, rows: &[Row]) -> anyhow::Result<u32> {
    let (text, undrawn) = match drawn(alloc, rows) {
        Err(DrawFault::Memory) => (drawn(alloc, rows), 1u32),
        text => (text, 0),
    };
    let Ok(text) = text else {
        anyhow::bail!("rows are not drawn");
    };
    anyhow::ensure!(text.as_str() == TREE, "other rows are read");
    Ok(undrawn)
}

/// Reads a tree line by line, each again if an allocation failed, into a list with enough capacity,
/// and draws it again. Returns how many allocations failed.
pub fn read_by_lines(alloc: Global, mut rows: Vec<Row>) -> anyhow::Result<u32> {
    let mut reader = Reader::new(2);
    let mut refused = 0u32;
    for line in TREE.lines() {
        let (taken, untaken) = take_twice(alloc, &mut reader, line)?;
        refused = refused.saturating_add(untaken);
        if let Taken::First(Some(row)) = taken {
            rows.push(row)?;
        }
    }
    if let Some(row) = reader.finish() {
        rows.push(row)?;
    }
    Ok(refused.saturating_add(drawn_again(alloc, rows.as_slice())?))
}

// Takes a line, and again if an allocation failed. Returns how many did.
fn take_twice(alloc: Global, reader: &mut Reader, line: &str) -> Result<(Taken, u32), AllocError> {
    match reader.take(alloc, line) {
        Ok(taken) => Ok((taken, 0)),
        Err(_) => Ok((reader.take(alloc, line)?, 1)),
    }
}

/// Finds the ancestors of the one event of a tree. Returns how many allocations failed.
pub fn find_paths(alloc: Global) -> anyhow::Result<u32> {
    let (paths, refused) = match found(alloc, TREE) {
        Err(ReadFault::Memory) => (found(alloc, TREE), 1u32),
        paths => (paths, 0),
    };
    let Ok(paths) = paths else {
        anyhow::bail!("a tree is not read");
    };
    let [path] = paths.as_slice() else {
        anyhow::bail!("another number of events is found");
    };
    anyhow::ensure!(
        path.event == 2 && path.ancestors.as_slice() == [Some(0), Some(1)].as_slice(),
        "other ancestors are found"
    );
    Ok(refused)
}

/// Writes the rows of a tree as lines of JSON. Returns how many allocations failed.
pub fn emit_rows(alloc: Global, mut board: Board, mut again: Board) -> anyhow::Result<u32> {
    let Err(cause) = emitted(alloc, TREE.as_bytes(), &mut board) else {
        anyhow::ensure!(board.bytes() == JSON.as_bytes(), "other rows are reported");
        return Ok(0);
    };
    anyhow::ensure!(
        cause == RowCause::Memory && is_beginning(board.bytes(), JSON.as_bytes()),
        "another prefix is reported"
    );
    let second = emitted(alloc, TREE.as_bytes(), &mut again);
    anyhow::ensure!(
        second.is_ok() && again.bytes() == JSON.as_bytes(),
        "other rows are reported the second time"
    );
    Ok(1)
}

// Returns whether these are the first lines of a text.
fn is_beginning(lines: &[u8], text: &[u8]) -> bool {
    text.starts_with(lines) && lines.last().is_none_or(|last| *last == b'\n')
}

/// Draws the calls of lines. If an allocation fails, the output must be that of the lines before.
/// Returns how many failed.
pub fn run_by_lines(alloc: Global, board: Board, again: Board) -> anyhow::Result<u32>
    requires first { board.faults ≡ 0 }
    requires second { again.faults ≡ 0 }
{
    let first = run(alloc, LINES.as_bytes(), board);
    let Some(fault) = first.fault else {
        anyhow::ensure!(
            first.writer.bytes() == DRAWN.as_bytes(),
            "another text is drawn"
        );
        return Ok(0);
    };
    let is_memory = matches!(
        &fault.cause,
        LineCause::Memory | LineCause::Refused(Refusal::Memory)
    );
    let before = run(alloc, lines_before(LINES.as_bytes(), fault.line), again);
    anyhow::ensure!(
        is_memory && first.writer.bytes() == before.writer.bytes(),
        "what the lines before say is not drawn"
    );
    Ok(1)
}

// Returns the lines before the one of this number, from 1.
fn lines_before(lines: &[u8], number: u64) -> &[u8] {
    let mut left = number;
    let mut end = 0usize;
    for byte in lines {
        if left <= 1 {
            break;
        }
        end = end.saturating_add(1);
        if *byte == b'\n' {
            left = left.wrapping_sub(1);
        }
    }
    lines.get(..end).unwrap_or(&[])
}
