//! Rows: made, drawn, read back, and their paths; and what the program that reads prints of them.

use std::alloc::{AllocError, Global};
use std::io;
use std::io::Write;
use std::process::Abort;
use std::test::*;
use test_support::Step;
use test_support::tree::{LINED, drawn};
use tracing_tree::rows::{
    DrawFault, EventPath, ReadFault, Row, RowCause, RowFault, Shape, draw_rows, read_paths,
    read_rows, rows_to_json,
};
use tracing_tree::style::Level;

// The drawing of two spans with an event.
const TREE: &str = "┐a \n└─┐b \n  ├─ WARN x\n┌─┘\n┘\n";

// The rows that are read of it.
const TREE_ROWS: &str =
    "OpenRoot 0|a \nOpen(false) 1|b \nEvent 2| WARN x\nClose(false) 1|\nCloseRoot 0|\n";

// Returns a row of these lines, if there is one.
fn row(
    alloc: Global,
    shape: Shape,
    level: usize,
    texts: &[&str],
) -> Result<Option<Row>, AllocError> {
    let mut lines = Vec::new(alloc);
    for text in texts {
        lines.push(String::from_str(alloc, text)?)?;
    }
    Ok(Row::new(shape, level, lines))
}

// Appends a row as a line: its shape, its level, and each of its strings after a bar.
fn push_row(out: &mut String, row: &Row) -> Result<(), AllocError> {
    let (shape, level): (Shape, usize) = (row.shape(), row.level());
    write!(out, "{shape:?} {level}")?;
    for text in row.lines().as_slice() {
        write!(out, "|{text}")?;
    }
    out.push_str("\n")
}

// Returns the rows, a line each.
fn shown(alloc: Global, rows: &[Row]) -> Result<String, AllocError> {
    let mut out = String::new(alloc);
    for row in rows {
        push_row(&mut out, row)?;
    }
    Ok(out)
}

// A path as a line: the event's place and those of its ancestors.
fn push_path(out: &mut String, path: &EventPath) -> Result<(), AllocError> {
    let event = path.event;
    write!(out, "{event}:")?;
    for place in path.ancestors.as_slice() {
        match place {
            Some(place) => write!(out, " {place}")?,
            None => out.push_str(" -")?,
        }
    }
    out.push_str("\n")
}

// Returns the paths, a line each.
fn shown_paths(alloc: Global, paths: &[EventPath]) -> Result<String, AllocError> {
    let mut out = String::new(alloc);
    for path in paths {
        push_path(&mut out, path)?;
    }
    Ok(out)
}

// Returns the rows of the text with amount 2. Like the two below it has no contract, so its callers
// are proved quickly.
fn read(alloc: Global, text: &str) -> Result<Vec<Row>, ReadFault> {
    read_rows(alloc, text, 2)
}

// Returns the paths of its events.
fn paths(alloc: Global, text: &str) -> Result<Vec<EventPath>, ReadFault> {
    read_paths(alloc, text, 2)
}

// Returns what the rows are drawn as with amount 2, or nothing and why not.
fn redrawn(alloc: Global, rows: &[Row]) -> (String, Option<DrawFault>) {
    match draw_rows(alloc, rows, 2) {
        Ok(text) => (text, None),
        Err(fault) => (String::new(alloc), Some(fault)),
    }
}

// Checks that the text is read as these rows, and that drawing them yields the text again.
fn reads_as(rt: &(impl Abort + AllocGlobal), text: &str, wanted: &str) -> Result<(), Fail> {
    let rows = read(rt.alloc(), text)?;
    let shown = shown(rt.alloc(), rows.as_slice())?;
    assert_eq!(rt; shown.as_str(), wanted, "{text:?}");
    let (drawn, _fault) = redrawn(rt.alloc(), rows.as_slice());
    assert_eq!(rt; drawn.as_str(), text);
    Ok(())
}

// Like `reads_as`, for each of these texts.
fn each_reads_as(rt: &(impl Abort + AllocGlobal), texts: &[(&str, &str)]) -> Result<(), Fail> {
    for (text, wanted) in texts {
        reads_as(rt, text, wanted)?;
    }
    Ok(())
}

// Returns why the text can't be read as rows, and as paths.
fn faults(alloc: Global, text: &str) -> (Option<ReadFault>, Option<ReadFault>) {
    (read(alloc, text).err(), paths(alloc, text).err())
}

// Checks that this line is the first that isn't a line of a row.
fn fails_at(rt: &(impl Abort + AllocGlobal), text: &str, line: u64) {
    let wanted = Some(ReadFault::Line(line));
    assert_eq!(rt; faults(rt.alloc(), text), (wanted, wanted), "{text:?}");
}

const TREES: [(&str, &str); 2] = [(TREE, TREE_ROWS), ("", "")];

#[test]
fn reads_a_tree(rt: HostRuntime) -> Result<(), Fail> {
    each_reads_as(&rt, TREES.as_slice())?;
    fails_at(&rt, "┐a \n└─┐b \n  ├─ WARN x\n┌─┘\n┘", 5);
    Ok(())
}

const SHAPES: [(&str, &str); 7] = [
    ("└┐a \n └┐b \n", "PreOpen 0|a \nOpen(true) 1|b \n"),
    ("└─┐b \n  │  2\n", "Open(false) 1|b |2\n"),
    ("├─x\n│  y\n", "Event 1|x|y\n"),
    (" x\n", "Event 0| x\n"),
    (" ┌┘b \n┌┘a \n", "Close(true) 1|b \nPostClose 0|a \n"),
    ("┌─┘b\n │  2\n", "Close(false) 1|b|2\n"),
    ("└┐a\n│  b\n", "PreOpen 0|a|b\n"),
];

#[test]
fn reads_each_shape(rt: HostRuntime) -> Result<(), Fail> {
    each_reads_as(&rt, SHAPES.as_slice())
}

// Texts that can't be read, with the invalid line of each.
const NO_ROWS: [(&str, u64); 9] = [
    ("└──┐b \n", 1),
    ("┐a\n│  y\n", 2),
    ("   \n", 1),
    ("x\n\n", 2),
    (" ┐a\n", 1),
    ("├x\n", 1),
    ("│  x\n", 1),
    ("x\n│  y\n", 2),
    ("┐a", 1),
];

#[test]
fn refuses_what_is_no_row(rt: HostRuntime) {
    for (text, line) in NO_ROWS {
        fails_at(&rt, text, line);
    }
}

const ODD_TEXTS: [(&str, &str); 5] = [
    ("┐┐ \n", "OpenRoot 0|┐ \n"),
    ("┐a\n┐┐b \n", "OpenRoot 0|a\nOpenRoot 0|┐b \n"),
    ("INFO x\n", "Event 0|INFO x\n"),
    ("├─ INFO x\n│  y\n", "Event 1| INFO x|y\n"),
    ("├─x\r\n", "Event 1|x\r\n"),
];

#[test]
fn reads_odd_texts(rt: HostRuntime) -> Result<(), Fail> {
    each_reads_as(&rt, ODD_TEXTS.as_slice())
}

// Returns the rows of this table, with one string each.
fn rows_of(
    rt: &(impl Abort + AllocGlobal),
    table: &[(Shape, usize, &str)],
) -> Result<Vec<Row>, AllocError> {
    let mut rows = Vec::new(rt.alloc());
    for (shape, level, text) in table {
        match row(rt.alloc(), *shape, *level, [*text].as_slice())? {
            Some(row) => rows.push(row)?,
            None => assert!(rt; false, "no row of {text}"),
        }
    }
    Ok(rows)
}

const ROWS: [(Shape, usize, &str); 5] = [
    (Shape::OpenRoot, 0, "a "),
    (Shape::Open(false), 1, "b "),
    (Shape::Event, 2, " WARN x"),
    (Shape::Close(false), 1, ""),
    (Shape::CloseRoot, 0, ""),
];

#[test]
fn draws_rows(rt: HostRuntime) -> Result<(), Fail> {
    let rows = rows_of(&rt, ROWS.as_slice())?;
    let (text, fault) = redrawn(rt.alloc(), rows.as_slice());
    assert_eq!(rt; (text.as_str(), fault), (TREE, None));
    Ok(())
}

// A root, and below it a row of this shape and this level.
fn is_too_wide(
    rt: &(impl Abort + AllocGlobal),
    shape: Shape,
    level: usize,
) -> Result<(), AllocError> {
    let table = [(Shape::OpenRoot, 0, "a"), (shape, level, "b")];
    let rows = rows_of(rt, table.as_slice())?;
    assert_eq!(rt; rows.len(), 2);
    let (_text, fault) = redrawn(rt.alloc(), rows.as_slice());
    assert_eq!(rt; fault, Some(DrawFault::TooWide), "{level}");
    Ok(())
}

#[test]
fn refuses_rows_that_are_too_wide(rt: HostRuntime) -> Result<(), Fail> {
    is_too_wide(&rt, Shape::Open(false), 1 << 63)?;
    is_too_wide(&rt, Shape::PreOpen, usize::MAX)?;
    is_too_wide(&rt, Shape::PostClose, (1 << 63) - 1)?;
    Ok(())
}

// Whether there is a row of this shape and level with these strings.
const MADE: [(Shape, usize, &[&str], bool); 17] = [
    (Shape::PreOpen, 0, &["a", "b"], true),
    (Shape::OpenRoot, 0, &["a"], true),
    (Shape::OpenRoot, 1, &["a"], false),
    (Shape::OpenRoot, 0, &["a", "b"], false),
    (Shape::Open(true), 0, &["a"], false),
    (Shape::Open(true), 1, &["a", "b"], true),
    (Shape::CloseRoot, 0, &[""], true),
    (Shape::Close(false), 0, &["a"], false),
    (Shape::PostClose, 7, &[""], true),
    (Shape::Event, 0, &["  x"], true),
    (Shape::Event, 0, &["x", "y"], false),
    (Shape::Event, 0, &[" ┐x"], false),
    (Shape::Event, 0, &["─x"], true),
    (Shape::Event, 0, &["  "], false),
    (Shape::Event, 1, &["┐", "y"], true),
    (Shape::Event, 1, &["a\nb"], false),
    (Shape::Event, 1, &[], false),
];

#[test]
fn makes_rows_that_may_be(rt: HostRuntime) -> Result<(), Fail> {
    for (shape, level, texts, made) in MADE {
        let row = row(rt.alloc(), shape, level, texts)?;
        assert_eq!(rt; row.is_some(), made, "{shape:?} {level} {texts:?}");
    }
    Ok(())
}

// Checks that the events of the text have these paths.
fn paths_are(rt: &(impl Abort + AllocGlobal), text: &str, wanted: &str) -> Result<(), Fail> {
    let paths = paths(rt.alloc(), text)?;
    let shown = shown_paths(rt.alloc(), paths.as_slice())?;
    assert_eq!(rt; shown.as_str(), wanted, "{text:?}");
    Ok(())
}

const PATHS: [(&str, &str); 8] = [
    (TREE, "2: 0 1\n"),
    ("┐a \n└─┐b \n┐c \n┐a \n└─┐b \n┌─┘\n├─ INFO x\n", "6: 3\n"),
    ("┐a \n└─┐b \n┐c \n┌─┘\n├─ INFO x\n", "4: 2\n"),
    ("  ├─x\n", "0: - -\n"),
    ("┐a\n  ├─x\n", "1: 0 -\n"),
    ("INFO x\n", "0:\n"),
    ("└┐a \n└─┐b \n  ├─x\n", "2: - 1\n"),
    ("", ""),
];

#[test]
fn finds_ancestors(rt: HostRuntime) -> Result<(), Fail> {
    for (text, wanted) in PATHS {
        paths_are(&rt, text, wanted)?;
    }
    Ok(())
}

// The calls that draw the tree.
const STEPS: [Step<'static>; 5] = [
    Step::New("a", None),
    Step::New("b", Some(1)),
    Step::Event(Level::Warn, "x", Some(2)),
    Step::Close(2),
    Step::Close(1),
];

#[test]
fn reads_what_a_run_drew(rt: HostRuntime) -> Result<(), Fail> {
    let text = drawn(rt.alloc(), LINED, STEPS.as_slice())?;
    assert_eq!(rt; text.as_str(), TREE);
    reads_as(&rt, text.as_str(), TREE_ROWS)
}

// Returns what the program prints for the text, and how it ends.
fn printed(alloc: Global, text: &[u8]) -> Result<(Vec<u8>, Result<(), RowFault>), AllocError> {
    let mut out = Vec::new(alloc);
    let ended = rows_to_json(alloc, text, &mut out, 2);
    Ok((out, ended))
}

// Checks what is printed for the text, and how the reading ends.
fn prints(
    rt: &(impl Abort + AllocGlobal),
    text: &[u8],
    wanted: &str,
    ended: Result<(), RowFault>,
) -> Result<(), AllocError> {
    let (printed, end) = printed(rt.alloc(), text)?;
    assert_eq!(rt; end, ended, "{text:?}");
    assert_eq!(rt; printed.as_slice(), wanted.as_bytes(), "{text:?}");
    Ok(())
}

#[test]
fn prints_rows(rt: HostRuntime) -> Result<(), Fail> {
    let text = "└┐a \"\n └┐b\\ \n  │  \t2\n  ├─\u{7f}é\n ┌┘\n┌┘\nx\n";
    let wanted = concat!(
        "{\"shape\":\"PreOpen\",\"level\":0,\"lines\":[\"a \\\"\"]}\n",
        "{\"shape\":\"Open\",\"verbose\":true,\"level\":1,\"lines\":[\"b\\\\ \",\"\\t2\"]}\n",
        "{\"shape\":\"Event\",\"level\":2,\"lines\":[\"\u{7f}é\"],\"ancestors\":[null,1]}\n",
        "{\"shape\":\"Close\",\"verbose\":true,\"level\":1,\"lines\":[\"\"]}\n",
        "{\"shape\":\"PostClose\",\"level\":0,\"lines\":[\"\"]}\n",
        "{\"shape\":\"Event\",\"level\":0,\"lines\":[\"x\"],\"ancestors\":[]}\n",
    );
    prints(&rt, text.as_bytes(), wanted, Ok(()))?;
    Ok(())
}

// Returns the lines of JSON for rows whose strings need no escapes, with the path of each event.
fn expected(alloc: Global, rows: &[Row], paths: &[EventPath]) -> Result<String, AllocError> {
    let mut out = String::new(alloc);
    for (place, row) in rows.iter().enumerate() {
        push_shape(&mut out, row)?;
        push_lines(&mut out, row)?;
        push_path_of(&mut out, place, paths)?;
        out.push_str("}\n")?;
    }
    Ok(out)
}

// The path of the event at this place, if there is one.
fn push_path_of(out: &mut String, place: usize, paths: &[EventPath]) -> Result<(), AllocError> {
    for path in paths {
        if path.event == place {
            push_ancestors(out, path)?;
        }
    }
    Ok(())
}

// The shape and the level of a row.
fn push_shape(out: &mut String, row: &Row) -> Result<(), AllocError> {
    let level = row.level();
    match row.shape() {
        Shape::Open(verbose) => {
            write!(
                out,
                "{{\"shape\":\"Open\",\"verbose\":{verbose},\"level\":{level}"
            )?;
        }
        Shape::Close(verbose) => {
            write!(
                out,
                "{{\"shape\":\"Close\",\"verbose\":{verbose},\"level\":{level}"
            )?;
        }
        shape => write!(out, "{{\"shape\":\"{shape:?}\",\"level\":{level}")?,
    }
    Ok(())
}

// The lines of a row.
fn push_lines(out: &mut String, row: &Row) -> Result<(), AllocError> {
    out.push_str(",\"lines\":[")?;
    for (index, text) in row.lines().as_slice().iter().enumerate() {
        let comma = if index > 0 { "," } else { "" };
        write!(out, "{comma}\"{text}\"")?;
    }
    out.push_str("]")
}

// The path of an event.
fn push_ancestors(out: &mut String, path: &EventPath) -> Result<(), AllocError> {
    out.push_str(",\"ancestors\":[")?;
    for (index, place) in path.ancestors.as_slice().iter().enumerate() {
        let comma = if index > 0 { "," } else { "" };
        match place {
            Some(place) => write!(out, "{comma}{place}")?,
            None => write!(out, "{comma}null")?,
        }
    }
    out.push_str("]")
}

// Checks that the program prints what is read from the text.
fn prints_as_read(rt: &(impl Abort + AllocGlobal), text: &str) -> Result<(), Fail> {
    let rows = read(rt.alloc(), text)?;
    let paths = paths(rt.alloc(), text)?;
    let wanted = expected(rt.alloc(), rows.as_slice(), paths.as_slice())?;
    prints(rt, text.as_bytes(), wanted.as_str(), Ok(()))?;
    Ok(())
}

#[test]
fn prints_what_is_read(rt: HostRuntime) -> Result<(), Fail> {
    for text in [
        TREE,
        "",
        "└┐a \n └┐b \n  │  2\n ┌┘\n┌┘\nx\n",
        "┐a \n└─┐b \n┐c \n┐a \n└─┐b \n┌─┘\n├─ INFO x\n│  y\n    ├─z\n",
    ] {
        prints_as_read(&rt, text)?;
    }
    Ok(())
}

// What is printed of a root that opens.
const ROOT: &str = "{\"shape\":\"OpenRoot\",\"level\":0,\"lines\":[\"a\"]}\n";

// What is printed of it and of a span in it.
const BOTH: &str = concat!(
    "{\"shape\":\"OpenRoot\",\"level\":0,\"lines\":[\"a\"]}\n",
    "{\"shape\":\"Open\",\"verbose\":false,\"level\":1,\"lines\":[\"b\"]}\n",
);

#[test]
fn prints_the_rows_before_a_fault(rt: HostRuntime) -> Result<(), Fail> {
    let cause = RowCause::NotARow;
    for (text, line, wanted) in [
        ("┐a\n└─┐b\n\n".as_bytes(), 3, BOTH),
        ("┐a\n└─┐b\n┌─┘".as_bytes(), 3, BOTH),
        ("┐a\n└─┐b\n│x\n┘\n".as_bytes(), 3, BOTH),
        (b"\xe2\x94\x90a\n\xff\n".as_slice(), 2, ROOT),
        (b"\xff".as_slice(), 1, ""),
    ] {
        prints(&rt, text, wanted, Err(RowFault { line, cause }))?;
    }
    Ok(())
}

// The causes of a fault, each as a fault in line 3 and its string.
const CAUSES: [(RowCause, &str); 4] = [
    (RowCause::NotARow, "line 3: not a row"),
    (RowCause::Read, "line 3: read"),
    (RowCause::Memory, "line 3: memory"),
    (RowCause::Writer, "line 3: writer"),
];

// Checks the string of a fault in line 3 with this cause.
fn row_fault_reads(
    rt: &(impl Abort + AllocGlobal),
    cause: RowCause,
    wanted: &str,
) -> Result<(), AllocError> {
    let text = RowFault { line: 3, cause }.to_string(rt.alloc())?;
    assert_eq!(rt; text.as_str(), wanted);
    Ok(())
}

fn read_fault_reads(
    rt: &(impl Abort + AllocGlobal),
    fault: ReadFault,
    wanted: &str,
) -> Result<(), AllocError> {
    let text = fault.to_string(rt.alloc())?;
    assert_eq!(rt; text.as_str(), wanted);
    Ok(())
}

fn draw_fault_reads(
    rt: &(impl Abort + AllocGlobal),
    fault: DrawFault,
    wanted: &str,
) -> Result<(), AllocError> {
    let text = fault.to_string(rt.alloc())?;
    assert_eq!(rt; text.as_str(), wanted);
    Ok(())
}

#[test]
fn texts_of_faults(rt: HostRuntime) -> Result<(), Fail> {
    for (cause, wanted) in CAUSES {
        row_fault_reads(&rt, cause, wanted)?;
    }
    read_fault_reads(&rt, ReadFault::Line(7), "line 7: not a row")?;
    read_fault_reads(&rt, ReadFault::Memory, "memory")?;
    draw_fault_reads(&rt, DrawFault::TooWide, "too wide")?;
    draw_fault_reads(&rt, DrawFault::Memory, "memory")?;
    Ok(())
}

// Takes `left` writes, and refuses those after them.
#[derive(Drop)]
struct Full {
    left: u32,
}

impl Write for Full {
    fn write(&mut self, bytes: &[u8]) -> io::Result<usize> {
        if self.left == 0 {
            return Err(io::Error::from(io::ErrorKind::StorageFull));
        }
        self.left -= 1;
        Ok(bytes.len())
    }

    fn flush(&mut self) -> io::Result<()> {
        Ok(())
    }
}

// Reads the tree over a writer that takes `left` writes. Returns how it ends.
fn ends_after(alloc: Global, left: u32) -> Result<(), RowFault> {
    let mut writer = Full { left };
    rows_to_json(alloc, TREE.as_bytes(), &mut writer, 2)
}

#[test]
fn reports_a_fault_of_the_writer(rt: HostRuntime) {
    let cause = RowCause::Writer;
    for (left, line) in [(0, 2), (1, 3), (3, 5), (4, 6)] {
        let fault = RowFault { line, cause };
        assert_eq!(rt; ends_after(rt.alloc(), left), Err(fault), "{left}");
    }
    assert_eq!(rt; ends_after(rt.alloc(), 5), Ok(()));
}
