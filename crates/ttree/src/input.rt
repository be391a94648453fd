//! What is read of the input before it is drawn.

ghost use Rattle.std.specs.Prelude.{◌≡◌, option_map};
ghost use Rattle.ttree.specs.Texts.{whole_characters, whole_text};

use std::alloc::{AllocError, Global};
use std::io;
use std::io::{BufRead, BufReader, Read};
use std::str::from_utf8;
use tracing_tree::lines::{LineCause, LineFault, is_skipped};
use ttree_prefix::Mark;
use ttree_source::blanks::first_byte;
use ttree_source::{Detection, Detector, Format, format_of_line, is_empty_object, without_mark};

// How the detection of the format ended.
#[derive(Clone, Copy)]
pub enum Detected {
    // A line determined the format, or an option named it.
    Format(Format),
    // The input ended, or many lines were read, before a line determined a format.
    Nothing,
    Gzip,
    Fault(LineFault),
}

// The lines that were read to detect the format, with their line ends and without a byte order
// mark.
#[derive(Drop)]
pub struct Head {
    bytes: Vec<u8>,
    // Where the lines of the format begin, and how many lines come before.
    start: usize,
    pub lines_before: u64,
    pub detected: Detected,
    // What the prefixes of the lines end at, if the line that determined the format has a prefix.
    pub mark: Option<Mark>,
}

impl Head {
    // Reads lines until one determines the format. If an option names it, lines are read until one
    // determines whether lines have prefixes, or only the first if the format has no prefixes.
    pub fn read<R: Read>(
        alloc: Global,
        lines: &mut BufReader<R>,
        named: Option<Format>,
    ) -> Result<Head, AllocError> {
        let mut head = Head {
            bytes: Vec::new(alloc),
            start: 0,
            lines_before: 0,
            detected: match named {
                Some(format) => Detected::Format(format),
                None => Detected::Nothing,
            },
            mark: None,
        };
        let mut detector = Detector::new();
        let mut line = Vec::new(alloc);
        for number in 1..u64::MAX {
            line.clear();
            if let Err(cause) = read_through(lines, &mut line) {
                head.detected = Detected::Fault(LineFault {
                    line: number,
                    cause,
                });
                return Ok(head);
            }
            if line.is_empty() {
                break;
            }
            let next = head.take(alloc, &mut detector, named, number, line.as_slice())?;
            if let Some(detected) = next {
                head.detected = detected;
                break;
            }
        }
        Ok(head)
    }

    // Takes a line with its line end. Returns how the detection ends, if it does.
    fn take(
        &mut self,
        alloc: Global,
        detector: &mut Detector,
        named: Option<Format>,
        number: u64,
        line: &[u8],
    ) -> Result<Option<Detected>, AllocError> {
        let line = if number == 1 {
            without_mark(line)
        } else {
            line
        };
        let place = self.bytes.len();
        self.bytes.extend_from_slice(line)?;
        if number == 1 && is_gzip(line) {
            return Ok(Some(Detected::Gzip));
        }
        let line = without_line_end(line);
        if let Some(format) = named {
            return self.take_named(alloc, detector, format, line);
        }
        let detection = detector.take(alloc, line)?;
        if let Detection::Determined(format) = detection {
            self.begin(format, place, number);
            return Ok(Some(Detected::Format(format)));
        }
        match (detection, prefixed_format(alloc, line)?) {
            (_, Some((format, mark))) => {
                self.mark = Some(mark);
                self.begin(format, place, number);
                Ok(Some(Detected::Format(format)))
            }
            (Detection::Held, None) => {
                self.hold(place, number, line);
                Ok(None)
            }
            _ => Ok(Some(Detected::Nothing)),
        }
    }

    // Takes a line of a format that an option names: it determines whether lines have prefixes.
    fn take_named(
        &mut self,
        alloc: Global,
        detector: &mut Detector,
        format: Format,
        line: &[u8],
    ) -> Result<Option<Detected>, AllocError> {
        if has_prefixes(format) {
            let prefixed = prefixed_format(alloc, line)?;
            self.mark = prefixed.map(|(_, mark): (Format, Mark)| -> Mark { mark });
            let is_held = detector.take(alloc, line)? == Detection::Held;
            if is_held && prefixed.is_none() {
                return Ok(None);
            }
        }
        Ok(Some(Detected::Format(format)))
    }

    // Sets the start of the format's lines, if the line at this place determined it. Lines of
    // settings and calls may start with an empty object before it.
    fn begin(&mut self, format: Format, place: usize, number: u64) {
        match format {
            Format::Lines if self.start < place => {}
            Format::Lines | Format::Chrome | Format::Otlp => {
                self.start = place;
                self.lines_before = number.saturating_sub(1);
            }
            Format::GoTest | Format::Tracing | Format::Logs | Format::Junit | Format::Tap => {
                self.start = 0;
                self.lines_before = 0;
            }
        }
    }

    // Records the possible start of lines of settings and calls: an empty object, which may be
    // settings, if only blank lines follow it.
    fn hold(&mut self, place: usize, number: u64, line: &[u8]) {
        if is_empty_object(line) {
            self.start = place;
            self.lines_before = number.saturating_sub(1);
        } else if !is_skipped(line) || self.start == place {
            self.start = self.bytes.len();
            self.lines_before = number;
        }
    }

    // Returns all lines.
    pub fn whole(&self) -> &[u8] {
        self.bytes.as_slice()
    }

    // Returns the lines before those of the format.
    pub fn preamble(&self) -> &[u8] {
        match self.bytes.as_slice().get(..self.start) {
            Some(bytes) => bytes,
            None => &[],
        }
    }

    // Returns the lines of the format.
    pub fn body(&self) -> &[u8] {
        match self.bytes.as_slice().get(self.start..) {
            Some(bytes) => bytes,
            None => &[],
        }
    }

    // Returns whether all lines are blank.
    pub fn is_blank(&self) -> bool {
        is_blank(self.bytes.as_slice())
    }
}

// Reads up to the next line end, and this with it.
pub fn read_through<R: Read>(
    lines: &mut BufReader<R>,
    line: &mut Vec<u8>,
) -> Result<(), LineCause> {
    match lines.read_until(b'\n', line) {
        Ok(_) => Ok(()),
        Err(error) if error.kind() == io::ErrorKind::OutOfMemory => Err(LineCause::Memory),
        Err(_) => Err(LineCause::Read),
    }
}

// The marks, in the order of the attempts. A job's step may have spaces, and a name before a colon
// may be the second word of its line, so these come before the marks at spaces.
const MARKS: [Mark; 9] = [
    Mark::Bar,
    Mark::Bracket,
    Mark::Job,
    Mark::Time,
    Mark::Tab,
    Mark::Colon,
    Mark::DateTime,
    Mark::Pod,
    Mark::Stamp,
];

// Returns the format of a line that has a prefix before an object, and the mark of the prefix.
fn prefixed_format(alloc: Global, line: &[u8]) -> Result<Option<(Format, Mark)>, AllocError> {
    let Ok(line) = from_utf8(line) else {
        return Ok(None);
    };
    for mark in MARKS {
        if let Some(format) = format_after(alloc, mark, line)? {
            return Ok(Some((format, mark)));
        }
    }
    Ok(None)
}

// Returns the format of the object after a prefix.
fn format_after(alloc: Global, mark: Mark, line: &str) -> Result<Option<Format>, AllocError> {
    let Some((_, rest)) = mark.split(line) else {
        return Ok(None);
    };
    if first_byte(rest.as_bytes()) != Some(b'{') {
        return Ok(None);
    }
    match format_of_line(alloc, rest.as_bytes())? {
        Some(format) if has_prefixes(format) => Ok(Some(format)),
        _ => Ok(None),
    }
}

// Returns whether the lines of a format may have prefixes.
fn has_prefixes(format: Format) -> bool {
    matches!(format, Format::GoTest | Format::Tracing | Format::Logs)
}

fn without_line_end(line: &[u8]) -> &[u8] {
    match line {
        [front @ .., b'\n'] => front,
        _ => line,
    }
}

// Returns whether these bytes are blanks and line ends.
fn is_blank(bytes: &[u8]) -> bool {
    bytes.iter().all(|byte| *byte == b' ' || *byte == b'\t' || *byte == b'\r' || *byte == b'\n')
}

// Returns whether gzip compressed these bytes (RFC 1952).
pub fn is_gzip(bytes: &[u8]) -> bool {
    matches!(bytes, [0x1f, 0x8b, ..])
}

// Returns the string of these bytes, without an unfinished character at their end. A line end
// there, which the first line gets, doesn't count.
pub fn whole_characters(bytes: &[u8]) -> Option<&str>
    ensures { option_map (λ t. t.now) result ≡ whole_characters bytes.now }
{
    match bytes {
        [front @ .., b'\n'] => whole_text(front),
        _ => whole_text(bytes),
    }
}

#[tactic(auto, using(crate::proofs::Utf8::is_text, crate::proofs::Utf8::is_no_text))]
fn whole_text(bytes: &[u8]) -> Option<&str>
    ensures { option_map (λ t. t.now) result ≡ whole_text bytes.now }
{
    match from_utf8(bytes) {
        Ok(text) => Some(text),
        Err(error) if error.error_len().is_none() => from_utf8(&bytes[..error.valid_up_to()]).ok(),
        Err(_) => None,
    }
}
