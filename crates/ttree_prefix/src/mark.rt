//! What the prefix of a line is, and its end.

ghost use Rattle.std.specs.Prelude.{◌≡◌, get_or, option_map};
ghost use Rattle.ttree_source.specs.Traces.{is_digit};
ghost use Rattle.ttree_prefix.specs.Blank.{after_blank, without_blank};
ghost use Rattle.ttree_prefix.specs.Streams.{names_stream};
ghost use Rattle.ttree_prefix.specs.Mark.{after_name, are_names, at_mark, begins_with_digit, begins_with_name, ends_here, is_name, is_of_name, is_prefix, is_second_name, is_stamp, left_after, mark_text, part_separator, place_after, prefix_end, separators, split, trimmed, without_bracket};

use crate::color::uncolored;
use ttree_source::marks::after_mark;
use ttree_source::traces::begins_trace;

// How long a month, a day and a time are, and where the first colon of the time is.
const STAMP: usize = 15;

const COLON: usize = 9;

/// What the prefix of a line is, by the tools that write it.
#[derive(Clone, Copy, Debug, PartialEq, Eq)]
pub enum Mark {
    /// What comes before the first `|`: `docker compose logs`.
    Bar,

    /// What comes before the first `]`: `kubectl logs --prefix`.
    Bracket,

    /// A job, a step and a time, up to the first space after the second tab:
    /// `gh run view --log`. The time ends with a `Z`.
    Job,

    /// A time, up to the first space: `kubectl logs --timestamps`. The line begins with a digit.
    Time,

    /// A name before the first tab.
    Tab,

    /// A name before the first `: `: syslog, `journalctl`, heroku, pnpm, turbo. A line that starts
    /// a panic or a stack trace has no such name.
    Colon,

    /// A date and a time, up to the second space: Go's package `log`. The line begins with a
    /// digit.
    DateTime,

    /// The names of a pod and a container, up to the second space: `stern`.
    Pod,

    /// A month, a day and a time, up to the third space: `ts`.
    Stamp,
}

impl Mark {
    /// Returns the string that a prefix ends at.
    pub fn as_str(self) -> &'static str
        ensures { result.now ≡ mark_text self }
    {
        match self {
            Mark::Bar => "|",
            Mark::Bracket => "]",
            Mark::Tab => "\t",
            Mark::Colon => ": ",
            Mark::Job | Mark::Time | Mark::DateTime | Mark::Pod | Mark::Stamp => " ",
        }
    }

    /// Returns the prefix of a line, and what comes after it. The prefix has no blanks at its end,
    /// and what comes after keeps its indentation. A prefix in brackets is returned without them,
    /// and a prefix in a colour without the colour. None if the line has no such prefix.
    pub fn split<'a>(self, line: &'a str) -> Option<(&'a str, &'a str)>
        ensures { option_map (λ parts. (parts.0.now, parts.1.now)) result ≡ split self line.now }
    {
        let (prefix, rest) = self.at_mark(line)?;
        let (prefix, rest) = uncolored(self, prefix, rest);
        if self.is_prefix(line, prefix) {
            Some((self.trimmed(prefix), rest))
        } else {
            None
        }
    }

    // Returns whether a prefix names a stream of lines. Another one may have a time.
    pub(crate) fn names_stream(self) -> bool
        ensures { result ≡ names_stream self }
    {
        match self {
            Mark::Bar | Mark::Bracket | Mark::Tab | Mark::Pod => true,
            Mark::Job | Mark::Time | Mark::Colon | Mark::DateTime | Mark::Stamp => false,
        }
    }

    // Returns a line at its mark: what comes before it and after it.
    fn at_mark<'a>(self, line: &'a str) -> Option<(&'a str, &'a str)>
        ensures { option_map (λ parts. (parts.0.now, parts.1.now)) result ≡ at_mark self line.now }
    {
        let place = self.place_of(line.as_bytes())?;
        let (prefix, rest) = line.split_at(place);
        match after_mark(rest, self.as_str()) {
            Some(rest) => Some((prefix, rest)),
            None => None,
        }
    }

    // Returns the place where a prefix ends.
    fn place_of(self, line: &[u8]) -> Option<usize>
        ensures { result ≡ prefix_end self line.now }
    {
        place_after(
            self.separator(),
            self.separators(),
            self.as_str().as_bytes(),
            line,
        )
    }

    // Returns what is between the parts of a prefix.
    fn separator(self) -> u8
        ensures { result ≡ part_separator self }
    {
        match self {
            Mark::Job => b'\t',
            _ => b' ',
        }
    }

    // Returns how many separators come before the last part of a prefix.
    fn separators(self) -> usize
        ensures { result ≡ separators self }
    {
        match self {
            Mark::Bar | Mark::Bracket | Mark::Time | Mark::Tab | Mark::Colon => 0,
            Mark::DateTime | Mark::Pod => 1,
            Mark::Job | Mark::Stamp => 2,
        }
    }

    // Returns whether what comes before the mark of a line is a prefix.
    fn is_prefix(self, line: &str, prefix: &str) -> bool
        ensures { result ≡ is_prefix self line.now prefix.now }
    {
        match self {
            Mark::Bar | Mark::Bracket => true,
            Mark::Job => prefix.as_bytes().ends_with("Z".as_bytes()),
            Mark::Time | Mark::DateTime => begins_with_digit(line.as_bytes()),
            Mark::Tab => is_name(prefix.as_bytes()),
            Mark::Colon => is_name(prefix.as_bytes()) && !begins_trace(line),
            Mark::Pod => are_names(prefix.as_bytes()),
            Mark::Stamp => is_stamp(prefix.as_bytes()),
        }
    }

    // Returns what comes after a mark, without the blank that the tools write after a bar and a
    // bracket. Further blanks are the indentation of a line.
    pub(crate) fn without_blank(self, rest: &str) -> &str
        ensures { result.now ≡ without_blank self rest.now }
    {
        match self {
            Mark::Bar | Mark::Bracket => after_blank(rest),
            _ => rest,
        }
    }

    // Returns a prefix without the blanks at its end, or without the bracket at its front.
    fn trimmed<'a>(self, prefix: &'a str) -> &'a str
        ensures { result.now ≡ trimmed self prefix.now }
    {
        match self {
            Mark::Bracket => without_bracket(prefix),
            _ => prefix.trim_end(),
        }
    }
}

// Returns the place of the first such end after this many separators.
#[tactic(auto, using(crate::proofs::Places::passed))]
fn place_after(separator: u8, separators: usize, end: &[u8], line: &[u8]) -> Option<usize>
    ensures { result ≡ place_after separator separators end.now line.now }
{
    let mut left = separators;
    let mut rest = line;
    let mut place = 0;
    while let [byte, others @ ..] = rest {
        if ends_here(left, end, rest) {
            return Some(place);
        }
        left = left_after(separator, left, *byte);
        rest = others;
        place += 1;
    }
    None
}

fn ends_here(left: usize, end: &[u8], line: &[u8]) -> bool
    ensures { result ≡ ends_here left end.now line.now }
{
    left == 0 && line.starts_with(end)
}

// Returns how many separators are left after this byte.
fn left_after(separator: u8, left: usize, byte: u8) -> usize
    ensures { result ≡ left_after separator left byte }
{
    if byte == separator {
        left.saturating_sub(1)
    } else {
        left
    }
}

fn after_blank(rest: &str) -> &str
    ensures { result.now ≡ after_blank rest.now }
{
    match after_mark(rest, " ") {
        Some(after) => after,
        None => rest,
    }
}

fn without_bracket(prefix: &str) -> &str
    ensures { result.now ≡ without_bracket prefix.now }
{
    match after_mark(prefix, "[") {
        Some(rest) => rest,
        None => prefix,
    }
}

fn begins_with_digit(text: &[u8]) -> bool
    ensures { result ≡ begins_with_digit text.now }
{
    match text {
        [first, ..] => is_digit(*first),
        [] => false,
    }
}

fn is_digit(byte: u8) -> bool
    ensures { result ≡ is_digit byte }
{
    matches!(byte, b'0'..=b'9')
}

// Returns whether a name is there: it begins with a character other than a blank or a tab.
fn is_name(text: &[u8]) -> bool
    ensures { result ≡ is_name text.now }
{
    match text {
        [first, ..] => *first > b' ',
        [] => false,
    }
}

// Returns whether this is a month, a day and a time, such as `Dec 01 04:18:04`.
fn is_stamp(text: &[u8]) -> bool
    ensures { result ≡ is_stamp text.now }
{
    match text {
        [first, ..] => {
            text.len() == STAMP && matches!(*first, b'A'..=b'Z') && text[COLON] == b':'
        }
        [] => false,
    }
}

// Returns whether this is the name of a pod, a space and the name of a container.
fn are_names(text: &[u8]) -> bool
    ensures { result ≡ are_names text.now }
{
    begins_with_name(text) && is_second_name(after_name(text))
}

// Returns whether this is a space and a name.
fn is_second_name(text: &[u8]) -> bool
    ensures { result ≡ is_second_name text.now }
{
    match text {
        [b' ', rest @ ..] => begins_with_name(rest) && after_name(rest).is_empty(),
        _ => false,
    }
}

fn begins_with_name(text: &[u8]) -> bool
    ensures { result ≡ begins_with_name text.now }
{
    match text {
        [first, ..] => is_of_name(*first),
        [] => false,
    }
}

// Returns what comes after the name at the start.
fn after_name(text: &[u8]) -> &[u8]
    ensures { result.now ≡ after_name text.now }
{
    let mut rest = text;
    while let [byte, others @ ..] = rest {
        if !is_of_name(*byte) {
            break;
        }
        rest = others;
    }
    rest
}

// Returns whether a byte may be part of a name of Kubernetes.
fn is_of_name(byte: u8) -> bool
    ensures { result ≡ is_of_name byte }
{
    matches!(byte, b'0'..=b'9' | b'a'..=b'z' | b'-' | b'.')
}
