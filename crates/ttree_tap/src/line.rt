//! What a line of TAP is.

ghost use Rattle.std.specs.Prelude.{◌≡◌, ◌<◌, option_map};
ghost use Rattle.ttree_source.specs.Marks.{after_mark, begins};
ghost use Rattle.ttree_tap.specs.Line.{after_dots, begins_inside, begins_note, begins_summary, bracketed, comment_of, described, directive_of, elapsed_of, elapsed_word, ends_summary, has_hash, is_bad_verdict, is_braced, is_clock, is_count, is_failed_summary, counts_failures, is_file, is_frame, is_good_verdict, is_named, is_named_file, is_note, is_pair, is_plan, is_result, is_reporters, is_said, is_skip, is_spaced_note, is_stamp, is_success, is_unit, kind_of_line, kind_of_comment, label_part, name_of_file, note_place, first_number, plan_reason, planned, reason_of, space_note_place, tail_from, tail_of, tail_of_file, timer_of, unbraced, unstamped, verdict_level, verdict_time, without_colon, word_in};

use crate::length::milliseconds;
use crate::strings::{
    after_word, before_mark, begins, dashless, first_word, is_digits, rest_after, same_word,
    whole_of, without_end, without_leading,
};
use tracing_tree_base::style::Level;
use ttree_source::marks::after_mark;

// The kinds of lines, apart from those of a block and those that only prove prints.
#[derive(Clone, Copy)]
pub(crate) enum Kind {
    // `ok`
    Passing,
    // `not ok`
    Failing,
    // `1..5`
    Plan,
    // `Bail out!`
    BailOut,
    // `# Subtest: name`
    Heading,
    // `# text`
    Comment,
    // A version, or a pragma.
    Frame,
    // `}`
    Brace,
    // What a test printed.
    Output,
}

// Returns the kind of a line, by what follows its indentation.
#[tactic(auto, unfolding(crate::specs::Line::kind_of_line))]
pub(crate) fn kind_of(text: &str) -> Kind
    ensures { result ≡ kind_of_line text.now }
{
    if is_result("ok", text) {
        Kind::Passing
    } else if is_result("not ok", text) {
        Kind::Failing
    } else if begins("#", text) {
        kind_of_comment(text)
    } else if is_plan(text) {
        Kind::Plan
    } else if begins("Bail out!", text) {
        Kind::BailOut
    } else if is_frame(text) {
        Kind::Frame
    } else if text == "}" {
        Kind::Brace
    } else {
        Kind::Output
    }
}

fn is_result(mark: &str, text: &str) -> bool
    ensures { result ≡ is_result mark.now text.now }
{
    match after_mark(text, mark) {
        Some(rest) => rest.is_empty() || begins(" ", rest),
        None => false,
    }
}

fn kind_of_comment(text: &str) -> Kind
    ensures { result ≡ kind_of_comment text.now }
{
    if begins("# Subtest: ", text) {
        Kind::Heading
    } else {
        Kind::Comment
    }
}

fn is_frame(text: &str) -> bool
    ensures { result ≡ is_frame text.now }
{
    begins("TAP version ", text) || begins("KTAP version ", text) || begins("pragma ", text)
}

// Returns whether a string is empty, or a comment.
fn begins_note(text: &str) -> bool
    ensures { result ≡ begins_note text.now }
{
    text.is_empty() || begins("#", text)
}

fn is_plan(text: &str) -> bool
    ensures { result ≡ is_plan text.now }
{
    match after_mark(text, "1..") {
        Some(rest) => whole_of(first_word(rest)).is_some() && begins_note(after_word(rest)),
        None => false,
    }
}

// Returns how many tests a plan has.
pub(crate) fn planned(text: &str) -> u64
    ensures { result ≡ planned text.now }
{
    match whole_of(first_word(rest_after("1..", text))) {
        Some(count) => count,
        None => 0,
    }
}

// Returns why a plan without tests skips everything.
pub(crate) fn plan_reason(text: &str) -> &str
    ensures { result.now ≡ plan_reason text.now }
{
    let note = tail_from(after_word(rest_after("1..", text)));
    if is_skip(word_in(note)) {
        after_word(note)
    } else {
        note
    }
}

// Returns what a comment says.
pub(crate) fn comment_of(text: &str) -> &str
    ensures { result.now ≡ comment_of text.now }
{
    let rest = rest_after("#", text);
    match after_mark(rest, " ") {
        Some(comment) => comment,
        None => rest,
    }
}

// Returns whether a comment is a count of a reporter's summary, as `tests 14`.
pub(crate) fn is_count(comment: &str) -> bool
    ensures { result ≡ is_count comment.now }
{
    is_reporters(first_word(comment)) && milliseconds(after_word(comment)).is_some()
}

fn is_reporters(word: &str) -> bool
    ensures { result ≡ is_reporters word.now }
{
    word == "tests"
        || word == "suites"
        || word == "pass"
        || word == "fail"
        || word == "cancelled"
        || word == "skipped"
        || word == "skip"
        || word == "todo"
        || word == "duration_ms"
}

// ---- results

// Returns the number of a result, by what follows `ok`.
pub(crate) fn number_of(rest: &str) -> Option<u64>
    ensures { result ≡ first_number rest.now }
{
    whole_of(first_word(without_leading(' ', rest)))
}

// Returns what follows the number and the dash of a result.
pub(crate) fn described(rest: &str) -> &str
    ensures { result.now ≡ described rest.now }
{
    let text = without_leading(' ', rest);
    if number_of(rest).is_some() {
        dashless(after_word(text))
    } else {
        dashless(text)
    }
}

// Returns the index of the first `#` at the start or after a space, with that space, after which a
// directive comes. If there isn't one, returns the length.
#[tactic(auto, using(crate::proofs::Places::no_note))]
fn note_place(text: &str) -> usize
    ensures value { result ≡ note_place text.now }
{
    if !has_hash(text) {
        return text.len();
    }
    if is_note(text) {
        return 0;
    }
    space_note_place(text)
}

fn has_hash(text: &str) -> bool
    ensures { result ≡ has_hash text.now }
{
    text.as_bytes().contains(&b'#')
}

fn is_note(text: &str) -> bool
    ensures { result ≡ is_note text.now }
{
    begins("#", text) && is_said(directive_of(tail_from(text)))
}

fn space_note_place(text: &str) -> usize
    ensures value { result ≡ space_note_place text.now }
{
    let mut rest = text.as_bytes();
    let mut place = 0;
    while let [byte, others @ ..] = rest {
        if *byte == b' ' && is_spaced_note(text.split_at(place).1) {
            return place;
        }
        rest = others;
        place += 1;
    }
    place
}

fn is_spaced_note(text: &str) -> bool
    ensures { result ≡ is_spaced_note text.now }
{
    begins(" #", text) && is_said(directive_of(tail_from(text)))
}

// A description in two parts.
#[derive(Clone, Copy)]
pub(crate) struct Description<'a> {
    // What comes before the note, or all of it.
    pub(crate) label: &'a str,
    // The note without its `#`, or nothing.
    pub(crate) tail: &'a str,
}

// Returns the parts of a description.
pub(crate) fn parts_of(text: &str) -> Description<'_>
    ensures label { result.label.now ≡ label_part text.now }
    ensures tail { result.tail.now ≡ tail_of text.now }
{
    let (label, note) = text.split_at(note_place(text));
    Description {
        label,
        tail: tail_from(note),
    }
}

// Returns what comes after a `#` and spaces.
fn tail_from(note: &str) -> &str
    ensures { result.now ≡ tail_from note.now }
{
    without_leading(' ', rest_after("#", without_leading(' ', note)))
}

// What the note of a result says of it.
#[derive(Clone, Copy)]
pub(crate) enum Directive {
    Absent,
    Skip,
    Todo,
    Time,
}

fn is_said(directive: Directive) -> bool
    ensures { result ≡ is_said directive }
{
    !matches!(directive, Directive::Absent)
}

// Returns what a note says, given what comes after its `#`.
#[tactic(auto, unfolding(crate::specs::Line::directive_of), using(crate::proofs::Places::no_directive))]
pub(crate) fn directive_of(tail: &str) -> Directive
    ensures { result ≡ directive_of tail.now }
{
    if tail.is_empty() {
        return Directive::Absent;
    }
    if is_skip(word_in(tail)) {
        Directive::Skip
    } else if same_word(word_in(tail), "todo") {
        Directive::Todo
    } else if elapsed_of(tail).is_some() {
        Directive::Time
    } else {
        Directive::Absent
    }
}

fn is_skip(word: &str) -> bool
    ensures { result ≡ is_skip word.now }
{
    same_word(word, "skip") || same_word(word, "skipped")
}

// Returns the first word, without a colon at its end.
fn word_in(text: &str) -> &str
    ensures { result.now ≡ word_in text.now }
{
    without_colon(first_word(text))
}

fn without_colon(word: &str) -> &str
    ensures { result.now ≡ without_colon word.now }
{
    match before_mark(":", word) {
        Some(bare) => bare,
        None => word,
    }
}

// Returns why a test is skipped or to be done.
pub(crate) fn reason_of(tail: &str) -> &str
    ensures { result.now ≡ reason_of tail.now }
{
    after_word(tail)
}

// Returns the nanoseconds that a note gives, if it says nothing else.
pub(crate) fn elapsed_of(tail: &str) -> Option<u64>
    ensures { result ≡ elapsed_of tail.now }
{
    if after_word(tail).is_empty() {
        elapsed_word(first_word(tail))
    } else {
        None
    }
}

// Returns the nanoseconds of `time=12ms`.
fn elapsed_word(word: &str) -> Option<u64>
    ensures { result ≡ elapsed_word word.now }
{
    milliseconds(before_mark("ms", after_mark(word, "time=")?)?)
}

// Returns whether a result has a brace at its end, which may open a subtest.
pub(crate) fn is_braced(rest: &str) -> bool
    ensures { result ≡ is_braced rest.now }
{
    before_mark(" {", rest).is_some()
}

// Returns a result without the brace at its end.
pub(crate) fn unbraced(rest: &str) -> &str
    ensures { result.now ≡ unbraced rest.now }
{
    without_end(" {", rest)
}

// Returns whether a line of this kind may be the first in braces.
pub(crate) fn begins_inside(kind: Kind) -> bool
    ensures { result ≡ begins_inside kind }
{
    !matches!(kind, Kind::Brace | Kind::Output)
}

// ---- what prove prints

// Returns whether a line names a file, as `t/basic.t ... ` does; a verdict may follow, and a time
// of day may come before.
pub(crate) fn is_file(line: &str) -> bool
    ensures { result ≡ is_file line.now }
{
    is_named_file(unstamped(line))
}

// Returns the name of a file.
pub(crate) fn name_of_file(line: &str) -> &str
    ensures { result.now ≡ name_of_file line.now }
{
    first_word(unstamped(line))
}

// Returns a line without the time of day before it.
fn unstamped(line: &str) -> &str
    ensures { result.now ≡ unstamped line.now }
{
    if is_stamp(first_word(line)) {
        after_word(line)
    } else {
        line
    }
}

// Returns whether a word is when prove says something, as `[12:00:01]`.
pub(crate) fn is_stamp(word: &str) -> bool
    ensures { result ≡ is_stamp word.now }
{
    match bracketed(word) {
        Some(time) => is_clock(time),
        None => false,
    }
}

fn bracketed(word: &str) -> Option<&str>
    ensures { option_map (λ s. s.now) result ≡ bracketed word.now }
{
    before_mark("]", after_mark(word, "[")?)
}

fn is_clock(word: &str) -> bool
    ensures { result ≡ is_clock word.now }
{
    match word.split_once(':') {
        Some((hours, rest)) => is_digits(hours) && is_pair(':', rest),
        None => false,
    }
}

// Returns whether a word consists of digits, a mark and digits.
fn is_pair(mark: char, word: &str) -> bool
    requires { mark < 128 }
    ensures { result ≡ is_pair mark word.now }
{
    match word.split_once(mark) {
        Some((first, second)) => is_digits(first) && is_digits(second),
        None => false,
    }
}

fn is_named_file(line: &str) -> bool
    ensures { result ≡ is_named_file line.now }
{
    match line.split_once(' ') {
        Some((_, rest)) => begins("..", rest) && is_named(after_dots(rest)),
        None => false,
    }
}

// Returns what follows the dots behind a file's name.
fn after_dots(text: &str) -> &str
    ensures { result.now ≡ after_dots text.now }
{
    without_leading('.', text)
}

fn is_named(rest: &str) -> bool
    ensures { result ≡ is_named rest.now }
{
    match after_mark(rest, " ") {
        Some(verdict) => verdict.is_empty() || verdict_level(verdict).is_some(),
        None => false,
    }
}

// Returns what follows the name of a file and the dots.
pub(crate) fn tail_of_file(line: &str) -> &str
    ensures { result.now ≡ tail_of_file line.now }
{
    rest_after(" ", after_dots(after_word(unstamped(line))))
}

// Returns the level of a verdict on a file.
#[tactic(auto, unfolding(crate::specs::Line::verdict_level))]
pub(crate) fn verdict_level(line: &str) -> Option<Level>
    ensures { result ≡ verdict_level line.now }
{
    if is_good_verdict(line) {
        Some(Level::Info)
    } else if begins("skipped: ", line) {
        Some(Level::Warn)
    } else if is_bad_verdict(line) {
        Some(Level::Error)
    } else {
        None
    }
}

fn is_good_verdict(line: &str) -> bool
    ensures { result ≡ is_good_verdict line.now }
{
    line == "ok" || verdict_time(line).is_some()
}

// Returns how long a file took in nanoseconds, by a verdict such as `ok 12 ms`.
pub(crate) fn verdict_time(line: &str) -> Option<u64>
    ensures { result ≡ verdict_time line.now }
{
    timer_of(without_leading(' ', after_mark(line, "ok ")?))
}

fn timer_of(text: &str) -> Option<u64>
    ensures { result ≡ timer_of text.now }
{
    if is_unit(after_word(text)) {
        milliseconds(first_word(text))
    } else {
        None
    }
}

fn is_unit(text: &str) -> bool
    ensures { result ≡ is_unit text.now }
{
    text == "ms" || begins("ms (", text)
}

fn is_bad_verdict(line: &str) -> bool
    ensures { result ≡ is_bad_verdict line.now }
{
    begins("Dubious, test returned ", line)
        || begins("No subtests run", line)
        || is_failure(line)
        || is_success(line)
}

// Returns whether a line counts the tests that failed, as `Failed 2/5 subtests`.
fn is_failure(line: &str) -> bool
    ensures { result ≡ counts_failures line.now }
{
    match after_mark(line, "Failed ") {
        Some(rest) => is_pair('/', first_word(rest)),
        None => false,
    }
}

// Returns whether a line counts tests without a failure, as `All 2 subtests passed`. prove says
// this of a file that failed for another reason.
fn is_success(line: &str) -> bool
    ensures { result ≡ is_success line.now }
{
    match after_mark(line, "All ") {
        Some(rest) => is_digits(first_word(rest)) && begins("subtests passed", after_word(rest)),
        None => false,
    }
}

// Returns whether prove's summary begins.
pub(crate) fn begins_summary(line: &str) -> bool
    ensures { result ≡ begins_summary line.now }
{
    line == "All tests successful." || line == "Test Summary Report" || begins("Files=", line)
}

// Returns whether prove's summary ends with this line.
pub(crate) fn ends_summary(line: &str) -> bool
    ensures { result ≡ ends_summary line.now }
{
    begins("Result: ", line)
}

// Returns whether prove's summary says that a file failed.
pub(crate) fn is_failed_summary(line: &str) -> bool
    ensures { result ≡ is_failed_summary line.now }
{
    begins("Result: FAIL", line)
}
