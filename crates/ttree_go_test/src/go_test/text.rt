//! Names of Go's tests, lines that are only frames, and lines about a package's end.

ghost use Rattle.std.specs.Prelude.{◌≡◌, ◌||◌, option_map};
ghost use Rattle.ttree_go_test.specs.Texts.{after_path, after_tab, coverage_in, coverage_of, ends_line, ends_word, frames, is_cached, is_end_frame, is_frame, is_frame_line, is_name_frame, is_package_frame, is_progress, is_step_frame, is_summary, is_test_frame, own_name, percent, up_to_space, without_line_end, without_spaces};

use ttree_source::marks::after_mark;

// Returns whether the rest is empty or starts with this byte.
pub(super) fn ends_word(byte: u8, rest: &[u8]) -> bool
    ensures { result ≡ ends_word byte rest.now }
{
    match rest {
        [] => true,
        [first, ..] => *first == byte,
    }
}

// Returns the part before the first space.
pub(super) fn up_to_space(text: &str) -> &str
    ensures { result.now ≡ up_to_space text.now }
{
    match text.split_once(' ') {
        Some((front, _)) => front,
        None => text,
    }
}

// Returns the name of a test as shown in the span of this parent test.
pub(super) fn own_name<'t>(outer: &str, test: &'t str) -> &'t str
    ensures { result.now ≡ own_name outer.now test.now }
{
    if outer.is_empty() {
        return test;
    }
    let Some(rest) = after_mark(test, outer) else {
        return test;
    };
    match after_mark(rest, "/") {
        Some(own) => own,
        None => test,
    }
}

// Returns whether a line is a message of the command `go` about what it fetches.
pub(super) fn is_progress(line: &[u8]) -> bool
    ensures { result ≡ is_progress line.now }
{
    line.starts_with("go: downloading ".as_bytes())
        || line.starts_with("go: finding ".as_bytes())
        || line.starts_with("go: extracting ".as_bytes())
}

pub(super) fn ends_line(bytes: &[u8]) -> bool
    ensures { result ≡ ends_line bytes.now }
{
    bytes.ends_with("\n".as_bytes())
}

pub(super) fn without_line_end(text: &str) -> &str
    ensures { result.now ≡ without_line_end text.now }
{
    match text.strip_suffix("\n") {
        Some(line) => line,
        None => text,
    }
}

// Returns whether a string is a whole line that is only a frame of this test's output, or of a
// package's.
pub(super) fn is_frame_line(test: &str, text: &str) -> bool
    ensures { result ≡ is_frame_line test.now text.now }
{
    ends_line(text.as_bytes()) && is_frame(test, without_line_end(text))
}

// Returns whether a line is only a frame of this test's output, or of a package's.
pub(super) fn is_frame(test: &str, line: &str) -> bool
    ensures { result ≡ is_frame test.now line.now }
{
    if test.is_empty() {
        return is_summary(line);
    }
    is_test_frame(test.as_bytes(), without_spaces(line.as_bytes()))
}

// Returns whether a line is only a frame of this test's output.
fn is_test_frame(test: &[u8], line: &[u8]) -> bool
    ensures { result ≡ is_test_frame test.now line.now }
{
    is_marked_frame(test, line) || is_name_frame(test, line)
}

// Returns whether a line has a mark and the test's name. Most lines begin with another byte than
// the marks.
#[tactic(auto, using(crate::proofs::Frames::step_marked, crate::proofs::Frames::end_marked, crate::proofs::Frames::unmarked))]
fn is_marked_frame(test: &[u8], line: &[u8]) -> bool
    ensures { result ≡ (is_step_frame test.now line.now || is_end_frame test.now line.now) }
{
    match line {
        [b'=', ..] => is_step_frame(test, line),
        [b'-', ..] => is_end_frame(test, line),
        _ => false,
    }
}

// Returns whether a line says that the test starts, waits or continues, or what belongs to it.
fn is_step_frame(test: &[u8], line: &[u8]) -> bool
    ensures { result ≡ is_step_frame test.now line.now }
{
    frames(line, "=== RUN   ", test)
        || frames(line, "=== PAUSE ", test)
        || frames(line, "=== CONT  ", test)
        || frames(line, "=== NAME  ", test)
        || frames(line, "=== ATTR  ", test)
        || frames(line, "=== ARTIFACTS ", test)
}

// Returns whether a line says how the test ended.
fn is_end_frame(test: &[u8], line: &[u8]) -> bool
    ensures { result ≡ is_end_frame test.now line.now }
{
    frames(line, "--- PASS: ", test)
        || frames(line, "--- FAIL: ", test)
        || frames(line, "--- SKIP: ", test)
        || frames(line, "--- BENCH: ", test)
}

// Returns whether a line is only a benchmark's name.
fn is_name_frame(test: &[u8], line: &[u8]) -> bool
    ensures { result ≡ is_name_frame test.now line.now }
{
    test.starts_with("Benchmark".as_bytes()) && line == test
}

// Removes the spaces at the start.
fn without_spaces(line: &[u8]) -> &[u8]
    ensures { result.now ≡ without_spaces line.now }
{
    let mut rest = line;
    while let [b' ', more @ ..] = rest {
        rest = more;
    }
    rest
}

// Returns whether the line is this mark and the test's name, with nothing or a space after it.
fn frames(line: &[u8], mark: &str, test: &[u8]) -> bool
    ensures { result ≡ frames line.now test.now mark.now }
{
    if !line.starts_with(mark.as_bytes()) {
        return false;
    }
    let rest = &line[mark.len()..];
    rest.starts_with(test) && ends_word(b' ', &rest[test.len()..])
}

pub(super) fn is_package_frame(line: &[u8]) -> bool
    ensures { result ≡ is_package_frame line.now }
{
    line == "PASS".as_bytes()
        || line == "FAIL".as_bytes()
        || line.starts_with("ok  \t".as_bytes())
        || line.starts_with("FAIL\t".as_bytes())
        || line.starts_with("?   \t".as_bytes())
}

// Returns whether a line of a package is only a frame, or has its coverage.
fn is_summary(line: &str) -> bool
    ensures { result ≡ is_summary line.now }
{
    is_package_frame(line.as_bytes()) || coverage_in(line).is_some()
}

// Returns the part after the first tab.
fn after_tab(text: &str) -> &str
    ensures { result.now ≡ after_tab text.now }
{
    match text.split_once('\t') {
        Some((_, rest)) => rest,
        None => "",
    }
}

// Returns the part after a package's status and path.
fn after_path(line: &str) -> &str
    ensures { result.now ≡ after_path line.now }
{
    after_tab(after_tab(line))
}

// Returns whether the result of a package is from an earlier run.
pub(super) fn is_cached(line: &str) -> bool
    ensures { result ≡ is_cached line.now }
{
    after_path(line).starts_with("(cached)")
}

// Returns the percentage in a line that has only the coverage, or has it after a package's time.
#[tactic(auto, unfolding(crate::specs::Texts::coverage_in))]
pub(super) fn coverage_in(line: &str) -> Option<&str>
    ensures { option_map (λ s. s.now) result ≡ coverage_in line.now }
{
    match coverage_of(line) {
        Some(word) => Some(word),
        None => coverage_of(after_tab(after_path(line))),
    }
}

fn coverage_of(text: &str) -> Option<&str>
    ensures { option_map (λ s. s.now) result ≡ coverage_of text.now }
{
    percent(after_mark(text, "coverage: ")?)
}

// Returns the word before the first space, if it is a percentage.
fn percent(text: &str) -> Option<&str>
    ensures { option_map (λ s. s.now) result ≡ percent text.now }
{
    let word = up_to_space(text);
    if word.as_bytes().ends_with("%".as_bytes()) {
        Some(word)
    } else {
        None
    }
}
