//! Running tests and their packages.

ghost use Rattle.std.specs.Prelude.{◌≡◌, ◌++◌, [], false, IfOk, OnOk, ◌||◌, length, ◌≤◌, option_map};
ghost use Rattle.ttree_go_test.specs.GoTest.{end_noted, fails_as, if_has_span, is_framing, kind_named, name_at_first, new_running, outer_span, outer_within, owner, placed_in, shown_at, shown_name, span_of_test, test_placed, whole_name};

use super::text::{coverage_in, ends_word, is_cached, is_frame_line, own_name};
use crate::names::Named;
use std::alloc::{AllocError, Global};
use std::mem;
use tracing_tree_base::Id;
use tracing_tree_base::text::Text;

// A running test, or a running package, whose test name is empty.
#[derive(Drop)]
pub(super) struct Running {
    pub(super) path: Text,
    pub(super) test: Text,
    // The name shown in its span, or in the event of its end. In the span of a parent test it is
    // the rest after the parent's name.
    pub(super) name: Text,
    // The parent's span. It is looked up each time this value is taken out, since the parent may
    // have ended.
    pub(super) parent: Option<Id>,
    // Its span, once it has printed something.
    pub(super) span: Option<Id>,
    // The first part of a line whose end hasn't been printed yet.
    pub(super) part: Text,
    // Whether a string of that line is an error.
    pub(super) is_error: bool,
    // Whether it has started, and not only its build.
    pub(super) has_begun: bool,
    // Whether a package's result is from an earlier run.
    pub(super) is_cached: bool,
    // How much of a package was covered, as a percentage. Empty if unknown.
    pub(super) coverage: Text,
}

// The kind of a line's output.
#[derive(Clone, Copy)]
pub(super) enum Kind {
    Plain,
    // Only a frame.
    Frame,
    // An error of a test.
    Failure,
}

impl Kind {
    // Returns the kind for a value of `OutputType`.
    pub(super) fn named(word: &str) -> Kind
        ensures { result ≡ kind_named word.now }
    {
        if word == "frame" {
            Kind::Frame
        } else if word.as_bytes().starts_with("error".as_bytes()) {
            Kind::Failure
        } else {
            Kind::Plain
        }
    }

    pub(super) fn is_failure(self) -> bool
        ensures { result ≡ fails_as self }
    {
        matches!(self, Kind::Failure)
    }

    // Returns whether a string of this test, or of its package, is only a frame.
    pub(super) fn is_framing(self, test: &str, text: &str) -> bool
        ensures { result ≡ is_framing self test.now text.now }
    {
        match self {
            Kind::Frame => true,
            Kind::Plain | Kind::Failure => is_frame_line(test, text),
        }
    }
}

impl Running {
    // Starts a test, or a package, whose test name is empty.
    pub(super) fn begun(alloc: Global, path: &str, test: &str) -> Result<Running, AllocError>
        ensures { IfOk result (λ one. one ≡ new_running path.now test.now) }
    {
        let name = name_at_first(path, test);
        Ok(Running {
            path: Text::from_str(alloc, path)?,
            test: Text::from_str(alloc, test)?,
            name: Text::from_str(alloc, name)?,
            parent: None,
            span: None,
            part: Text::from_str(alloc, "")?,
            is_error: false,
            has_begun: !test.is_empty(),
            is_cached: false,
            coverage: Text::from_str(alloc, "")?,
        })
    }

    // Returns the whole name of a test, or the path of a package.
    fn whole_name(&self) -> &str
        ensures { result.now ≡ whole_name self.now }
    {
        if self.test.as_str().is_empty() {
            self.path.as_str()
        } else {
            self.test.as_str()
        }
    }

    // Returns the name that is shown in the span of this parent test, or in the package.
    fn shown_name(&self, outer: Option<&Running>) -> &str
        ensures { result.now ≡ shown_name (option_map (λ o. o.now) outer.entry) self.now }
    {
        match outer {
            Some(outer) => own_name(outer.test.as_str(), self.test.as_str()),
            None => self.whole_name(),
        }
    }

    // Looks up the parent's span among the others that are running in its package, which has
    // `package_span`.
    pub(super) fn place(
        &mut self,
        alloc: Global,
        package_span: Option<Id>,
        others: &Named<Running>,
    ) -> Result<(), AllocError>
        ensures { OnOk result (self.new ≡ test_placed package_span others.now self.old) }
    {
        let outer = outer_in(others, self.test.as_str().as_bytes());
        self.place_in(alloc, package_span, outer)
    }

    // Sets the parent's span: that of this test, or the package's.
    fn place_in(
        &mut self,
        alloc: Global,
        package_span: Option<Id>,
        outer: Option<&Running>,
    ) -> Result<(), AllocError>
        ensures { OnOk result (self.new
            ≡ placed_in package_span (option_map (λ o. o.now) outer.entry) self.old) }
    {
        self.parent = span_of(package_span, outer);
        if self.span.is_none() {
            self.name = Text::from_str(alloc, self.shown_name(outer))?;
        }
        Ok(())
    }

    // Takes out the part of a line that was printed, and resets its error flag.
    pub(super) fn take_part(&mut self, alloc: Global) -> Result<Text, AllocError>
        ensures part { IfOk result (λ part. part ≡ self.old.part) }
        ensures rest { OnOk result (self.new ≡ record self.old { part = []; is_error = false }) }
    {
        let empty = Text::from_str(alloc, "")?;
        self.is_error = false;
        Ok(mem::replace(&mut self.part, empty))
    }

    // Appends a string to the part of a line that was printed.
    pub(super) fn add_to_part(
        &mut self,
        alloc: Global,
        is_error: bool,
        text: &str,
    ) -> Result<(), AllocError>
        ensures { OnOk result (self.new ≡ record self.old {
          part = self.old.part ++ text.now;
          is_error = self.old.is_error || is_error;
        }) }
    {
        let mut line = String::from_str(alloc, self.part.as_str())?;
        line.push_str(text)?;
        self.part = Text::from(line);
        self.is_error = self.is_error || is_error;
        Ok(())
    }

    // Records what a line of a package says about its end.
    pub(super) fn note(&mut self, alloc: Global, line: &str) -> Result<(), AllocError>
        ensures { OnOk result (self.new ≡ end_noted line.now self.old) }
    {
        self.is_cached = self.is_cached || is_cached(line);
        if let Some(coverage) = coverage_in(line) {
            self.coverage = Text::from_str(alloc, coverage)?;
        }
        Ok(())
    }
}

// Returns the name that is shown until a parent span is known: the whole name of a test, or the
// path of a package.
fn name_at_first<'a>(path: &'a str, test: &'a str) -> &'a str
    ensures { result.now ≡ name_at_first path.now test.now }
{
    if test.is_empty() { path } else { test }
}

// Returns the span of the parent test, or the package's.
fn span_of(package_span: Option<Id>, outer: Option<&Running>) -> Option<Id>
    ensures { result ≡ outer_span package_span (option_map (λ o. o.now) outer.entry) }
{
    match outer {
        Some(outer) => outer.span,
        None => package_span,
    }
}

// Returns the longest prefix of a name, split at a `/`, that is running. Otherwise returns the
// empty name, which is the package's.
pub(super) fn owner<'t>(tests: &Named<Running>, test: &'t [u8]) -> &'t [u8]
    ensures { result.now ≡ owner tests.now test.now }
{
    let mut length = test.len();
    while length > 0 {
        if ends_word(b'/', &test[length..]) && tests.has(&test[..length]) {
            break;
        }
        length -= 1;
    }
    &test[..length]
}

// Returns the longest prefix of a name, split at a `/`, that is running and has a span.
fn outer_in<'t>(tests: &'t Named<Running>, test: &[u8]) -> Option<&'t Running>
    ensures { option_map (λ o. o.now) result ≡ outer_within tests.now test.now (length test.now) }
{
    let mut length = test.len();
    while length > 0 {
        if let Some(outer) = shown_at(tests, test, length) {
            return Some(outer);
        }
        length -= 1;
    }
    None
}

// Returns what is running under the first `size` bytes of a name, if they end at a `/` or at the
// end of the name and it has a span.
fn shown_at<'t>(tests: &'t Named<Running>, test: &[u8], size: usize) -> Option<&'t Running>
    requires { size ≤ length test.now }
    ensures { option_map (λ o. o.now) result ≡ shown_at tests.now test.now size }
{
    if !ends_word(b'/', &test[size..]) {
        return None;
    }
    with_span(tests.get(&test[..size]))
}

// Returns the value if it has a span.
fn with_span(one: Option<&Running>) -> Option<&Running>
    ensures { option_map (λ o. o.now) result ≡ if_has_span (option_map (λ o. o.now) one.entry) }
{
    match one {
        Some(one) if one.span.is_some() => Some(one),
        Some(_) | None => None,
    }
}

// Returns the span of this name, if it is running and has one.
pub(super) fn span_in(tests: &Named<Running>, name: &[u8]) -> Option<Id>
    ensures { result ≡ span_of_test tests.now name.now }
{
    tests.get(name)?.span
}
