//! Only the failed tests of `go test -json`.

ghost use Rattle.std.specs.Prelude.{◌≡◌, ◌++◌, ◌∷◌, ◌&&◌, ◌||◌, ℕ, List, [], not, IfOk, OnOk, option_map};
ghost use Rattle.std.specs.BTreeSet.{contains_text};
ghost use Rattle.json.specs.Value.{value_view};
ghost use Rattle.ttree_go_test.specs.GoTest.{any_failed, go_takes};
ghost use Rattle.ttree_go_test.specs.Failed.{Knows, all_released, forgotten, is_bad, is_good, is_inner, is_open, is_over, kept_in, kept_shown, line_kept, line_shown, failed_line_taken, none_failed, outermost, package_released, package_path, released, released_each, released_one, says, someone_says, emitted_of, tests_released, pending_of, value_taken, verdict_in, verdict_of, with_kept_line, with_pending, without_pending};
ghost use Rattle.ttree_go_test.specs.Names.{without};

use crate::go_test::{GoTest, package_of, test_of};
use crate::names::Named;
use json::{Scratch, Value};
use std::alloc::{AllocError, Global};
use std::collections::BTreeSet;
use std::marker::Model;
use std::mem;
use tracing_tree_base::text::Text;
use tracing_tree_layer::call::Call;
use tracing_tree_time::Moment;
use ttree_source::notes::Problem;
use ttree_source::source::Source;
use ttree_source::values::{text_at, value_of};

// What a line says about the end of its test or package.
#[derive(Clone, Copy)]
enum Verdict {
    Open,
    // It passed or was skipped.
    Good,
    // It failed, or its build did.
    Bad,
}

// A line that hasn't been reported yet.
#[derive(Drop)]
struct HeldLine {
    // Empty if the line is the package's.
    test: Text,
    // What the line says about the end of that test.
    verdict: Verdict,
    line: Text,
}

// Lines that haven't been reported yet, in their order.
#[derive(Drop)]
struct Lines {
    kept: Vec<HeldLine>,
}

impl Model for Lines {
    ghost use Rattle.std.specs.Prelude.{List};
    ghost use Rattle.ttree_go_test.specs.declared.failed.HeldLine.{HeldLine};

    ghost Value = { List HeldLine };

    ghost view = { λ l. l.kept.items };
}

impl Lines {
    fn new(alloc: Global) -> Lines
        ensures { result ≡ [] }
    {
        Lines {
            kept: Vec::new(alloc),
        }
    }

    fn push(&mut self, one: HeldLine) -> Result<(), AllocError>
        ensures { OnOk result (self.new ≡ self.old ++ one ∷ []) }
    {
        Ok(self.kept.push(one)?)
    }
}

/// A source that reports only the failed tests of `go test -json`. Tests that passed or were
/// skipped are left out, and so are packages without a failure.
///
/// A line is held until its top-level test ends, or its package. So the lines of a failed test are
/// reported together. If a part of a test or package was reported, the rest of it is reported too.
/// A line that isn't JSON is reported at once. The time for a line grows with the length of its
/// names, and hardly with the number of running tests.
#[derive(Drop)]
pub struct Failed {
    alloc: Global,
    // Takes every line.
    whole: GoTest,
    // Takes the lines that are reported.
    shown: GoTest,
    // The held lines, by the packages' paths, then by the names of the top-level tests. A package's
    // own lines have the empty name.
    packages: Named<Named<Lines>>,
}

impl Model for Failed {
    ghost use Rattle.ttree_go_test.specs.Failed.{FailedState};

    ghost Value = { FailedState };

    ghost view = { λ f. record {
      whole = f.whole;
      shown = f.shown;
      packages = f.packages;
    } };
}

impl Failed {
    /// Returns the state before the first line. The next span gets the id `next`, and calls are
    /// made at `moment` until a line has a time.
    ///
    /// # Errors
    ///
    /// `AllocError` if an allocation fails.
    pub fn new(alloc: Global, next: u64, moment: Moment) -> Result<Failed, AllocError>
        ensures { IfOk result (λ source. source ≡ none_failed next moment) }
    {
        Ok(Failed {
            alloc,
            whole: GoTest::new(alloc, next, moment)?,
            shown: GoTest::new(alloc, next, moment)?,
            packages: Named::new(alloc),
        })
    }

    /// Returns whether a test or a package has failed, or a package didn't end.
    pub fn has_failed(&self) -> bool
        ensures { result ≡ any_failed self.now.whole }
    {
        self.whole.has_failed()
    }

    // Returns the calls, and empties the list.
    fn emitted(&mut self) -> Vec<Call>
        ensures emitted { result.items ≡ self.old.shown.calls }
        ensures rest { self.new ≡ record self.old { shown = record self.old.shown { calls = [] } } }
    {
        self.shown.emitted()
    }

    // Counts a line. Returns whether it is known.
    fn knows(
        &mut self,
        alloc: Global,
        line: &str,
        value: Option<&Value<'_>>,
    ) -> Result<bool, AllocError>
        ensures { IfOk result (λ known. Knows
            (go_takes self.old.whole line.now (option_map (λ v. value_view v.now) value.entry))
            self.old self.new known) }
    {
        let emitted = self.whole.take(alloc, line, value)?;
        Ok(emitted.is_some())
    }

    // Takes a line that is known.
    fn take_line(&mut self, line: &str, value: Option<&Value<'_>>) -> Result<(), AllocError>
        ensures { OnOk result (self.new
            ≡ failed_line_taken line.now
            (option_map (λ v. value_view v.now) value.entry) self.old) }
    {
        match value {
            Some(value) => self.take_value(line, value),
            None => self.shown.take_text(line),
        }
    }

    // Holds a line. If it ends a top-level test or a package, reports or drops the held lines
    // instead.
    fn take_value(&mut self, line: &str, value: &Value<'_>) -> Result<(), AllocError>
        ensures { OnOk result (self.new ≡ value_taken line.now (value_view value.now) self.old) }
    {
        let path = path_of(value);
        let test = test_of(value);
        let verdict = verdict_in(value);
        if is_open(verdict) || is_inner(test) {
            return self.keep(path, test, verdict, line);
        }
        if is_good(verdict) && !self.shown.runs(path.as_bytes(), test.as_bytes()) {
            return self.forget(path, test);
        }
        self.emit(path, test)?;
        show(&mut self.shown, line, Some(value))
    }

    // Holds a line of this test.
    fn keep(
        &mut self,
        path: &str,
        test: &str,
        verdict: Verdict,
        line: &str,
    ) -> Result<(), AllocError>
        ensures { OnOk result (self.new ≡ line_kept path.now test.now verdict line.now self.old) }
    {
        let one = HeldLine {
            test: Text::from_str(self.alloc, test)?,
            verdict,
            line: Text::from_str(self.alloc, line)?,
        };
        let mut pending = self.take_pending(path)?;
        add_line(self.alloc, &mut pending, outermost(test), one)?;
        self.put_pending(path, pending)
    }

    // Drops the held lines of a top-level test, or of a package if the name is empty.
    fn forget(&mut self, path: &str, test: &str) -> Result<(), AllocError>
        ensures { OnOk result (self.new ≡ forgotten path.now test.now self.old) }
    {
        let mut pending = self.take_pending(path)?;
        if test.is_empty() {
            return Ok(());
        }
        drop(pending.take(test.as_bytes())?);
        self.put_pending(path, pending)
    }

    // Reports the held lines of a top-level test, or of a package if the name is empty.
    fn emit(&mut self, path: &str, test: &str) -> Result<(), AllocError>
        ensures { OnOk result (self.new ≡ emitted_of path.now test.now self.old) }
    {
        let mut pending = self.take_pending(path)?;
        if test.is_empty() {
            return release_package(&mut self.shown, self.alloc, path.as_bytes(), pending);
        }
        let lines = take_lines(self.alloc, &mut pending, test)?;
        self.put_pending(path, pending)?;
        release(&mut self.shown, self.alloc, path.as_bytes(), lines)
    }

    // Takes out the held lines of a package.
    fn take_pending(&mut self, path: &str) -> Result<Named<Lines>, AllocError>
        ensures pending { IfOk result (λ pending. pending ≡ pending_of path.now self.old) }
        ensures rest { OnOk result (self.new ≡ without_pending path.now self.old) }
    {
        let pending = self.packages.take(path.as_bytes())?;
        Ok(pending.unwrap_or(Named::new(self.alloc)))
    }

    // Puts back the held lines of a package.
    fn put_pending(&mut self, path: &str, pending: Named<Lines>) -> Result<(), AllocError>
        ensures { OnOk result (self.new ≡ with_pending path.now pending self.old) }
    {
        self.packages.put(self.alloc, path.as_bytes(), pending)
    }
}

impl Source for Failed {
    ghost use Rattle.ttree_go_test.specs.GoTest.{go_problem};
    ghost use Rattle.ttree_go_test.specs.Failed.{failed_ended, failed_ends, failed_takes};

    ghost takes = { failed_takes };

    ghost ends = { failed_ends };

    ghost ended = { failed_ended };

    ghost value_problem = { go_problem };

    fn take(
        &mut self,
        alloc: Global,
        line: &str,
        value: Option<&Value<'_>>,
    ) -> Result<Option<Vec<Call>>, AllocError> {
        if !self.knows(alloc, line, value)? {
            return Ok(None);
        }
        self.take_line(line, value)?;
        Ok(Some(self.emitted()))
    }

    fn problem(value: Option<&Value<'_>>) -> Problem {
        GoTest::problem(value)
    }

    fn end(&mut self, alloc: Global) -> Result<Vec<Call>, AllocError> {
        let packages = mem::replace(&mut self.packages, Named::new(alloc));
        release_all(&mut self.shown, alloc, packages)?;
        self.shown.leave_all()?;
        self.whole.leave_all()?;
        let mut calls = self.shown.emitted();
        calls.push(self.whole.tally_call(alloc)?)?;
        Ok(calls)
    }
}

// Takes out the lines of a top-level test, or the package's own lines if the name is empty.
fn take_lines(alloc: Global, pending: &mut Named<Lines>, test: &str) -> Result<Lines, AllocError>
    ensures lines { IfOk result (λ lines. lines ≡ kept_in test.now pending.old) }
    ensures rest { OnOk result (pending.new ≡ without test.now pending.old) }
{
    let lines = pending.take(test.as_bytes())?;
    Ok(lines.unwrap_or(Lines::new(alloc)))
}

// Adds a line to those of a top-level test, or to the package's own lines if the name is empty.
fn add_line(
    alloc: Global,
    pending: &mut Named<Lines>,
    test: &str,
    one: HeldLine,
) -> Result<(), AllocError>
    ensures { OnOk result (pending.new ≡ with_kept_line test.now one pending.old) }
{
    let mut lines = take_lines(alloc, pending, test)?;
    lines.push(one)?;
    pending.put(alloc, test.as_bytes(), lines)
}

// Reports the held lines of packages that didn't end.
fn release_all(
    shown: &mut GoTest,
    alloc: Global,
    packages: Named<Named<Lines>>,
) -> Result<(), AllocError>
    ensures { OnOk result (shown.new ≡ all_released packages shown.old) }
{
    let mut packages = packages;
    while let Some((path, pending)) = packages.take_first()? {
        release_package(shown, alloc, path.as_slice(), pending)?;
    }
    Ok(())
}

// Reports the held lines of a package: one top-level test after the other, then its own lines.
fn release_package(
    shown: &mut GoTest,
    alloc: Global,
    path: &[u8],
    pending: Named<Lines>,
) -> Result<(), AllocError>
    ensures { OnOk result (shown.new ≡ package_released path.now pending shown.old) }
{
    let mut pending = pending;
    let own = take_lines(alloc, &mut pending, "")?;
    release_tests(shown, alloc, path, pending)?;
    release(shown, alloc, path, own)
}

fn release_tests(
    shown: &mut GoTest,
    alloc: Global,
    path: &[u8],
    tests: Named<Lines>,
) -> Result<(), AllocError>
    ensures { OnOk result (shown.new ≡ tests_released path.now tests shown.old) }
{
    let mut tests = tests;
    while let Some((_, lines)) = tests.take_first()? {
        release(shown, alloc, path, lines)?;
    }
    Ok(())
}

// Reports lines of a package, without those of tests that passed or were skipped.
fn release(shown: &mut GoTest, alloc: Global, path: &[u8], lines: Lines) -> Result<(), AllocError>
    ensures { OnOk result (shown.new ≡ released path.now lines shown.old) }
{
    let over = tests_over(alloc, lines.kept.as_slice())?;
    for one in lines.kept {
        release_one(shown, alloc, path, &over, &one)?;
    }
    Ok(())
}

// Reports a line, unless its test passed or was skipped and no part of it was reported.
fn release_one(
    shown: &mut GoTest,
    alloc: Global,
    path: &[u8],
    over: &BTreeSet<String>,
    one: &HeldLine,
) -> Result<(), AllocError>
    ensures { OnOk result (shown.new
        ≡ released_one path.now (contains_text over.now) one.now shown.old) }
{
    let test = one.test.as_str();
    if over.contains(test) && !shown.runs(path, test.as_bytes()) {
        return Ok(());
    }
    show_kept(shown, alloc, one)
}

// Reports a line.
fn show(shown: &mut GoTest, line: &str, value: Option<&Value<'_>>) -> Result<(), AllocError>
    ensures { OnOk result (shown.new
        ≡ line_shown line.now (option_map (λ v. value_view v.now) value.entry) shown.old) }
{
    match value {
        Some(value) => {
            shown.take_value(value)?;
            Ok(())
        }
        None => shown.take_text(line),
    }
}

// Reports a line that was held.
fn show_kept(shown: &mut GoTest, alloc: Global, one: &HeldLine) -> Result<(), AllocError>
    ensures { OnOk result (shown.new ≡ kept_shown one.now shown.old) }
{
    let line = one.line.as_str();
    let mut scratch = Scratch::new(alloc);
    let value = value_of(alloc, line, &mut scratch)?;
    show(shown, line, value.as_ref())
}

// Returns the tests that passed or were skipped according to these lines, unless another line says
// that they failed.
fn tests_over(alloc: Global, kept: &[HeldLine]) -> Result<BTreeSet<String>, AllocError>
    ensures { IfOk result (λ over. contains_text over ≡ is_over kept.now) }
{
    let mut over = good_tests(alloc, kept)?;
    let mut rest = kept;
    while let [one, others @ ..] = rest {
        forget_bad(&mut over, one);
        rest = others;
    }
    Ok(over)
}

// Returns the tests that passed or were skipped according to a line.
fn good_tests(alloc: Global, kept: &[HeldLine]) -> Result<BTreeSet<String>, AllocError>
    ensures { IfOk result (λ good. contains_text good ≡ someone_says is_good kept.now) }
{
    let mut good = BTreeSet::new(alloc);
    let mut rest = kept;
    while let [one, others @ ..] = rest {
        note_good(alloc, &mut good, one)?;
        rest = others;
    }
    Ok(good)
}

// Adds the test of a line if the line says that it passed or was skipped.
fn note_good(alloc: Global, good: &mut BTreeSet<String>, one: &HeldLine) -> Result<(), AllocError>
    ensures { OnOk result ((test : List ℕ) → contains_text good.new test
        ≡ (contains_text good.old test || says is_good one.now test)) }
{
    if is_good(one.verdict) {
        good.insert(String::from_str(alloc, one.test.as_str())?)?;
    }
    Ok(())
}

// Removes the test of a line if the line says that it failed.
fn forget_bad(over: &mut BTreeSet<String>, one: &HeldLine)
    ensures { (test : List ℕ) → contains_text over.new test
        ≡ (contains_text over.old test && not (says is_bad one.now test)) }
{
    if is_bad(one.verdict) {
        over.remove(one.test.as_str());
    }
}

fn verdict_in(value: &Value<'_>) -> Verdict
    ensures { result ≡ verdict_in (value_view value.now) }
{
    match text_at(value, "Action") {
        Some(action) => verdict_of(action),
        None => Verdict::Open,
    }
}

fn verdict_of(action: &str) -> Verdict
    ensures { result ≡ verdict_of action.now }
{
    if action == "pass" || action == "bench" || action == "skip" {
        Verdict::Good
    } else if action == "fail" || action == "build-fail" {
        Verdict::Bad
    } else {
        Verdict::Open
    }
}

fn is_open(verdict: Verdict) -> bool
    ensures { result ≡ is_open verdict }
{
    matches!(verdict, Verdict::Open)
}

fn is_good(verdict: Verdict) -> bool
    ensures { result ≡ is_good verdict }
{
    matches!(verdict, Verdict::Good)
}

fn is_bad(verdict: Verdict) -> bool
    ensures { result ≡ is_bad verdict }
{
    matches!(verdict, Verdict::Bad)
}

// Returns whether this is the name of a subtest.
fn is_inner(test: &str) -> bool
    ensures { result ≡ is_inner test.now }
{
    test.as_bytes().contains(&b'/')
}

// Returns the name of a test's top-level test.
fn outermost(test: &str) -> &str
    ensures { result.now ≡ outermost test.now }
{
    match test.split_once('/') {
        Some((front, _)) => front,
        None => test,
    }
}

// Returns the package of a line that is known.
fn path_of<'v>(value: &'v Value<'_>) -> &'v str
    ensures { result.now ≡ package_path (value_view value.now) }
{
    match package_of(value) {
        Some(path) => path,
        None => "",
    }
}
