//! The tests in the lines of `go test -json`.

ghost use Rattle.std.specs.Prelude.{◌≡◌, ◌++◌, ◌∷◌, [], IfOk, OnOk, Option, None, Some, option_map};
ghost use Rattle.ttree_go_test.specs.Names.{without};
ghost use Rattle.json.specs.Value.{value_view};
ghost use Rattle.ttree_go_test.specs.GoTest.{acted, build_printed_if, failed_counted, any_failed, is_aside, output_kind, level_of_text, moved, one_ended, package_counted, package_failed, packages_ended, printed_if, takes_plain, takes_value_as, test_ended, new_running, end_counted, elapsed_in, test_or_package_ended, holds, test_kept, problem_in, nothing_run, package_ended, package_of, printed, ran, takes_text, takes_timed, takes_value, at_action_time, test_of, above_held, all_ended, left_one, noted_left, package_left, packages_left, test_placed, runs, tally_call, left_over, build_over, built_after, package_over, package_started, held_test, running_as, tests_of, with_package, without_package};

mod builds;
mod emitting;
mod running;
mod tally;
mod text;

use crate::names::Named;
use builds::Build;
use emitting::elapsed_fields;
use json::Value;
use running::{Kind, Running, owner, span_in};
use std::alloc::{AllocError, Global};
use std::marker::Model;
use std::mem;
pub use tally::Tally;
use tally::{Ending, Failing, more_names};
use text::{is_package_frame, is_progress, own_name, up_to_space};
use tracing_tree_base::Id;
use tracing_tree_base::field::Fields;
use tracing_tree_base::style::Level;
use tracing_tree_base::text::Text;
use tracing_tree_layer::call::Call;
use tracing_tree_lines::lines::is_skipped;
use tracing_tree_time::Moment;
use ttree_source::calls::event_call;
use ttree_source::marks::after_mark;
use ttree_source::moments::moment_after;
use ttree_source::notes::Problem;
use ttree_source::source::Source;
use ttree_source::traces::begins_trace;
use ttree_source::values::text_at;

/// The state of the running tests.
///
/// A test is nested in its nearest running ancestor (names split at `/`), otherwise in its package.
/// A test that prints nothing before its end is one event in its parent's span. A test that is
/// still running when its package passes has passed. If a test starts while one with its name is
/// running, that one ends as unfinished first. At the end of the input, everything still running
/// ends as unfinished too. A build's output is reported when the build fails or another line of its
/// package comes. The time for a line grows with the length of its names, and hardly with the
/// number of running tests.
#[derive(Drop)]
pub struct GoTest {
    alloc: Global,
    // The id of the next span.
    next: u64,
    moment: Moment,
    // What is running, by the packages' paths, then by the tests' names. The package itself has the
    // empty name.
    packages: Named<Named<Running>>,
    // The output of builds, by the packages' paths.
    builds: Named<Build>,
    tally: Tally,
    failing: Failing,
    // The package whose build prints the lines that aren't JSON. Empty if there isn't one.
    building: Text,
    // The span of the last call.
    last: Option<Id>,
    calls: Vec<Call>,
}

impl Model for GoTest {
    ghost use Rattle.ttree_go_test.specs.GoTest.{GoState};

    ghost Value = { GoState };

    ghost view = { λ g. record {
      next = g.next;
      moment = g.moment;
      packages = g.packages;
      builds = g.builds;
      tally = g.tally;
      failing = g.failing;
      building = g.building;
      last = g.last;
      calls = g.calls.items;
    } };
}

impl GoTest {
    /// Returns the state before the first line. The next span gets the id `next`, and calls are
    /// made at `moment` until a line has a time.
    ///
    /// # Errors
    ///
    /// `AllocError` if an allocation fails.
    pub fn new(alloc: Global, next: u64, moment: Moment) -> Result<GoTest, AllocError>
        ensures { IfOk result (λ source. source ≡ nothing_run next moment) }
    {
        Ok(GoTest {
            alloc,
            next,
            moment,
            packages: Named::new(alloc),
            builds: Named::new(alloc),
            tally: Tally::new(),
            failing: Failing {
                packages: Text::from_str(alloc, "")?,
                tests: Text::from_str(alloc, "")?,
            },
            building: Text::from_str(alloc, "")?,
            last: None,
            calls: Vec::new(alloc),
        })
    }

    /// Returns whether a test or a package has failed, or a package didn't end.
    pub fn has_failed(&self) -> bool
        ensures { result ≡ any_failed self.now }
    {
        self.tally.has_failed()
    }

    /// Returns the counts of tests and packages, by how they ended.
    pub fn tally(&self) -> Tally
        ensures { result ≡ self.now.tally }
    {
        self.tally
    }

    // Returns whether this test is running, or the package if the name is empty.
    pub(crate) fn runs(&self, path: &[u8], test: &[u8]) -> bool
        ensures { result ≡ runs path.now test.now self.now }
    {
        match self.packages.get(path) {
            Some(tests) => tests.has(test),
            None => false,
        }
    }

    // Returns the calls, and empties the list.
    pub(crate) fn emitted(&mut self) -> Vec<Call>
        ensures emitted { result.items ≡ self.old.calls }
        ensures rest { self.new ≡ record self.old { calls = [] } }
    {
        mem::replace(&mut self.calls, Vec::new(self.alloc))
    }

    // Takes a line that isn't JSON: from a failing build, or from anything else that prints.
    pub(crate) fn take_text(&mut self, line: &str) -> Result<(), AllocError>
        ensures { OnOk result (self.new ≡ takes_text line.now self.old) }
    {
        if is_skipped(line.as_bytes()) {
            return Ok(());
        }
        if let Some(rest) = after_mark(line, "# ") {
            return self.take_heading(rest);
        }
        if let Some(rest) = after_mark(line, "FAIL\t") {
            self.set_building("")?;
            return self.end_package(Ending::Failed, up_to_space(rest), None);
        }
        self.take_plain(line)
    }

    // Takes a line that names the package whose build prints the next lines. `go vet` writes a
    // second one with the name in brackets.
    fn take_heading(&mut self, rest: &str) -> Result<(), AllocError>
        ensures { OnOk result (self.new
            ≡ record self.old { building = built_after rest.now self.old.building }) }
    {
        if rest.as_bytes().starts_with("[".as_bytes()) {
            return Ok(());
        }
        self.set_building(up_to_space(rest))
    }

    // Sets the package whose build prints the next lines. If the path is empty, there isn't one.
    fn set_building(&mut self, path: &str) -> Result<(), AllocError>
        ensures { OnOk result (self.new ≡ record self.old { building = path.now }) }
    {
        self.building = Text::from_str(self.alloc, path)?;
        Ok(())
    }

    // Takes a line that a build or anything else prints.
    fn take_plain(&mut self, line: &str) -> Result<(), AllocError>
        ensures { OnOk result (self.new ≡ takes_plain line.now self.old) }
    {
        if is_package_frame(line.as_bytes()) {
            return Ok(());
        }
        if self.is_aside(line) {
            return self.push_event(level_of_text(line), line, self.last);
        }
        let path = self.building.clone()?;
        let mut owner = self.take_owner(path.as_str(), "")?;
        self.open(&mut owner)?;
        self.push_event(Level::Error, line, owner.span)?;
        self.keep(owner)
    }

    // Returns whether no build is known to print, or the line is a message of `go` about what it
    // fetches.
    fn is_aside(&self, line: &str) -> bool
        ensures { result ≡ is_aside line.now self.now }
    {
        self.building.as_str().is_empty() || is_progress(line.as_bytes())
    }

    // Takes a line that is a JSON value. Returns whether it is known.
    pub(crate) fn take_value(&mut self, value: &Value<'_>) -> Result<bool, AllocError>
        ensures { IfOk result (takes_value (value_view value.now) self.old self.new) }
    {
        let before = self.moment();
        self.go_on(value);
        let is_known = self.take_timed(value)?;
        if !is_known {
            self.go_back(before);
        }
        Ok(is_known)
    }

    // Returns the moment of the last line.
    fn moment(&self) -> Moment
        ensures { result ≡ self.now.moment }
    {
        self.moment
    }

    // Advances to the moment of a line.
    fn go_on(&mut self, value: &Value<'_>)
        ensures { self.new ≡ at_action_time (value_view value.now) self.old }
    {
        self.moment = moment_after(text_at(value, "Time"), &self.moment);
    }

    fn go_back(&mut self, moment: Moment)
        ensures { self.new ≡ record self.old { moment = moment } }
    {
        self.moment = moment;
    }

    // Takes a line that is a JSON value, at the moment of that line. Returns whether it is known.
    fn take_timed(&mut self, value: &Value<'_>) -> Result<bool, AllocError>
        ensures { IfOk result (takes_timed (value_view value.now) self.old self.new) }
    {
        let Some(action) = text_at(value, "Action") else {
            return Ok(false);
        };
        let Some(path) = package_of(value) else {
            return Ok(false);
        };
        self.act(action, path, test_of(value), value)
    }

    // Takes a line with this action. Returns whether it is known.
    fn act(
        &mut self,
        action: &str,
        path: &str,
        test: &str,
        value: &Value<'_>,
    ) -> Result<bool, AllocError>
        ensures { IfOk result (takes_value_as
            (acted action.now path.now test.now (value_view value.now) self.old) self.old
            self.new) }
    {
        if action == "build-output" {
            return self.take_build_output(path, text_at(value, "Output"));
        }
        if action == "output" {
            return self.take_output(kind_in(value), path, test, text_at(value, "Output"));
        }
        if action == "build-fail" {
            self.emit_build(Level::Error, path)?;
            return Ok(true);
        }
        self.emit_build(Level::Warn, path)?;
        self.step(action, path, test, elapsed_in(value))?;
        Ok(true)
    }

    // Takes a line of a build's output. Returns whether it has a string.
    fn take_build_output(&mut self, path: &str, text: Option<&str>) -> Result<bool, AllocError>
        ensures { IfOk result (takes_value_as
            (build_printed_if path.now (option_map (λ t. t.now) text.entry) self.old) self.old
            self.new) }
    {
        let Some(text) = text else {
            return Ok(false);
        };
        self.print_build(path, text)?;
        Ok(true)
    }

    // Takes a line of output of a test or a package. Returns whether it has a string.
    fn take_output(
        &mut self,
        kind: Kind,
        path: &str,
        test: &str,
        text: Option<&str>,
    ) -> Result<bool, AllocError>
        ensures { IfOk result (takes_value_as
            (printed_if kind path.now test.now (option_map (λ t. t.now) text.entry) self.old)
            self.old self.new) }
    {
        let Some(text) = text else {
            return Ok(false);
        };
        self.emit_build(Level::Warn, path)?;
        self.output(kind, path, test, text)?;
        Ok(true)
    }

    // Starts or ends a test or a package.
    fn step(
        &mut self,
        action: &str,
        path: &str,
        test: &str,
        elapsed: Option<&str>,
    ) -> Result<(), AllocError>
        ensures { OnOk result (self.new ≡ moved action.now path.now test.now
            (option_map (λ e. e.now) elapsed.entry) self.old) }
    {
        if action == "run" {
            self.run(path, test)
        } else if action == "pass" || action == "bench" {
            self.end(Ending::Passed, path, test, elapsed)
        } else if action == "fail" {
            self.end(Ending::Failed, path, test, elapsed)
        } else if action == "skip" {
            self.end(Ending::Skipped, path, test, elapsed)
        } else if action == "start" {
            self.start(path)
        } else {
            Ok(())
        }
    }

    // Starts a package.
    fn start(&mut self, path: &str) -> Result<(), AllocError>
        ensures { OnOk result (self.new ≡ package_started path.now self.old) }
    {
        let mut package = self.take_owner(path, "")?;
        package.has_begun = true;
        self.keep(package)
    }

    // Starts a test, and its package if that isn't running.
    fn run(&mut self, path: &str, test: &str) -> Result<(), AllocError>
        ensures { OnOk result (self.new ≡ ran path.now test.now self.old) }
    {
        let mut owner = self.take_above(path, test)?;
        self.emit_part(&mut owner)?;
        self.open(&mut owner)?;
        owner.has_begun = true;
        self.keep(owner)?;
        if test.is_empty() {
            return Ok(());
        }
        let begun = Running::begun(self.alloc, path, test)?;
        self.keep(begun)
    }

    // Takes out the parent of a test that starts. If a test with this name is running, it ends as
    // unfinished first.
    fn take_above(&mut self, path: &str, test: &str) -> Result<Running, AllocError>
        ensures { IfOk result (λ one. holds one self.new ≡ above_held path.now test.now self.old) }
    {
        let owner = self.take_owner(path, test)?;
        if test.is_empty() || owner.test.as_str() != test {
            return Ok(owner);
        }
        self.leave_one(Ending::Unfinished, owner)?;
        self.take_owner(path, test)
    }

    // Takes output of a test or a package.
    fn output(&mut self, kind: Kind, path: &str, test: &str, text: &str) -> Result<(), AllocError>
        ensures { OnOk result (self.new ≡ printed kind path.now test.now text.now self.old) }
    {
        let mut owner = self.take_owner(path, test)?;
        owner.has_begun = true;
        self.print_string(&mut owner, kind, text)?;
        self.keep_as(path, test, owner)
    }

    // Ends a test or a package.
    fn end(
        &mut self,
        ending: Ending,
        path: &str,
        test: &str,
        elapsed: Option<&str>,
    ) -> Result<(), AllocError>
        ensures { OnOk result (self.new ≡ test_or_package_ended ending path.now test.now
            (option_map (λ e. e.now) elapsed.entry) self.old) }
    {
        if test.is_empty() {
            self.end_build(path)?;
            return self.end_package(ending, path, elapsed);
        }
        self.count(ending, path, test)?;
        let owner = self.take_owner(path, test)?;
        self.end_test(owner, ending, test, elapsed)
    }

    // Ends the build of a package, if it is the one that prints lines.
    fn end_build(&mut self, path: &str) -> Result<(), AllocError>
        ensures { OnOk result (self.new ≡ build_over path.now self.old) }
    {
        if self.building.as_str() == path {
            return self.set_building("");
        }
        Ok(())
    }

    // Ends the test with this name, or a subtest that wasn't running.
    fn end_test(
        &mut self,
        owner: Running,
        ending: Ending,
        test: &str,
        elapsed: Option<&str>,
    ) -> Result<(), AllocError>
        ensures { OnOk result (self.new ≡ test_ended ending test.now
            (option_map (λ e. e.now) elapsed.entry) (holds owner self.old)) }
    {
        if owner.test.as_str() == test {
            return self.finish(owner, ending, elapsed);
        }
        let mut owner = owner;
        self.open(&mut owner)?;
        let rest = elapsed_fields(self.alloc, elapsed)?;
        let name = own_name(owner.test.as_str(), test);
        self.push_quiet(ending, name, rest, owner.span)?;
        self.keep(owner)
    }

    fn end_package(
        &mut self,
        ending: Ending,
        path: &str,
        elapsed: Option<&str>,
    ) -> Result<(), AllocError>
        ensures { OnOk result (self.new ≡ package_ended ending path.now
            (option_map (λ e. e.now) elapsed.entry) self.old) }
    {
        self.count_package(ending, path)?;
        let mut tests = self.take_package(path)?;
        let package = self.take_running(&mut tests, path, "".as_bytes())?;
        self.leave_over(ending.of_left(), package.span, tests)?;
        self.finish(package, ending, elapsed)
    }

    // Ends everything still running in a package with this span. It starts at the last name, so a
    // test ends after its subtests.
    fn leave_over(
        &mut self,
        ending: Ending,
        package_span: Option<Id>,
        tests: Named<Running>,
    ) -> Result<(), AllocError>
        ensures { OnOk result (self.new ≡ left_over ending package_span [] tests self.old) }
    {
        let mut tests = tests;
        while let Some(one) = tests.take_last()? {
            self.leave_placed(ending, package_span, &tests, one)?;
        }
        Ok(())
    }

    // Ends one test, whose ancestors are among `others`.
    fn leave_placed(
        &mut self,
        ending: Ending,
        package_span: Option<Id>,
        others: &Named<Running>,
        one: Running,
    ) -> Result<(), AllocError>
        ensures { OnOk result (self.new
            ≡ left_one ending (test_placed package_span others.now one) self.old) }
    {
        let mut one = one;
        one.place(self.alloc, package_span, others)?;
        self.leave_one(ending, one)
    }

    fn leave_one(&mut self, ending: Ending, one: Running) -> Result<(), AllocError>
        ensures { OnOk result (self.new ≡ left_one ending one self.old) }
    {
        if !one.has_begun {
            return Ok(());
        }
        self.note_left(ending, &one)?;
        self.finish(one, ending, None)
    }

    // Counts a test or a package that had no end.
    fn note_left(&mut self, ending: Ending, one: &Running) -> Result<(), AllocError>
        ensures { OnOk result (self.new ≡ noted_left ending one.now self.old) }
    {
        if one.test.as_str().is_empty() {
            self.count_package(ending, one.path.as_str())
        } else {
            self.count(ending, one.path.as_str(), one.test.as_str())
        }
    }

    // Ends everything still running, and reports the output of builds.
    pub(crate) fn leave_all(&mut self) -> Result<(), AllocError>
        ensures { OnOk result (self.new ≡ all_ended self.old) }
    {
        let builds = mem::replace(&mut self.builds, Named::new(self.alloc));
        self.end_packages()?;
        self.emit_builds(builds)
    }

    // Ends everything still running, one package after the other.
    fn end_packages(&mut self) -> Result<(), AllocError>
        ensures { OnOk result (self.new ≡ packages_ended self.old) }
    {
        let packages = mem::replace(&mut self.packages, Named::new(self.alloc));
        self.leave_packages(packages)
    }

    fn leave_packages(&mut self, packages: Named<Named<Running>>) -> Result<(), AllocError>
        ensures { OnOk result (self.new ≡ packages_left packages self.old) }
    {
        let mut packages = packages;
        while let Some((_, tests)) = packages.take_first()? {
            self.leave_package(tests)?;
        }
        Ok(())
    }

    // Ends everything still running in a package, then the package.
    fn leave_package(&mut self, tests: Named<Running>) -> Result<(), AllocError>
        ensures { OnOk result (self.new ≡ package_left tests self.old) }
    {
        let mut tests = tests;
        let span = span_in(&tests, "".as_bytes());
        let package = tests.take("".as_bytes())?;
        self.leave_over(Ending::Unfinished, span, tests)?;
        match package {
            Some(package) => self.leave_own(package),
            None => Ok(()),
        }
    }

    // Ends a package as unfinished. If only its build is known, its span closes without an end.
    fn leave_own(&mut self, own: Running) -> Result<(), AllocError>
        ensures { OnOk result (self.new ≡ package_over own self.old) }
    {
        if own.has_begun {
            return self.leave_one(Ending::Unfinished, own);
        }
        self.close_only(own)
    }

    // Returns the call with the counts of tests and packages, and the names of those that failed.
    pub(crate) fn tally_call(&self, alloc: Global) -> Result<Call, AllocError>
        ensures { IfOk result (λ call. call ≡ tally_call self.now) }
    {
        let mut fields = self.tally.fields(alloc)?;
        self.failing.push_fields(alloc, &self.tally, &mut fields)?;
        let level = if self.has_failed() {
            Level::Error
        } else {
            Level::Info
        };
        event_call(alloc, self.moment, level, Fields::from(fields), None)
    }

    // Counts a test that ended like this.
    fn count(&mut self, ending: Ending, path: &str, test: &str) -> Result<(), AllocError>
        ensures { OnOk result (self.new ≡ end_counted ending path.now test.now self.old) }
    {
        match ending {
            Ending::Passed => self.tally.passed = self.tally.passed.saturating_add(1),
            Ending::Failed => return self.count_failed(path, test),
            Ending::Skipped => self.tally.skipped = self.tally.skipped.saturating_add(1),
            Ending::Unfinished => self.tally.unfinished = self.tally.unfinished.saturating_add(1),
        }
        Ok(())
    }

    fn count_failed(&mut self, path: &str, test: &str) -> Result<(), AllocError>
        ensures { OnOk result (self.new ≡ failed_counted path.now test.now self.old) }
    {
        let mut name = String::from_str(self.alloc, path)?;
        name.push_str(".")?;
        name.push_str(test)?;
        let count = self.tally.failed;
        self.failing.tests = more_names(self.alloc, count, &self.failing.tests, name.as_str())?;
        self.tally.failed = count.saturating_add(1);
        Ok(())
    }

    // Counts a package that ended like this.
    fn count_package(&mut self, ending: Ending, path: &str) -> Result<(), AllocError>
        ensures { OnOk result (self.new ≡ package_counted ending path.now self.old) }
    {
        self.count_end();
        match ending {
            Ending::Failed | Ending::Unfinished => self.count_failed_package(path),
            Ending::Passed | Ending::Skipped => Ok(()),
        }
    }

    fn count_end(&mut self)
        ensures { self.new ≡ one_ended self.old }
    {
        self.tally.packages = self.tally.packages.saturating_add(1);
    }

    fn count_failed_package(&mut self, path: &str) -> Result<(), AllocError>
        ensures { OnOk result (self.new ≡ package_failed path.now self.old) }
    {
        let count = self.tally.packages_failed;
        self.failing.packages = more_names(self.alloc, count, &self.failing.packages, path)?;
        self.tally.packages_failed = count.saturating_add(1);
        Ok(())
    }

    // Takes out what is running under the longest prefix of this name, split at a `/`.
    fn take_owner(&mut self, path: &str, test: &str) -> Result<Running, AllocError>
        ensures { IfOk result (λ one. holds one self.new ≡ held_test path.now test.now self.old) }
    {
        let mut tests = self.take_package(path)?;
        let name = owner(&tests, test.as_bytes());
        let mut one = self.take_running(&mut tests, path, name)?;
        one.place(self.alloc, span_in(&tests, "".as_bytes()), &tests)?;
        self.put_package(path, tests)?;
        Ok(one)
    }

    // Puts back a test or a package that is running.
    fn keep(&mut self, one: Running) -> Result<(), AllocError>
        ensures { OnOk result (self.new ≡ test_kept (holds one self.old)) }
    {
        let path = one.path.clone()?;
        let name = one.test.clone()?;
        let mut tests = self.take_package(path.as_str())?;
        tests.put(self.alloc, name.as_str().as_bytes(), one)?;
        self.put_package(path.as_str(), tests)
    }

    // Puts back a test or a package like `keep`. Its path and its name aren't copied if given.
    fn keep_as(&mut self, path: &str, test: &str, one: Running) -> Result<(), AllocError>
        ensures { OnOk result (self.new ≡ test_kept (holds one self.old)) }
    {
        if one.path.as_str() != path || one.test.as_str() != test {
            return self.keep(one);
        }
        let mut tests = self.take_package(path)?;
        tests.put(self.alloc, test.as_bytes(), one)?;
        self.put_package(path, tests)
    }

    // Puts back what is running in a package.
    fn put_package(&mut self, path: &str, tests: Named<Running>) -> Result<(), AllocError>
        ensures { OnOk result (self.new ≡ with_package path.now tests self.old) }
    {
        self.packages.put(self.alloc, path.as_bytes(), tests)
    }

    // Takes out what is running in a package.
    fn take_package(&mut self, path: &str) -> Result<Named<Running>, AllocError>
        ensures tests { IfOk result (λ tests. tests ≡ tests_of path.now self.old) }
        ensures rest { OnOk result (self.new ≡ without_package path.now self.old) }
    {
        let tests = self.packages.take(path.as_bytes())?;
        Ok(tests.unwrap_or(Named::new(self.alloc)))
    }

    // Takes out what is running under this name. If there is nothing, the package starts.
    fn take_running(
        &self,
        tests: &mut Named<Running>,
        path: &str,
        name: &[u8],
    ) -> Result<Running, AllocError>
        ensures one { IfOk result (λ one. one ≡ running_as path.now name.now tests.old) }
        ensures rest { OnOk result (tests.new ≡ without name.now tests.old) }
    {
        match tests.take(name)? {
            Some(one) => Ok(one),
            None => Running::begun(self.alloc, path, ""),
        }
    }
}

impl Source for GoTest {
    ghost use Rattle.ttree_go_test.specs.GoTest.{go_takes, go_problem, go_ended, go_ends};

    ghost takes = { go_takes };

    ghost ends = { go_ends };

    ghost ended = { go_ended };

    ghost value_problem = { go_problem };

    fn take(
        &mut self,
        _alloc: Global,
        line: &str,
        value: Option<&Value<'_>>,
    ) -> Result<Option<Vec<Call>>, AllocError> {
        match value {
            Some(value) => {
                if !self.take_value(value)? {
                    return Ok(None);
                }
            }
            None => self.take_text(line)?,
        }
        Ok(Some(self.emitted()))
    }

    fn problem(value: Option<&Value<'_>>) -> Problem {
        match value {
            Some(value) => problem_in(value),
            None => Problem::Object,
        }
    }

    fn end(&mut self, alloc: Global) -> Result<Vec<Call>, AllocError> {
        self.leave_all()?;
        let mut calls = self.emitted();
        calls.push(self.tally_call(alloc)?)?;
        Ok(calls)
    }
}

// Returns the first missing key of an unknown line.
fn problem_in(value: &Value<'_>) -> Problem
    ensures { result ≡ problem_in (value_view value.now) }
{
    if text_at(value, "Action").is_none() {
        Problem::Action
    } else if package_of(value).is_none() {
        Problem::Package
    } else {
        Problem::Output
    }
}

// Returns the level of a line that isn't printed by a build.
fn level_of_text(line: &str) -> Level
    ensures { result ≡ level_of_text line.now }
{
    if begins_trace(line) {
        Level::Error
    } else {
        Level::Info
    }
}

// Returns the kind of a line's output.
fn kind_in(value: &Value<'_>) -> Kind
    ensures { result ≡ output_kind (value_view value.now) }
{
    match text_at(value, "OutputType") {
        Some(word) => Kind::named(word),
        None => Kind::named(""),
    }
}

// Returns the test of a line. It is empty for a package's line.
pub(crate) fn test_of<'v>(value: &'v Value<'_>) -> &'v str
    ensures { result.now ≡ test_of (value_view value.now) }
{
    match text_at(value, "Test") {
        Some(test) => test,
        None => "",
    }
}

// Returns how long a test took, as the number is written in the line.
fn elapsed_in<'v>(value: &'v Value<'_>) -> Option<&'v str>
    ensures { option_map (λ s. s.now) result ≡ elapsed_in (value_view value.now) }
{
    value.get("Elapsed")?.as_number()
}

// Returns the package of a line. For a build's line it is the first word of the import path.
pub(crate) fn package_of<'v>(value: &'v Value<'_>) -> Option<&'v str>
    ensures { option_map (λ s. s.now) result ≡ package_of (value_view value.now) }
{
    match text_at(value, "Package") {
        Some(path) => Some(path),
        None => {
            let path = text_at(value, "ImportPath")?;
            Some(up_to_space(path))
        }
    }
}
