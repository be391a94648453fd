//! How tests and packages end, and the counts of each end.

ghost use Rattle.std.specs.Prelude.{◌≡◌, ◌++◌, codes, IfOk, OnOk, string_bytes};
ghost use Rattle.ttree_go_test.specs.GoTest.{counts_failure, ending_word, failing_fields, left_as, level_of_ending, more_names, more_text, names_field, no_counts, tally_fields};

use std::alloc::{AllocError, Global};
use tracing_tree_base::field::Field;
use tracing_tree_base::style::Level;
use tracing_tree_base::text::Text;
use ttree_source::calls::shown;

// At most this many names of failed tests or packages are reported.
const MOST_NAMES: u64 = 10;

/// The counts of tests and packages, by how they ended.
#[derive(Clone, Copy, Debug)]
pub struct Tally {
    /// Tests that passed. They include tests without an end whose package passed, as benchmarks.
    pub passed: u64,
    /// Tests that failed.
    pub failed: u64,
    /// Tests that were skipped.
    pub skipped: u64,
    /// Tests that started and didn't end.
    pub unfinished: u64,
    /// Packages, with any end.
    pub packages: u64,
    /// Packages that failed or didn't end.
    pub packages_failed: u64,
}

impl Tally {
    // Returns counts of 0.
    pub(super) fn new() -> Tally
        ensures { result ≡ no_counts }
    {
        Tally {
            passed: 0,
            failed: 0,
            skipped: 0,
            unfinished: 0,
            packages: 0,
            packages_failed: 0,
        }
    }

    /// Returns whether a test or a package failed, or a package didn't end.
    pub fn has_failed(&self) -> bool
        ensures { result ≡ counts_failure self.now }
    {
        self.failed != 0 || self.packages_failed != 0
    }

    // Returns the fields with the counts.
    pub(super) fn fields(&self, alloc: Global) -> Result<Vec<Field>, AllocError>
        ensures { IfOk result (λ fields. fields.items ≡ tally_fields self.now) }
    {
        let mut fields = Vec::with_capacity(alloc, 8)?;
        fields.push(Field::whole(alloc, "passed", i128::from(self.passed))?)?;
        fields.push(Field::whole(alloc, "failed", i128::from(self.failed))?)?;
        fields.push(Field::whole(alloc, "skipped", i128::from(self.skipped))?)?;
        fields.push(Field::whole(alloc, "unfinished", i128::from(self.unfinished))?)?;
        fields.push(Field::whole(alloc, "packages", i128::from(self.packages))?)?;
        fields.push(Field::whole(alloc, "packages_failed", i128::from(self.packages_failed))?)?;
        Ok(fields)
    }
}

// The names of failed packages and tests: the first ten, separated by spaces.
#[derive(Drop)]
pub(super) struct Failing {
    pub(super) packages: Text,
    pub(super) tests: Text,
}

impl Failing {
    // Appends the fields with the names.
    pub(super) fn push_fields(
        &self,
        alloc: Global,
        tally: &Tally,
        fields: &mut Vec<Field>,
    ) -> Result<(), AllocError>
        ensures { OnOk result (fields.new.items
            ≡ fields.old.items ++ failing_fields tally.now self.now) }
    {
        push_names(
            alloc,
            "failed_packages",
            tally.packages_failed,
            &self.packages,
            fields,
        )?;
        push_names(alloc, "failed_tests", tally.failed, &self.tests, fields)
    }
}

// Appends the field with these names, if there are any, and how many more there are.
fn push_names(
    alloc: Global,
    key: &str,
    count: u64,
    names: &Text,
    fields: &mut Vec<Field>,
) -> Result<(), AllocError>
    ensures { OnOk result (fields.new.items
        ≡ fields.old.items ++ names_field key.now count names.now) }
{
    if names.as_str().is_empty() {
        return Ok(());
    }
    let mut text = String::from_str(alloc, names.as_str())?;
    push_more(&mut text, count)?;
    let field = Field {
        name: Text::from_str(alloc, key)?,
        value: shown(alloc, text.as_str())?,
    };
    Ok(fields.push(field)?)
}

// Appends how many more there are than names.
fn push_more(text: &mut String, count: u64) -> Result<(), AllocError>
    ensures { OnOk result (string_bytes text.new ≡ string_bytes text.old ++ more_text count) }
{
    if count <= MOST_NAMES {
        return Ok(());
    }
    let more = count - MOST_NAMES;
    write!(text, " and {more} more")
}

// Returns the names with one more, unless there are ten already.
pub(super) fn more_names(
    alloc: Global,
    count: u64,
    names: &Text,
    name: &str,
) -> Result<Text, AllocError>
    ensures { IfOk result (λ more. more ≡ more_names count names.now name.now) }
{
    if MOST_NAMES <= count {
        return names.clone();
    }
    if names.as_str().is_empty() {
        return Text::from_str(alloc, name);
    }
    let mut text = String::from_str(alloc, names.as_str())?;
    text.push_str(" ")?;
    text.push_str(name)?;
    Ok(Text::from(text))
}

// How a test or a package ends.
#[derive(Clone, Copy)]
pub(super) enum Ending {
    Passed,
    Failed,
    Skipped,
    Unfinished,
}

impl Ending {
    pub(super) fn word(self) -> &'static str
        ensures { result.now ≡ ending_word self }
    {
        match self {
            Ending::Passed => "pass",
            Ending::Failed => "fail",
            Ending::Skipped => "skip",
            Ending::Unfinished => "unfinished",
        }
    }

    pub(super) fn level(self) -> Level
        ensures { result ≡ level_of_ending self }
    {
        match self {
            Ending::Passed => Level::Info,
            Ending::Failed | Ending::Unfinished => Level::Error,
            Ending::Skipped => Level::Warn,
        }
    }

    // Returns how a test ends that is still running when its package ends like this.
    pub(super) fn of_left(self) -> Ending
        ensures { result ≡ left_as self }
    {
        match self {
            Ending::Passed => Ending::Passed,
            Ending::Failed | Ending::Skipped | Ending::Unfinished => Ending::Unfinished,
        }
    }
}
