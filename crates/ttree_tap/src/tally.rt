//! How results end, and how many came to which end.

ghost use Rattle.std.specs.Prelude.{◌≡◌, ◌+◌, ◌-◌, ◌<◌, ◌^◌, IfOk};
ghost use Rattle.ttree_tap.specs.Tally.{broken_tally, counted_tally, level_of_verdict, no_counts, tally_fields, tally_has_failure, total_of, verdict_of, verdict_word};

use crate::line::Directive;
use std::alloc::{AllocError, Global};
use tracing_tree_base::field::Field;
use tracing_tree_base::style::Level;

/// How many results came to which end.
#[derive(Clone, Copy, Debug)]
pub struct Tally {
    /// Results `ok`.
    pub passed: u64,
    /// Results `not ok`, also those of subtests.
    pub failed: u64,
    /// Results with `# SKIP`.
    pub skipped: u64,
    /// Results with `# TODO`, whether they passed or not.
    pub todo: u64,
    /// Whether something that isn't a result failed: a plan that isn't met, a missing number, a
    /// subtest without a result, `Bail out!`, or a verdict of prove.
    pub is_broken: bool,
}

impl Tally {
    // Returns counts of 0.
    pub(crate) fn new() -> Tally
        ensures { result ≡ no_counts }
    {
        Tally {
            passed: 0,
            failed: 0,
            skipped: 0,
            todo: 0,
            is_broken: false,
        }
    }

    /// Returns whether a test or anything else failed.
    pub fn has_failed(&self) -> bool
        ensures { result ≡ tally_has_failure self.now }
    {
        self.is_broken || self.failed != 0
    }

    // Returns the tally with one result more.
    pub(crate) fn with(self, verdict: Verdict) -> Tally
        ensures counted { result ≡ counted_tally verdict self }
        ensures once { total_of self < 2 ^ 64 - 1 → total_of result ≡ total_of self + 1 }
    {
        match verdict {
            Verdict::Passed => Tally {
                passed: self.passed.saturating_add(1),
                ..self
            },
            Verdict::Failed => Tally {
                failed: self.failed.saturating_add(1),
                ..self
            },
            Verdict::Skipped => Tally {
                skipped: self.skipped.saturating_add(1),
                ..self
            },
            Verdict::Todo => Tally {
                todo: self.todo.saturating_add(1),
                ..self
            },
        }
    }

    // Returns the tally with something broken.
    pub(crate) fn broken(self) -> Tally
        ensures { result ≡ broken_tally self }
    {
        Tally {
            is_broken: true,
            ..self
        }
    }

    // Returns the fields with the counts.
    pub(crate) fn fields(&self, alloc: Global) -> Result<Vec<Field>, AllocError>
        ensures { IfOk result (λ fields. fields.items ≡ tally_fields self.now) }
    {
        let mut fields = Vec::with_capacity(alloc, 4)?;
        fields.push(Field::whole(alloc, "passed", i128::from(self.passed))?)?;
        fields.push(Field::whole(alloc, "failed", i128::from(self.failed))?)?;
        fields.push(Field::whole(alloc, "skipped", i128::from(self.skipped))?)?;
        fields.push(Field::whole(alloc, "todo", i128::from(self.todo))?)?;
        Ok(fields)
    }
}

// How a result ends.
#[derive(Clone, Copy)]
pub(crate) enum Verdict {
    Passed,
    Failed,
    Skipped,
    Todo,
}

impl Verdict {
    // Returns the verdict of a result, by `ok` or `not ok` and its note.
    pub(crate) fn of(is_ok: bool, directive: Directive) -> Verdict
        ensures { result ≡ verdict_of is_ok directive }
    {
        match directive {
            Directive::Skip => Verdict::Skipped,
            Directive::Todo => Verdict::Todo,
            Directive::Time | Directive::Absent => {
                if is_ok {
                    Verdict::Passed
                } else {
                    Verdict::Failed
                }
            }
        }
    }

    pub(crate) fn word(self) -> &'static str
        ensures { result.now ≡ verdict_word self }
    {
        match self {
            Verdict::Passed => "pass",
            Verdict::Failed => "fail",
            Verdict::Skipped => "skip",
            Verdict::Todo => "todo",
        }
    }

    pub(crate) fn level(self) -> Level
        ensures { result ≡ level_of_verdict self }
    {
        match self {
            Verdict::Passed => Level::Info,
            Verdict::Failed => Level::Error,
            Verdict::Skipped | Verdict::Todo => Level::Warn,
        }
    }
}
