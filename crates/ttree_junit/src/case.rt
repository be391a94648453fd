//! A test case.

ghost use Rattle.std.specs.Prelude.{◌≡◌, ◌++◌, ◌∷◌, [], IfOk, OnOk, string_bytes};
ghost use Rattle.ttree_junit.specs.Case.{bare_case_fields, case_end_fields, case_of, is_bare, level_of_outcome, outcome_fields, outcome_of, outcome_word, reason_fields, time_fields, with_cut, with_failure, with_printed, with_property, with_skip, word_and_name};

use crate::element::is_off;
use crate::failure::push_failure;
use crate::lines::{Row, push_lines, reason_of};
use crate::seconds::nanoseconds_of;
use crate::tag::{Part, Tag};
use std::alloc::{AllocError, Global};
use std::marker::Model;
use tracing_tree_base::field::{Field, Fields};
use tracing_tree_base::style::Level;
use tracing_tree_base::text::Text;
use ttree_source::calls::{message_field, shown};
use ttree_source::length::length_text;

// How a case ended.
#[derive(Clone, Copy, Debug, PartialEq, Eq)]
pub(crate) enum Outcome {
    Passed,
    Failed,
    Skipped,
    // The document ends in it.
    Unfinished,
}

// A case: its attributes, what its elements say, its properties, and its rows.
#[derive(Drop)]
pub(crate) struct Case {
    name: Text,
    classname: Text,
    nanoseconds: Option<u64>,

    // Its status says that it wasn't run.
    is_off: bool,
    is_failed: bool,
    is_skipped: bool,
    // The document ends in it.
    is_cut: bool,
    reason: Text,
    fields: Fields,
    rows: Vec<Row>,
}

impl Model for Case {
    ghost use Rattle.ttree_junit.specs.States.{CaseState};

    ghost Value = { CaseState };

    ghost view = { λ c. record {
      name = c.name;
      classname = c.classname;
      nanoseconds = c.nanoseconds;
      is_off = c.is_off;
      is_failed = c.is_failed;
      is_skipped = c.is_skipped;
      is_cut = c.is_cut;
      reason = c.reason;
      fields = c.fields;
      rows = c.rows.items;
    } };
}

impl Case {
    // Returns a case with the attributes of this tag.
    pub(crate) fn new(alloc: Global, tag: &Tag) -> Result<Case, AllocError>
        ensures { IfOk result (λ case. case ≡ case_of tag.now) }
    {
        Ok(Case {
            name: Text::from_str(alloc, tag.value("name"))?,
            classname: Text::from_str(alloc, tag.value("classname"))?,
            nanoseconds: nanoseconds_of(tag.value("time")),
            is_off: is_off(tag.value("status")),
            is_failed: false,
            is_skipped: false,
            is_cut: false,
            reason: Text::from_str(alloc, "")?,
            fields: Fields::new(alloc),
            rows: Vec::new(alloc),
        })
    }

    pub(crate) fn name(&self) -> &str
        ensures { result.now ≡ self.now.name }
    {
        self.name.as_str()
    }

    pub(crate) fn classname(&self) -> &str
        ensures { result.now ≡ self.now.classname }
    {
        self.classname.as_str()
    }

    pub(crate) fn rows(&self) -> &[Row]
        ensures { result.now ≡ self.now.rows }
    {
        self.rows.as_slice()
    }

    // Its properties.
    pub(crate) fn fields(&self) -> Result<Fields, AllocError>
        ensures { IfOk result (λ fields. fields ≡ self.now.fields) }
    {
        self.fields.clone()
    }

    pub(crate) fn add_property(&mut self, alloc: Global, field: Field) -> Result<(), AllocError>
        ensures { OnOk result (self.new ≡ with_property field self.old) }
    {
        self.fields.append(Fields::one(alloc, field))
    }

    // Takes a failure of this level: the case failed if it is an error.
    pub(crate) fn add_failure(
        &mut self,
        alloc: Global,
        level: Level,
        part: &Part,
    ) -> Result<(), AllocError>
        ensures { OnOk result (self.new ≡ with_failure level part.now self.old) }
    {
        push_failure(alloc, &mut self.rows, level, part)?;
        self.is_failed = self.is_failed || level == Level::Error;
        Ok(())
    }

    pub(crate) fn add_printed(&mut self, alloc: Global, part: &Part) -> Result<(), AllocError>
        ensures { OnOk result (self.new ≡ with_printed part.now self.old) }
    {
        push_lines(alloc, &mut self.rows, part.body())
    }

    pub(crate) fn skip(&mut self, alloc: Global, part: &Part) -> Result<(), AllocError>
        ensures { OnOk result (self.new ≡ with_skip part.now self.old) }
    {
        self.reason = Text::from_str(alloc, reason_of(part.message(), part.body()))?;
        self.is_skipped = true;
        Ok(())
    }

    // Leaves the case unfinished.
    pub(crate) fn cut(&mut self)
        ensures { self.new ≡ with_cut self.old }
    {
        self.is_cut = true;
    }

    // Returns how the case ended. A failure that was expected, as of a test to be done, skips it.
    pub(crate) fn outcome(&self) -> Outcome
        ensures { result ≡ outcome_of self.now }
    {
        if self.is_cut {
            Outcome::Unfinished
        } else if self.is_skipped {
            Outcome::Skipped
        } else if self.is_failed {
            Outcome::Failed
        } else if self.is_off {
            Outcome::Skipped
        } else {
            Outcome::Passed
        }
    }

    // Returns whether there is nothing more to show than how it ended.
    pub(crate) fn is_bare(&self) -> bool
        ensures { result ≡ is_bare self.now }
    {
        self.rows.is_empty() && self.fields.as_slice().is_empty()
    }

    // Returns the fields of the event of a bare case.
    pub(crate) fn event_fields(&self, alloc: Global) -> Result<Fields, AllocError>
        ensures { IfOk result (λ fields. fields ≡ bare_case_fields self.now) }
    {
        let text = named(alloc, word_of(self.outcome()), self.name())?;
        self.end_fields(alloc, text.as_str())
    }

    // Returns the fields of the last event in the span of a case.
    pub(crate) fn span_fields(&self, alloc: Global) -> Result<Fields, AllocError>
        ensures { IfOk result (λ fields. fields ≡ case_end_fields self.now) }
    {
        self.end_fields(alloc, word_of(self.outcome()))
    }

    fn end_fields(&self, alloc: Global, message: &str) -> Result<Fields, AllocError>
        ensures { IfOk result (λ fields. fields ≡ outcome_fields message.now self.now) }
    {
        let mut fields = Fields::one(alloc, message_field(alloc, message)?);
        fields.append(reason_fields(alloc, self.reason.as_str())?)?;
        fields.append(time_fields(alloc, self.nanoseconds)?)?;
        Ok(fields)
    }
}

// Returns the word for an outcome.
fn word_of(outcome: Outcome) -> &'static str
    ensures { result.now ≡ outcome_word outcome }
{
    match outcome {
        Outcome::Passed => "pass",
        Outcome::Failed => "fail",
        Outcome::Skipped => "skip",
        Outcome::Unfinished => "unfinished",
    }
}

pub(crate) fn level_of(outcome: Outcome) -> Level
    ensures { result ≡ level_of_outcome outcome }
{
    match outcome {
        Outcome::Passed => Level::Info,
        Outcome::Failed | Outcome::Unfinished => Level::Error,
        Outcome::Skipped => Level::Warn,
    }
}

fn named(alloc: Global, word: &str, name: &str) -> Result<String, AllocError>
    ensures { IfOk result (λ text. string_bytes text ≡ word_and_name word.now name.now) }
{
    let mut text = String::from_str(alloc, word)?;
    text.push_str(" ")?;
    text.push_str(name)?;
    Ok(text)
}

fn reason_fields(alloc: Global, reason: &str) -> Result<Fields, AllocError>
    ensures { IfOk result (λ fields. fields ≡ reason_fields reason.now) }
{
    if reason.is_empty() {
        return Ok(Fields::new(alloc));
    }
    let field = Field {
        name: Text::from_str(alloc, "reason")?,
        value: shown(alloc, reason)?,
    };
    Ok(Fields::one(alloc, field))
}

pub(crate) fn time_fields(alloc: Global, nanoseconds: Option<u64>) -> Result<Fields, AllocError>
    ensures { IfOk result (λ fields. fields ≡ time_fields nanoseconds) }
{
    match nanoseconds {
        Some(nanoseconds) => {
            let field = Field {
                name: Text::from_str(alloc, "time")?,
                value: length_text(alloc, nanoseconds)?,
            };
            Ok(Fields::one(alloc, field))
        }
        None => Ok(Fields::new(alloc)),
    }
}
