//! Results and plans.

ghost use Rattle.std.specs.Prelude.{◌≡◌, ◌++◌, [], IfOk, OnOk, None, string_bytes, true, false};
ghost use Rattle.ttree_tap.specs.Tap.{given_taken, is_kept_plan, is_unjudged, missed, number_taken, one_counted, plan_kept, plan_missed, plan_set, plan_taken, restarted, result_in, result_placed, result_taken, results_missed, script_missed, skip_emitted, subtest_ended, waiting_of, without_heading};
ghost use Rattle.ttree_tap.specs.Texts.{label_of, leaf_label, length_if, missing_text, name_as, no_plan_text, plan_text, reason_as, result_name, subtest_label};

use super::subtests::Subtest;
use super::waiting::{Waiting, end_fields};
use super::{Mode, Tap};
use crate::line::{
    Directive, described, directive_of, elapsed_of, number_of, parts_of, plan_reason, planned,
    reason_of,
};
use crate::queue::Role;
use crate::strings::unescaped;
use crate::tally::Verdict;
use std::alloc::{AllocError, Global};
use std::mem;
use tracing_tree_base::Id;
use tracing_tree_base::style::Level;
use tracing_tree_base::text::Text;
use ttree_source::length::length_text;

// Whether a result is `ok`, and its column.
#[derive(Clone, Copy)]
pub(crate) struct Mark {
    pub(super) is_ok: bool,
    pub(super) column: usize,
}

impl Mark {
    pub(super) fn passing(column: usize) -> Mark
        ensures { result ≡ record { is_ok = true; column = column } }
    {
        Mark {
            is_ok: true,
            column,
        }
    }

    pub(super) fn failing(column: usize) -> Mark
        ensures { result ≡ record { is_ok = false; column = column } }
    {
        Mark {
            is_ok: false,
            column,
        }
    }
}

impl Tap {
    // Takes a result, by what follows its `ok`. It ends the subtest before it.
    #[tactic(auto, unfolding(crate::specs::Tap::result_taken))]
    pub(super) fn take_result(&mut self, mark: Mark, rest: &str) -> Result<(), AllocError>
        ensures { OnOk result (self.new ≡ result_taken mark rest.now self.old) }
    {
        self.leave_inner(mark.column)?;
        self.deepen(mark.column)?;
        self.heading = None;
        self.place(mark, rest)
    }

    // Ends the subtest that runs, or adds a result to it. A subtest in braces is unfinished if a
    // result comes before its brace.
    fn place(&mut self, mark: Mark, rest: &str) -> Result<(), AllocError>
        ensures { OnOk result (self.new ≡ result_placed mark rest.now self.old) }
    {
        if mark.column >= self.subtest.column {
            return self.take_beside(mark, rest);
        }
        if self.subtest.result.is_some() {
            self.leave()?;
            return self.take_beside(mark, rest);
        }
        self.end_subtest(mark, rest)
    }

    // Ends the subtest that runs by its result.
    #[tactic(auto, unfolding(crate::specs::Tap::subtest_ended))]
    pub(super) fn end_subtest(&mut self, mark: Mark, rest: &str) -> Result<(), AllocError>
        ensures { OnOk result (self.new ≡ subtest_ended mark rest.now self.old) }
    {
        let Some(parent) = self.outer.pop_front() else {
            return Ok(());
        };
        let subtest = mem::replace(&mut self.subtest, parent);
        self.check_plan(subtest.planned, subtest.ran, subtest.span)?;
        self.wait_for(subtest.span, subtest.name.as_str(), mark, rest)
    }

    // Counts a result of the subtest that runs, and waits for its block. It ends the subtest with
    // this span and this name, if there is one.
    #[tactic(auto, unfolding(crate::specs::Tap::result_in))]
    pub(super) fn wait_for(
        &mut self,
        span: Option<Id>,
        name: &str,
        mark: Mark,
        rest: &str,
    ) -> Result<(), AllocError>
        ensures { OnOk result (self.new ≡ result_in span name.now mark rest.now self.old) }
    {
        self.take_number(number_of(rest))?;
        let waiting = self.waiting_of(span, name, mark, rest)?;
        self.tally = self.tally.with(waiting.verdict);
        self.waiting = Some(waiting);
        Ok(())
    }

    #[tactic(auto, unfolding(crate::specs::Tap::waiting_of))]
    fn waiting_of(
        &self,
        span: Option<Id>,
        name: &str,
        mark: Mark,
        rest: &str,
    ) -> Result<Waiting, AllocError>
        ensures { IfOk result (λ made. made ≡ waiting_of span name.now mark rest.now self.now) }
    {
        let alloc = self.alloc;
        let text = described(rest);
        let parts = parts_of(text);
        let directive = directive_of(parts.tail);
        let text = unescaped(alloc, name_as(directive, text, parts.label))?;
        Ok(Waiting {
            column: mark.column,
            verdict: Verdict::of(mark.is_ok, directive),
            label: label_of(alloc, span, name, text, self.subtest.last)?,
            reason: unescaped(alloc, reason_as(directive, parts.tail))?,
            elapsed: length_if(alloc, elapsed_of(parts.tail))?,
            span,
            parent: self.subtest.span,
            margin: Text::from_str(alloc, "")?,
        })
    }

    // Counts a result with this number.
    #[tactic(auto, unfolding(crate::specs::Tap::number_taken))]
    fn take_number(&mut self, number: Option<u64>) -> Result<(), AllocError>
        ensures { OnOk result (self.new ≡ number_taken number self.old) }
    {
        match number {
            Some(number) => self.take_given(number),
            None => {
                self.count_one(self.subtest.last.saturating_add(1));
                Ok(())
            }
        }
    }

    // Takes a result with this number. The number 1 starts again, and numbers in between are
    // missing.
    fn take_given(&mut self, number: u64) -> Result<(), AllocError>
        ensures { OnOk result (self.new ≡ given_taken number self.old) }
    {
        if number == 1 && self.subtest.ran != 0 {
            self.restart()?;
        }
        self.miss(self.subtest.last.saturating_add(1), number)?;
        self.count_one(number);
        Ok(())
    }

    fn count_one(&mut self, number: u64)
        ensures { self.new ≡ one_counted number self.old }
    {
        self.subtest.ran = self.subtest.ran.saturating_add(1);
        self.subtest.last = number;
    }

    // Reports the numbers from `first` up to this one as missing.
    fn miss(&mut self, first: u64, number: u64) -> Result<(), AllocError>
        ensures { OnOk result (self.new ≡ missed first number self.old) }
    {
        if number <= first {
            return Ok(());
        }
        let mut text = String::new(self.alloc);
        push_missing(&mut text, first, number - 1)?;
        self.push_error(text.as_str(), self.subtest.span)
    }

    // Ends the results so far.
    fn restart(&mut self) -> Result<(), AllocError>
        ensures { OnOk result (self.new ≡ restarted self.old) }
    {
        self.check_results()?;
        self.subtest.planned = None;
        self.subtest.ran = 0;
        self.subtest.last = 0;
        Ok(())
    }

    // Checks the plan of what runs.
    fn check_results(&mut self) -> Result<(), AllocError>
        ensures { OnOk result (self.new ≡ results_missed self.old) }
    {
        let planned = self.subtest.planned;
        let ran = self.subtest.ran;
        let span = self.subtest.span;
        if self.outer.is_empty() {
            self.check_script(planned, ran, span)
        } else {
            self.check_plan(planned, ran, span)
        }
    }

    // Checks the plan of a script. If it isn't met, or there is none, that is an error.
    pub(super) fn check_script(
        &mut self,
        planned: Option<u64>,
        ran: u64,
        span: Option<Id>,
    ) -> Result<(), AllocError>
        ensures { OnOk result (self.new ≡ script_missed planned ran span self.old) }
    {
        if planned.is_some() || !is_unjudged(self.mode) {
            return self.check_plan(planned, ran, span);
        }
        let mut text = String::new(self.alloc);
        push_no_plan(&mut text, ran)?;
        self.push_error(text.as_str(), span)
    }

    // Checks the plan. If it isn't met, that is an error.
    pub(super) fn check_plan(
        &mut self,
        planned: Option<u64>,
        ran: u64,
        span: Option<Id>,
    ) -> Result<(), AllocError>
        ensures { OnOk result (self.new ≡ plan_missed planned ran span self.old) }
    {
        match planned {
            Some(count) if count != ran => {
                let mut text = String::new(self.alloc);
                push_plan(&mut text, count, ran)?;
                self.push_error(text.as_str(), span)
            }
            _ => Ok(()),
        }
    }

    #[tactic(auto, unfolding(crate::specs::Tap::plan_taken))]
    pub(super) fn take_plan(&mut self, column: usize, text: &str) -> Result<(), AllocError>
        ensures { OnOk result (self.new ≡ plan_taken column text.now self.old) }
    {
        self.leave_deeper(column)?;
        self.deepen(column)?;
        self.set_plan(planned(text))?;
        if planned(text) == 0 {
            return self.push_skip(plan_reason(text));
        }
        Ok(())
    }

    // Sets the plan. A second plan starts again.
    #[tactic(auto, unfolding(crate::specs::Tap::plan_set))]
    fn set_plan(&mut self, count: u64) -> Result<(), AllocError>
        ensures { OnOk result (self.new ≡ plan_set count self.old) }
    {
        if self.subtest.planned.is_some() {
            self.restart()?;
        }
        self.keep_plan(count);
        Ok(())
    }

    // Keeps a plan. prove's verdict says whether that of a file is met.
    fn keep_plan(&mut self, count: u64)
        ensures { self.new ≡ plan_kept count self.old }
    {
        if self.is_kept_plan() {
            self.subtest.planned = Some(count);
        }
    }

    fn is_kept_plan(&self) -> bool
        ensures { result ≡ is_kept_plan self.now }
    {
        match self.mode {
            Mode::Judged => !self.outer.is_empty(),
            _ => true,
        }
    }

    // Reports that everything is skipped.
    #[tactic(auto, unfolding(crate::specs::Tap::skip_emitted))]
    fn push_skip(&mut self, reason: &str) -> Result<(), AllocError>
        ensures { OnOk result (self.new ≡ skip_emitted reason.now self.old) }
    {
        let reason = unescaped(self.alloc, reason)?;
        let fields = end_fields(self.alloc, reason.as_str(), "")?;
        let span = self.subtest.span;
        self.push_row(Role::Good, Level::Warn, "skip", fields, span)
    }
}

// Returns the description of a result, without its note.
pub(super) fn name_in(rest: &str) -> &str
    ensures { result.now ≡ result_name rest.now }
{
    let text = described(rest);
    let parts = parts_of(text);
    name_as(directive_of(parts.tail), text, parts.label)
}

fn name_as<'a>(directive: Directive, text: &'a str, label: &'a str) -> &'a str
    ensures { result.now ≡ name_as directive text.now label.now }
{
    match directive {
        Directive::Absent => text,
        Directive::Skip | Directive::Todo | Directive::Time => label,
    }
}

fn reason_as(directive: Directive, tail: &str) -> &str
    ensures { result.now ≡ reason_as directive tail.now }
{
    match directive {
        Directive::Skip | Directive::Todo => reason_of(tail),
        Directive::Time | Directive::Absent => "",
    }
}

// Returns a length of time, or nothing.
pub(super) fn length_if(alloc: Global, nanoseconds: Option<u64>) -> Result<Text, AllocError>
    ensures { IfOk result (λ text. text ≡ length_if nanoseconds) }
{
    match nanoseconds {
        Some(nanoseconds) => length_text(alloc, nanoseconds),
        None => Text::from_str(alloc, ""),
    }
}

// Returns whether prove gives no verdict on what is read.
fn is_unjudged(mode: Mode) -> bool
    ensures { result ≡ is_unjudged mode }
{
    matches!(mode, Mode::Script | Mode::File)
}

// Returns what is shown behind the verdict of a result with this description: nothing if its
// subtest has this name.
fn label_of(
    alloc: Global,
    span: Option<Id>,
    name: &str,
    description: Text,
    number: u64,
) -> Result<Text, AllocError>
    ensures { IfOk result (λ label. label ≡ label_of span name.now description number) }
{
    match span {
        Some(_) => subtest_label(alloc, name, description),
        None => leaf_label(alloc, description, number),
    }
}

fn subtest_label(alloc: Global, name: &str, description: Text) -> Result<Text, AllocError>
    ensures { IfOk result (λ label. label ≡ subtest_label name.now description) }
{
    if description.as_str() == name {
        return Text::from_str(alloc, "");
    }
    Ok(description)
}

// Returns the label of a result. Without a description it is the number.
fn leaf_label(alloc: Global, description: Text, number: u64) -> Result<Text, AllocError>
    ensures { IfOk result (λ label. label ≡ leaf_label description number) }
{
    if description.as_str().is_empty() {
        return Ok(Text::from(number.to_string(alloc)?));
    }
    Ok(description)
}

// Appends which numbers are missing.
fn push_missing(out: &mut String, first: u64, last: u64) -> Result<(), AllocError>
    ensures { OnOk result (string_bytes out.new ≡ string_bytes out.old ++ missing_text first last) }
{
    if first == last {
        return write!(out, "missing {first}");
    }
    write!(out, "missing {first} to {last}")
}

// Appends how many tests ran without a plan.
fn push_no_plan(out: &mut String, ran: u64) -> Result<(), AllocError>
    ensures { OnOk result (string_bytes out.new ≡ string_bytes out.old ++ no_plan_text ran) }
{
    write!(out, "no plan, ran {ran}")
}

// Appends how many tests a plan has, and how many ran.
fn push_plan(out: &mut String, count: u64, ran: u64) -> Result<(), AllocError>
    ensures { OnOk result (string_bytes out.new ≡ string_bytes out.old ++ plan_text count ran) }
{
    write!(out, "planned {count}, ran {ran}")
}
