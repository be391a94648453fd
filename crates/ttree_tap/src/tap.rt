//! Lines of TAP.

ghost use Rattle.std.specs.Prelude.{◌≡◌, [], false, true, IfOk, OnOk, None, Some};
ghost use Rattle.ttree_tap.specs.Tap.{all_ended, script_begun, begun_first, bailed_out, comment_taken, heading_ended, heading_taken, input_ended, is_in_block, is_passed_over, kind_taken, tap_line_taken, next_taken, nothing_run, output_taken, part_of, part_taken, reporter_counts, summary_taken, tally_call, text_taken, unheld_taken};
ghost use Rattle.ttree_tap.specs.Texts.{unfinished_text};
ghost use Rattle.ttree_tap.specs.Tally.{tally_has_failure};

mod block;
mod braces;
mod prove;
mod results;
mod rows;
mod subtests;
mod waiting;

use crate::line::{Kind, comment_of, is_count, kind_of};
use crate::queue::{Queue, Role};
use crate::strings::{
    column_of, rest_after, unescaped, without_end, without_leading, without_margin,
};
use crate::tally::Tally;
use braces::Braced;
use json::Value;
use prove::{Part, part_of};
use results::Mark;
use std::alloc::{AllocError, Global};
use std::collections::VecDeque;
use std::marker::Model;
use std::mem;
use subtests::{Heading, Subtest};
use tracing_tree_base::field::Fields;
use tracing_tree_base::style::Level;
use tracing_tree_base::text::Text;
use tracing_tree_layer::call::Call;
use tracing_tree_lines::lines::is_skipped;
use tracing_tree_time::Moment;
use ttree_source::calls::event_call;
use ttree_source::notes::Problem;
use ttree_source::source::Source;
use waiting::Waiting;

// Which lines are read.
#[derive(Clone, Copy)]
enum Mode {
    // No line of TAP has come: the next line may name a file.
    Start,
    // The lines of a script.
    Script,
    // The lines of a script in prove's output, before prove's verdict on it.
    File,
    // The lines after prove's verdict: the next line may name another file.
    Judged,
    // prove's summary, which isn't drawn.
    Summary,
    // prove's summary is over: the next line may name a file.
    Over,
    // `Bail out!` has ended everything.
    Bailed,
}

/// The tests of TAP.
///
/// A result waits for the line after it, or for its block, and is then one event, or a span if its
/// block has more than its time. A subtest is a span. The last event counts the results.
#[derive(Drop)]
pub struct Tap {
    alloc: Global,
    // The id that the next span gets.
    next: u64,
    moment: Moment,
    mode: Mode,
    // The innermost subtest that runs, or the script.
    subtest: Subtest,
    // Those around it, the nearest first.
    outer: VecDeque<Subtest>,
    // The name of a subtest that opens with the next line if that is deeper.
    heading: Option<Heading>,
    // The result that waits for its block.
    waiting: Option<Waiting>,
    // The result with a brace at its end, if it was the last line.
    braced: Option<Braced>,
    tally: Tally,
    queue: Queue,
}

impl Model for Tap {
    ghost use Rattle.ttree_tap.specs.Tap.{TapState};

    ghost Value = { TapState };

    ghost view = { λ t. record {
      next = t.next;
      moment = t.moment;
      mode = t.mode;
      subtest = t.subtest;
      outer = t.outer.items;
      heading = t.heading;
      waiting = t.waiting;
      braced = t.braced;
      tally = t.tally;
      queue = t.queue;
    } };
}

impl Tap {
    /// Creates a source that has read nothing. Its first span gets the id `next`, and its calls are
    /// made at `moment`: lines of TAP don't say when they were written.
    ///
    /// # Errors
    ///
    /// `AllocError` if an allocation fails.
    pub fn new(alloc: Global, next: u64, moment: Moment) -> Result<Tap, AllocError>
        ensures { IfOk result (λ source. source ≡ nothing_run false next moment) }
    {
        Tap::starting(alloc, false, next, moment)
    }

    /// Creates a source like `new` does, that reports only what failed. Results that passed, were
    /// skipped or are TODO are left out, with the lines before them, and so are subtests and files
    /// without a failure. Lines after a failure belong to it, and of those before it the
    /// output, and the comments from one with its name on. The last event counts all results.
    ///
    /// # Errors
    ///
    /// `AllocError` if an allocation fails.
    pub fn only_failed(alloc: Global, next: u64, moment: Moment) -> Result<Tap, AllocError>
        ensures { IfOk result (λ source. source ≡ nothing_run true next moment) }
    {
        Tap::starting(alloc, true, next, moment)
    }

    fn starting(
        alloc: Global,
        is_failed_only: bool,
        next: u64,
        moment: Moment,
    ) -> Result<Tap, AllocError>
        ensures { IfOk result (λ source. source ≡ nothing_run is_failed_only next moment) }
    {
        Ok(Tap {
            alloc,
            next,
            moment,
            mode: Mode::Start,
            subtest: Subtest::script(alloc)?,
            outer: VecDeque::new(alloc),
            heading: None,
            waiting: None,
            braced: None,
            tally: Tally::new(),
            queue: Queue::new(alloc, is_failed_only),
        })
    }

    /// Returns whether a test failed, or anything else that must not: a plan that isn't met, a
    /// missing number, a script without a plan, a subtest without a result, `Bail out!`, a
    /// verdict or a summary of prove, or an input without a line of TAP.
    pub fn has_failed(&self) -> bool
        ensures { result ≡ tally_has_failure self.now.tally }
    {
        self.tally.has_failed()
    }

    /// Returns how many results came to which end.
    pub fn tally(&self) -> Tally
        ensures { result ≡ self.now.tally }
    {
        self.tally
    }

    // Hands out the calls.
    fn take_calls(&mut self) -> Vec<Call>
        ensures calls { result.items ≡ self.old.queue.ready }
        ensures rest { self.new ≡ record self.old { queue = record self.old.queue { ready = [] } } }
    {
        self.queue.take()
    }

    // Returns whether a line is blank and no line of a block.
    fn is_passed_over(&self, line: &str) -> bool
        ensures { result ≡ is_passed_over line.now self.now }
    {
        is_skipped(line.as_bytes()) && !self.is_in_block()
    }

    fn is_in_block(&self) -> bool
        ensures { result ≡ is_in_block self.now.waiting }
    {
        match &self.waiting {
            Some(waiting) => !waiting.margin.as_str().is_empty(),
            None => false,
        }
    }

    #[tactic(auto, unfolding(crate::specs::Tap::tap_line_taken))]
    fn take_line(&mut self, line: &str) -> Result<(), AllocError>
        ensures { OnOk result (self.new ≡ tap_line_taken line.now self.old) }
    {
        let text = without_end("\r", line);
        match self.mode {
            Mode::Bailed => Ok(()),
            Mode::Summary => self.take_summary(text),
            Mode::Start | Mode::Script | Mode::File | Mode::Judged | Mode::Over => {
                self.take_text(text)
            }
        }
    }

    // Takes a line without its line end.
    #[tactic(auto, unfolding(crate::specs::Tap::text_taken))]
    fn take_text(&mut self, text: &str) -> Result<(), AllocError>
        ensures { OnOk result (self.new ≡ text_taken text.now self.old) }
    {
        match mem::replace(&mut self.braced, None) {
            Some(braced) => self.take_held(braced, text),
            None => self.take_unheld(text),
        }
    }

    // Takes a line that has nothing to do with a brace before it.
    #[tactic(auto, unfolding(crate::specs::Tap::unheld_taken))]
    fn take_unheld(&mut self, text: &str) -> Result<(), AllocError>
        ensures { OnOk result (self.new ≡ unheld_taken text.now self.old) }
    {
        match mem::replace(&mut self.waiting, None) {
            Some(waiting) => self.take_after(waiting, text),
            None => self.take_next(text),
        }
    }

    // Takes a line that belongs to no result before it.
    #[tactic(auto, unfolding(crate::specs::Tap::next_taken))]
    fn take_next(&mut self, text: &str) -> Result<(), AllocError>
        ensures { OnOk result (self.new ≡ next_taken text.now self.old) }
    {
        let inner = without_leading(' ', text);
        if inner.is_empty() {
            return Ok(());
        }
        self.take_part(part_of(self.mode, text), text, inner)
    }

    #[tactic(auto, unfolding(crate::specs::Tap::part_taken))]
    fn take_part(&mut self, part: Part, text: &str, inner: &str) -> Result<(), AllocError>
        ensures { OnOk result (self.new ≡ part_taken part text.now inner.now self.old) }
    {
        match part {
            Part::File => self.take_file(text),
            Part::Verdict(level) => self.take_verdict(level, text),
            Part::Stamp => Ok(()),
            Part::Summary => self.begin_summary(),
            Part::Line => self.take_kind(kind_of(inner), column_of(text, inner), text, inner),
        }
    }

    // Takes a line of this kind, `column` spaces from the front.
    #[tactic(auto, unfolding(crate::specs::Tap::kind_taken))]
    fn take_kind(
        &mut self,
        kind: Kind,
        column: usize,
        text: &str,
        inner: &str,
    ) -> Result<(), AllocError>
        ensures { OnOk result (self.new ≡ kind_taken kind column text.now inner.now self.old) }
    {
        self.begin(kind);
        self.come(column)?;
        match kind {
            Kind::Passing => self.take_result(Mark::passing(column), rest_after("ok", inner)),
            Kind::Failing => self.take_result(Mark::failing(column), rest_after("not ok", inner)),
            Kind::Plan => self.take_plan(column, inner),
            Kind::BailOut => self.bail_out(inner),
            Kind::Heading => self.take_heading(column, rest_after("# Subtest: ", inner)),
            Kind::Comment => self.take_comment(comment_of(inner)),
            Kind::Frame => Ok(()),
            Kind::Brace => self.take_brace(column, text),
            Kind::Output => self.take_output(text),
        }
    }

    // Starts a script, at its first line of TAP.
    #[tactic(auto, unfolding(crate::specs::Tap::script_begun))]
    fn begin(&mut self, kind: Kind)
        ensures { self.new ≡ script_begun kind self.old }
    {
        if matches!(self.mode, Mode::Start | Mode::Over) {
            self.begin_first(kind);
        }
    }

    fn begin_first(&mut self, kind: Kind)
        ensures { self.new ≡ begun_first kind self.old }
    {
        match kind {
            Kind::Comment | Kind::Output | Kind::Brace => {}
            _ => self.mode = Mode::Script,
        }
    }

    #[tactic(auto, unfolding(crate::specs::Tap::heading_taken))]
    fn take_heading(&mut self, column: usize, name: &str) -> Result<(), AllocError>
        ensures { OnOk result (self.new ≡ heading_taken column name.now self.old) }
    {
        self.leave_deeper(column)?;
        let name = unescaped(self.alloc, name)?;
        if self.subtest.column < column {
            return self.open_subtest(column, name);
        }
        self.heading = Some(Heading { column, name });
        Ok(())
    }

    // Takes a comment as an event, unless it is a count of the reporter's summary after the plan.
    #[tactic(auto, unfolding(crate::specs::Tap::comment_taken))]
    fn take_comment(&mut self, comment: &str) -> Result<(), AllocError>
        ensures { OnOk result (self.new ≡ comment_taken comment.now self.old) }
    {
        if self.is_counting() && is_count(comment) {
            return Ok(());
        }
        let text = unescaped(self.alloc, comment)?;
        self.push_line(Role::Comment, text.as_str(), self.subtest.span)
    }

    // Returns whether a reporter's summary may come.
    fn is_counting(&self) -> bool
        ensures { result ≡ reporter_counts self.now }
    {
        self.outer.is_empty() && self.subtest.planned.is_some()
    }

    // Takes a line that a test printed, as an event.
    #[tactic(auto, unfolding(crate::specs::Tap::output_taken))]
    fn take_output(&mut self, text: &str) -> Result<(), AllocError>
        ensures { OnOk result (self.new ≡ output_taken text.now self.old) }
    {
        let shown = without_margin(self.subtest.column, text);
        self.push_line(Role::Output, shown, self.subtest.span)
    }

    // Ends everything.
    #[tactic(auto, unfolding(crate::specs::Tap::bailed_out))]
    fn bail_out(&mut self, text: &str) -> Result<(), AllocError>
        ensures { OnOk result (self.new ≡ bailed_out text.now self.old) }
    {
        self.push_error(text, self.subtest.span)?;
        self.heading = None;
        self.leave_deeper(0)?;
        self.subtest.planned = None;
        self.mode = Mode::Bailed;
        Ok(())
    }

    // Ends what still runs.
    #[tactic(auto, unfolding(crate::specs::Tap::all_ended))]
    fn end_all(&mut self) -> Result<(), AllocError>
        ensures { OnOk result (self.new ≡ all_ended self.old) }
    {
        self.end_brace()?;
        self.flush()?;
        self.end_heading()?;
        self.leave_deeper(0)?;
        self.close_script()?;
        self.end_input()
    }

    // Reports that the input has no line of TAP, or that it ends in prove's summary.
    #[tactic(auto, unfolding(crate::specs::Tap::input_ended))]
    fn end_input(&mut self) -> Result<(), AllocError>
        ensures { OnOk result (self.new ≡ input_ended self.old) }
    {
        match self.mode {
            Mode::Start => self.push_error("no line of TAP", None),
            Mode::Summary => self.push_error("unfinished summary", None),
            _ => Ok(()),
        }
    }

    // Ends a heading. A test whose name was the last line has no result.
    #[tactic(auto, unfolding(crate::specs::Tap::heading_ended))]
    fn end_heading(&mut self) -> Result<(), AllocError>
        ensures { OnOk result (self.new ≡ heading_ended self.old) }
    {
        match mem::replace(&mut self.heading, None) {
            Some(heading) => {
                let text = unfinished_text(self.alloc, heading.name.as_str())?;
                self.push_error(text.as_str(), self.subtest.span)
            }
            None => Ok(()),
        }
    }

    // Returns the event that counts the results.
    fn tally_call(&self, alloc: Global) -> Result<Call, AllocError>
        ensures { IfOk result (λ call. call ≡ tally_call self.now) }
    {
        let fields = self.tally.fields(alloc)?;
        let level = if self.has_failed() {
            Level::Error
        } else {
            Level::Info
        };
        event_call(alloc, self.moment, level, Fields::from(fields), None)
    }
}

fn unfinished_text(alloc: Global, name: &str) -> Result<Text, AllocError>
    ensures { IfOk result (λ text. text ≡ unfinished_text name.now) }
{
    let mut text = String::from_str(alloc, "unfinished ")?;
    text.push_str(name)?;
    Ok(Text::from(text))
}

impl Source for Tap {
    ghost use Rattle.ttree_tap.specs.Tap.{tap_ended, tap_ends, tap_problem, tap_takes};

    ghost takes = { tap_takes };

    ghost ends = { tap_ends };

    ghost ended = { tap_ended };

    ghost value_problem = { tap_problem };

    fn reads_values(&self) -> bool {
        false
    }

    fn take(
        &mut self,
        _alloc: Global,
        line: &str,
        _value: Option<&Value<'_>>,
    ) -> Result<Option<Vec<Call>>, AllocError> {
        if !self.is_passed_over(line) {
            self.take_line(line)?;
        }
        Ok(Some(self.take_calls()))
    }

    fn problem(_value: Option<&Value<'_>>) -> Problem {
        Problem::Object
    }

    fn end(&mut self, alloc: Global) -> Result<Vec<Call>, AllocError> {
        self.end_all()?;
        let mut calls = self.take_calls();
        calls.push(self.tally_call(alloc)?)?;
        Ok(calls)
    }
}
