//! The state after a part of a document.

ghost use Rattle.std.specs.Prelude.{◌≡◌, ◌++◌, [], IfOk, OnOk, pos};
ghost use Rattle.tracing_tree_spans.specs.Registry.Ids.{id_of};
ghost use Rattle.tracing_tree_base.specs.Field.{whole_field};
ghost use Rattle.xml.specs.Token.{token_view};
ghost use Rattle.ttree_junit.specs.Reading.{added_outside, at_start, before_now, called, case_begun, case_counted, case_ended, case_span, case_span_shown, cdata_added, class_entered, class_left, class_opened, element_begun, element_of, end_event, end_shown, ended_as, ended_with, event_shown, evented, failure_ended, innermost_name, innermost_span, is_case_hidden, is_in_class, is_open, is_suite_hidden, last_element_ended, next_element_begun, output_ended, output_shown, outside_shown, part_begun, property_added, property_of, report_span_closed, report_span_opened, row_calls, rows_in_suite, rows_shown, shown_unless_hidden, skip_ended, suite_begun, suite_ended, suite_failed, suite_hidden, tag_begun, taken, text_added, wants_class};

mod ending;

use crate::case::{Case, Outcome, level_of, time_fields};
use crate::element::{Element, element_named, is_of_report, role_of};
use crate::failure::push_failure;
use crate::lines::{Row, is_blank_text, push_lines};
use crate::plain::push_plain;
use crate::seconds::nanoseconds_of;
use crate::tag::{Part, Tag};
use std::alloc::{AllocError, Global};
use std::marker::Model;
use std::mem;
use tracing_tree_base::Id;
use tracing_tree_base::field::{Field, Fields};
use tracing_tree_base::style::Level;
use tracing_tree_base::text::Text;
use tracing_tree_layer::call::Call;
use tracing_tree_time::Moment;
use ttree_source::calls::{close_call, event_call, message_field, record_call, shown, span_call};
use xml::Token;

/// Which cases and suites are shown.
#[derive(Clone, Copy, Debug, PartialEq, Eq)]
pub enum Selection {
    All,

    /// Only the cases that failed, and the suites with a failure.
    Failures,
}

// The state before a suite, for one that isn't shown: how many calls there were, the id that the
// next span would have got, and how many failures there were.
#[derive(Clone, Copy, Debug)]
pub(crate) struct Before {
    calls: usize,
    next: u64,
    failed: u64,
}

// A suite that is open.
#[derive(Debug, Drop)]
pub(crate) struct Suite {
    name: Text,
    nanoseconds: Option<u64>,
    span: Id,
    before: Before,
}

// The span of consecutive cases of a class.
#[derive(Debug, Drop)]
pub(crate) struct Class {
    name: Text,
    span: Id,
}

/// How many cases ended how.
#[derive(Clone, Copy, Debug, PartialEq, Eq)]
pub struct Tally {
    /// The cases that passed.
    pub passed: u64,

    /// The cases that failed, and the failures of suites.
    pub failed: u64,

    /// The cases that were skipped, or weren't run.
    pub skipped: u64,
}

// The state after a part of a document: the open elements, suites, case and part, each with the
// innermost last, and the calls.
#[derive(Drop)]
pub(crate) struct Junit {
    alloc: Global,
    selection: Selection,
    // The id that the next span gets.
    next: u64,
    moment: Moment,
    // The text around the document that isn't shown yet.
    outside: String,
    // An element of a report has begun.
    is_report: bool,
    elements: Vec<Element>,
    tag: Tag,
    suites: Vec<Suite>,
    class: Option<Class>,
    // A case is open. It stays so if the document ends in it.
    in_case: bool,
    // The case that is read, or the last one.
    case: Case,
    in_part: bool,
    part: Part,
    tally: Tally,
    calls: Vec<Call>,
}

impl Model for Junit {
    ghost use Rattle.std.specs.Prelude.{string_bytes};
    ghost use Rattle.ttree_junit.specs.Junit.{JunitState};

    ghost Value = { JunitState };

    ghost view = { λ j. record {
      selection = j.selection;
      next = j.next;
      moment = j.moment;
      outside = string_bytes j.outside;
      is_report = j.is_report;
      elements = j.elements.items;
      tag = j.tag;
      suites = j.suites.items;
      class = j.class;
      in_case = j.in_case;
      case = j.case;
      in_part = j.in_part;
      part = j.part;
      tally = j.tally;
      calls = j.calls.items;
    } };
}

impl Junit {
    // Returns the state before the first token. The first span gets the id `next`.
    pub(crate) fn new(
        alloc: Global,
        selection: Selection,
        next: u64,
        moment: Moment,
    ) -> Result<Junit, AllocError>
        ensures { IfOk result (λ junit. junit ≡ at_start selection next moment) }
    {
        let tag = Tag::new(alloc, "")?;
        let case = Case::new(alloc, &tag)?;
        Ok(Junit {
            alloc,
            selection,
            next,
            moment,
            outside: String::new(alloc),
            is_report: false,
            elements: Vec::new(alloc),
            tag,
            suites: Vec::new(alloc),
            class: None,
            in_case: false,
            case,
            in_part: false,
            part: Part::new(alloc, "", "")?,
            tally: Tally {
                passed: 0,
                failed: 0,
                skipped: 0,
            },
            calls: Vec::new(alloc),
        })
    }

    pub(crate) fn tally(&self) -> Tally
        ensures { result ≡ self.now.tally }
    {
        self.tally
    }

    // Returns whether an element of a report has begun.
    pub(crate) fn is_report(&self) -> bool
        ensures { result ≡ self.now.is_report }
    {
        self.is_report
    }

    // Returns whether an element is open.
    pub(crate) fn is_open(&self) -> bool
        ensures { result ≡ is_open self.now }
    {
        !self.elements.is_empty()
    }

    pub(crate) fn into_calls(self) -> Vec<Call>
        ensures { result.items ≡ self.calls }
    {
        self.calls
    }

    // ---- tokens

    pub(crate) fn take(&mut self, token: &Token<'_>) -> Result<(), AllocError>
        ensures { OnOk result (self.new ≡ taken (token_view token.now) self.old) }
    {
        match token {
            Token::StartTag(name) => self.begin_tag(name),
            Token::Attribute(name, value) => self.tag.add(self.alloc, name, value),
            Token::TagEnd => self.begin(),
            Token::EmptyTagEnd => self.begin_and_end(),
            Token::EndTag(_) => self.end(),
            Token::Text(run) => self.add_text(run),
            Token::Cdata(part) => self.add_cdata(part),
            Token::Skipped => Ok(()),
        }
    }

    fn begin_tag(&mut self, name: &str) -> Result<(), AllocError>
        ensures { OnOk result (self.new ≡ tag_begun name.now self.old) }
    {
        self.tag = Tag::new(self.alloc, name)?;
        Ok(())
    }

    fn begin_and_end(&mut self) -> Result<(), AllocError>
        ensures { OnOk result (self.new ≡ last_element_ended (next_element_begun self.old)) }
    {
        self.begin()?;
        self.end()
    }

    fn add_text(&mut self, run: &str) -> Result<(), AllocError>
        ensures { OnOk result (self.new ≡ text_added run.now self.old) }
    {
        if self.in_part {
            self.part.add_text(run)
        } else {
            self.add_outside(run)
        }
    }

    // Adds text that is outside of all elements.
    fn add_outside(&mut self, run: &str) -> Result<(), AllocError>
        ensures { OnOk result (self.new ≡ added_outside run.now self.old) }
    {
        if self.is_open() {
            Ok(())
        } else {
            self.outside.push_str(run)
        }
    }

    fn add_cdata(&mut self, part: &str) -> Result<(), AllocError>
        ensures { OnOk result (self.new ≡ cdata_added part.now self.old) }
    {
        if self.in_part {
            self.part.add_cdata(part)
        } else {
            Ok(())
        }
    }

    // Opens the element of the tag.
    fn begin(&mut self) -> Result<(), AllocError>
        ensures { OnOk result (self.new ≡ next_element_begun self.old) }
    {
        self.show_outside()?;
        self.begin_element()
    }

    // Shows the lines of the text before this place.
    fn show_outside(&mut self) -> Result<(), AllocError>
        ensures { OnOk result (self.new ≡ outside_shown self.old) }
    {
        let outside = mem::replace(&mut self.outside, String::new(self.alloc));
        if is_blank_text(outside.as_str()) {
            return Ok(());
        }
        self.leave_class()?;
        push_plain(self.alloc, &mut self.calls, &self.moment, outside.as_str())
    }

    // The content of a part starts a line.
    fn begin_element(&mut self) -> Result<(), AllocError>
        ensures { OnOk result (self.new ≡ element_begun self.old) }
    {
        let element = self.element();
        self.is_report = self.is_report || is_of_report(self.tag.name());
        self.elements.push(element)?;
        match element {
            Element::Suite => self.begin_suite(),
            Element::Case => self.begin_case(),
            Element::Failure | Element::Rerun | Element::Skipped | Element::Output => {
                self.begin_part()
            }
            Element::Property => self.add_property(),
            Element::Other => self.add_cdata("\n"),
        }
    }

    // Returns what the element of the tag is here.
    fn element(&self) -> Element
        ensures { result ≡ element_of self.now }
    {
        role_of(element_named(self.tag.name()), self.in_case, self.in_part)
    }

    // Ends the innermost element.
    fn end(&mut self) -> Result<(), AllocError>
        ensures { OnOk result (self.new ≡ last_element_ended self.old) }
    {
        match self.elements.pop() {
            Some(element) => self.end_element(element),
            None => Ok(()),
        }
    }

    fn end_element(&mut self, element: Element) -> Result<(), AllocError>
        ensures { OnOk result (self.new ≡ ended_as element self.old) }
    {
        match element {
            Element::Suite => self.end_suite(),
            Element::Case => self.end_case(),
            Element::Failure => self.end_failure(Level::Error),
            Element::Rerun => self.end_failure(Level::Warn),
            Element::Skipped => self.end_skipped(),
            Element::Output => self.end_output(),
            Element::Property | Element::Other => Ok(()),
        }
    }

    // ---- suites

    // Returns the span of the innermost suite.
    fn innermost_span(&self) -> Option<Id>
        ensures { result ≡ innermost_span self.now.suites }
    {
        match self.suites.as_slice().last() {
            Some(suite) => Some(suite.span),
            None => None,
        }
    }

    // Returns the name of the innermost suite. It is empty if there isn't one.
    fn innermost_name(&self) -> &str
        ensures { result.now ≡ innermost_name self.now.suites }
    {
        match self.suites.as_slice().last() {
            Some(suite) => suite.name.as_str(),
            None => "",
        }
    }

    fn call(&mut self, call: Call) -> Result<(), AllocError>
        ensures { OnOk result (self.new ≡ called call self.old) }
    {
        Ok(self.calls.push(call)?)
    }

    // Opens a span, and returns its id.
    fn open(&mut self, name: &str, fields: Fields, parent: Option<Id>) -> Result<Id, AllocError>
        ensures opened { OnOk result
            (self.new ≡ report_span_opened name.now fields parent self.old) }
        ensures span { IfOk result (λ span. span ≡ id_of self.old.next) }
    {
        let call = span_call(self.alloc, self.moment, name, fields, parent)?;
        self.calls.push(call)?;
        let span = Id(self.next);
        self.next = self.next.saturating_add(1);
        Ok(span)
    }

    fn event(&mut self, level: Level, fields: Fields, at: Option<Id>) -> Result<(), AllocError>
        ensures { OnOk result (self.new ≡ evented level fields at self.old) }
    {
        let call = event_call(self.alloc, self.moment, level, fields, at)?;
        Ok(self.calls.push(call)?)
    }

    fn close(&mut self, span: Id, parent: Option<Id>) -> Result<(), AllocError>
        ensures { OnOk result (self.new ≡ report_span_closed span parent self.old) }
    {
        Ok(self.calls.push(close_call(self.moment, span, parent))?)
    }

    fn begin_suite(&mut self) -> Result<(), AllocError>
        ensures { OnOk result (self.new ≡ suite_begun self.old) }
    {
        self.leave_class()?;
        let name = Text::from_str(self.alloc, self.tag.value("name"))?;
        let nanoseconds = nanoseconds_of(self.tag.value("time"));
        let before = self.before();
        let parent = self.innermost_span();
        let span = self.open(name.as_str(), Fields::new(self.alloc), parent)?;
        Ok(
            self.suites.push(Suite {
                name,
                nanoseconds,
                span,
                before,
            })?,
        )
    }

    // Returns what a suite that isn't shown leaves.
    fn before(&self) -> Before
        ensures { result ≡ before_now self.now }
    {
        Before {
            calls: self.calls.len(),
            next: self.next,
            failed: self.tally.failed,
        }
    }

    // Returns whether a suite isn't shown: only failures are, and it has none.
    fn is_suite_hidden(&self, suite: &Suite) -> bool
        ensures { result ≡ is_suite_hidden suite.now self.now }
    {
        self.selection == Selection::Failures && self.tally.failed == suite.before.failed
    }

    // Leaves out the calls since the beginning of a suite.
    fn hide_suite(&mut self, suite: &Suite)
        ensures { self.new ≡ suite_hidden suite.now self.old }
    {
        self.calls.truncate(suite.before.calls);
        self.next = suite.before.next;
    }

    fn end_suite(&mut self) -> Result<(), AllocError>
        ensures { OnOk result (self.new ≡ suite_ended self.old) }
    {
        self.leave_class()?;
        match self.suites.pop() {
            Some(suite) => self.end_with(&suite),
            None => Ok(()),
        }
    }

    // Ends a suite.
    fn end_with(&mut self, suite: &Suite) -> Result<(), AllocError>
        ensures { OnOk result (self.new ≡ ended_with suite.now self.old) }
    {
        if self.is_suite_hidden(suite) {
            self.hide_suite(suite);
            return Ok(());
        }
        self.show_suite_end(suite)?;
        self.close(suite.span, self.innermost_span())
    }

    // Shows the end of a suite with a time.
    fn show_suite_end(&mut self, suite: &Suite) -> Result<(), AllocError>
        ensures { OnOk result (self.new ≡ end_event suite.now self.old) }
    {
        if suite.nanoseconds.is_none() {
            return Ok(());
        }
        let mut fields = Fields::one(self.alloc, message_field(self.alloc, "end")?);
        fields.append(time_fields(self.alloc, suite.nanoseconds)?)?;
        self.event(Level::Info, fields, Some(suite.span))
    }

    // ---- classes

    // Returns whether the case is in a span of its class.
    fn wants_class(&self) -> bool
        ensures { result ≡ wants_class self.now }
    {
        let classname = self.case.classname();
        !(classname.is_empty()
            || classname == "test"
            || classname == self.case.name()
            || classname == self.innermost_name())
    }

    // Returns whether the span of the case's class is open.
    fn is_in_class(&self) -> bool
        ensures { result ≡ is_in_class self.now.class self.now.case.classname }
    {
        match &self.class {
            Some(class) => class.name.as_str() == self.case.classname(),
            None => false,
        }
    }

    // Enters the span that the case is nested in.
    fn enter_class(&mut self) -> Result<(), AllocError>
        ensures { OnOk result (self.new ≡ class_entered self.old) }
    {
        if !self.wants_class() {
            return self.leave_class();
        }
        if self.is_in_class() {
            return Ok(());
        }
        self.leave_class()?;
        self.open_class()
    }

    fn open_class(&mut self) -> Result<(), AllocError>
        ensures { OnOk result (self.new ≡ class_opened self.old) }
    {
        let name = Text::from_str(self.alloc, self.case.classname())?;
        let parent = self.innermost_span();
        let span = self.open(name.as_str(), Fields::new(self.alloc), parent)?;
        self.class = Some(Class { name, span });
        Ok(())
    }

    fn leave_class(&mut self) -> Result<(), AllocError>
        ensures { OnOk result (self.new ≡ class_left self.old) }
    {
        match self.class.take() {
            Some(class) => self.close(class.span, self.innermost_span()),
            None => Ok(()),
        }
    }

    // Returns the span that cases are nested in.
    fn case_span(&self) -> Option<Id>
        ensures { result ≡ case_span self.now.class self.now.suites }
    {
        match &self.class {
            Some(class) => Some(class.span),
            None => self.innermost_span(),
        }
    }

    // ---- cases

    fn begin_case(&mut self) -> Result<(), AllocError>
        ensures { OnOk result (self.new ≡ case_begun self.old) }
    {
        self.case = Case::new(self.alloc, &self.tag)?;
        self.in_case = true;
        Ok(())
    }

    fn end_case(&mut self) -> Result<(), AllocError>
        ensures { OnOk result (self.new ≡ case_ended self.old) }
    {
        self.in_case = false;
        self.count();
        self.show_case()
    }

    // Shows the case in the span of its class.
    fn show_case(&mut self) -> Result<(), AllocError>
        ensures { OnOk result (self.new ≡ shown_unless_hidden self.old) }
    {
        if self.is_case_hidden() {
            return Ok(());
        }
        self.enter_class()?;
        if self.case.is_bare() {
            self.show_event()
        } else {
            self.show_span()
        }
    }

    // Returns whether the case isn't shown: only failures are, and it passed or was skipped.
    fn is_case_hidden(&self) -> bool
        ensures { result ≡ is_case_hidden self.now }
    {
        self.selection == Selection::Failures
            && matches!(self.case.outcome(), Outcome::Passed | Outcome::Skipped)
    }

    fn count(&mut self)
        ensures { self.new ≡ case_counted self.old }
    {
        match self.case.outcome() {
            Outcome::Passed => self.tally.passed = self.tally.passed.saturating_add(1),
            Outcome::Failed => self.tally.failed = self.tally.failed.saturating_add(1),
            Outcome::Skipped => self.tally.skipped = self.tally.skipped.saturating_add(1),
            Outcome::Unfinished => {}
        }
    }

    // Shows a bare case as an event.
    fn show_event(&mut self) -> Result<(), AllocError>
        ensures { OnOk result (self.new ≡ event_shown self.old) }
    {
        let fields = self.case.event_fields(self.alloc)?;
        let level = level_of(self.case.outcome());
        let at = self.case_span();
        self.event(level, fields, at)
    }

    fn show_span(&mut self) -> Result<(), AllocError>
        ensures { OnOk result (self.new ≡ case_span_shown self.old) }
    {
        let name = Text::from_str(self.alloc, self.case.name())?;
        let fields = self.case.fields()?;
        let parent = self.case_span();
        let span = self.open(name.as_str(), fields, parent)?;
        self.show_rows(span)?;
        self.show_end(span)?;
        self.close(span, parent)
    }

    fn show_rows(&mut self, span: Id) -> Result<(), AllocError>
        ensures { OnOk result (self.new ≡ rows_shown span self.old) }
    {
        push_rows(
            self.alloc,
            &mut self.calls,
            self.moment,
            self.case.rows(),
            Some(span),
        )
    }

    fn show_end(&mut self, span: Id) -> Result<(), AllocError>
        ensures { OnOk result (self.new ≡ end_shown span self.old) }
    {
        let fields = self.case.span_fields(self.alloc)?;
        let level = level_of(self.case.outcome());
        self.event(level, fields, Some(span))
    }

    // ---- parts

    fn begin_part(&mut self) -> Result<(), AllocError>
        ensures { OnOk result (self.new ≡ part_begun self.old) }
    {
        self.part = Part::new(self.alloc, self.tag.name(), self.tag.value("message"))?;
        self.in_part = true;
        Ok(())
    }

    fn end_failure(&mut self, level: Level) -> Result<(), AllocError>
        ensures { OnOk result (self.new ≡ failure_ended level self.old) }
    {
        self.in_part = false;
        if self.in_case {
            self.case.add_failure(self.alloc, level, &self.part)
        } else {
            self.fail_suite(level)
        }
    }

    // Shows a failure of a suite, and counts it.
    fn fail_suite(&mut self, level: Level) -> Result<(), AllocError>
        ensures { OnOk result (self.new ≡ suite_failed level self.old) }
    {
        self.tally.failed = self.tally.failed.saturating_add(1);
        self.leave_class()?;
        let mut rows = Vec::new(self.alloc);
        push_failure(self.alloc, &mut rows, level, &self.part)?;
        self.show_in_suite(rows.as_slice())
    }

    // Shows rows in the span of the innermost suite.
    fn show_in_suite(&mut self, rows: &[Row]) -> Result<(), AllocError>
        ensures { OnOk result (self.new ≡ rows_in_suite rows.now self.old) }
    {
        let at = self.innermost_span();
        push_rows(self.alloc, &mut self.calls, self.moment, rows, at)
    }

    fn end_skipped(&mut self) -> Result<(), AllocError>
        ensures { OnOk result (self.new ≡ skip_ended self.old) }
    {
        self.in_part = false;
        self.case.skip(self.alloc, &self.part)
    }

    fn end_output(&mut self) -> Result<(), AllocError>
        ensures { OnOk result (self.new ≡ output_ended self.old) }
    {
        self.in_part = false;
        if self.in_case {
            self.case.add_printed(self.alloc, &self.part)
        } else {
            self.show_output()
        }
    }

    // Shows what a suite printed.
    fn show_output(&mut self) -> Result<(), AllocError>
        ensures { OnOk result (self.new ≡ output_shown self.old) }
    {
        self.leave_class()?;
        let mut rows = Vec::new(self.alloc);
        push_lines(self.alloc, &mut rows, self.part.body())?;
        self.show_in_suite(rows.as_slice())
    }

    // Adds the property of the tag as a field to the case or the suite.
    fn add_property(&mut self) -> Result<(), AllocError>
        ensures { OnOk result (self.new ≡ property_added self.old) }
    {
        let field = property_of(self.alloc, &self.tag)?;
        if self.in_case {
            return self.case.add_property(self.alloc, field);
        }
        match self.innermost_span() {
            Some(span) => self.call(record_call(span, Fields::one(self.alloc, field))),
            None => Ok(()),
        }
    }
}

// Appends the events of these rows.
fn push_rows(
    alloc: Global,
    calls: &mut Vec<Call>,
    moment: Moment,
    rows: &[Row],
    at: Option<Id>,
) -> Result<(), AllocError>
    ensures { OnOk result (calls.new.items ≡ calls.old.items ++ row_calls moment at rows.now) }
{
    for row in rows {
        let message = message_field(alloc, row.text.as_str())?;
        calls.push(event_call(alloc, moment, row.level, Fields::one(alloc, message), at)?)?;
    }
    Ok(())
}

fn property_of(alloc: Global, tag: &Tag) -> Result<Field, AllocError>
    ensures { IfOk result (λ field. field ≡ property_of tag.now) }
{
    Ok(Field {
        name: shown(alloc, tag.value("name"))?,
        value: shown(alloc, tag.value("value"))?,
    })
}
