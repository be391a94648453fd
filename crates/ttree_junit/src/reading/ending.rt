//! The end of a document.

ghost use Rattle.std.specs.Prelude.{◌≡◌, IfOk, OnOk, pos};
ghost use Rattle.tracing_tree_base.specs.Field.{whole_field};
ghost use Rattle.ttree_junit.specs.Document.{rest_taken};
ghost use Rattle.ttree_junit.specs.Reading.{case_cut, cut_as, cut_with, elements_cut, innermost_cut, report_finished, suite_closed, suites_closed, tallied, tally_fields};

use super::{Junit, Suite, Tally};
use crate::element::Element;
use std::alloc::{AllocError, Global};
use tracing_tree_base::field::{Field, Fields};
use tracing_tree_base::style::Level;
use xml::Unfinished;

impl Junit {
    // Takes what comes after the last token of a document that ends in the middle of one.
    pub(crate) fn take_rest(&mut self, unfinished: Unfinished, rest: &str) -> Result<(), AllocError>
        ensures { OnOk result (self.new ≡ rest_taken unfinished rest.now self.old) }
    {
        match unfinished {
            Unfinished::Cdata => self.add_cdata(rest),
            Unfinished::Tag | Unfinished::Comment | Unfinished::Instruction | Unfinished::Doctype =>
                Ok(()),
        }
    }

    // Ends what is open, and counts the cases.
    #[tactic(auto, unfolding(crate::specs::Reading::report_finished))]
    pub(crate) fn finish(&mut self) -> Result<(), AllocError>
        ensures { OnOk result (self.new ≡ report_finished self.old) }
    {
        self.cut_elements()?;
        self.leave_class()?;
        self.close_suites()?;
        self.show_outside()?;
        self.show_tally()
    }

    // Ends the elements that are open, the innermost first.
    fn cut_elements(&mut self) -> Result<(), AllocError>
        ensures { OnOk result (self.new ≡ elements_cut self.old) }
    {
        for _element in 0..self.elements.len() {
            self.cut_innermost()?;
        }
        Ok(())
    }

    fn cut_innermost(&mut self) -> Result<(), AllocError>
        ensures { OnOk result (self.new ≡ innermost_cut self.old) }
    {
        match self.elements.pop() {
            Some(element) => self.cut_element(element),
            None => Ok(()),
        }
    }

    // Ends a part that the document ends in, or shows the case. Suites close later.
    fn cut_element(&mut self, element: Element) -> Result<(), AllocError>
        ensures { OnOk result (self.new ≡ cut_as element self.old) }
    {
        match element {
            Element::Case => self.cut_case(),
            Element::Failure => self.end_failure(Level::Error),
            Element::Rerun => self.end_failure(Level::Warn),
            Element::Skipped => self.end_skipped(),
            Element::Output => self.end_output(),
            Element::Suite | Element::Property | Element::Other => Ok(()),
        }
    }

    // Shows the case that the document ends in. How it ended isn't known, so it isn't counted.
    fn cut_case(&mut self) -> Result<(), AllocError>
        ensures { OnOk result (self.new ≡ case_cut self.old) }
    {
        self.case.cut();
        self.show_case()
    }

    // Shows the counts of the cases of a report.
    fn show_tally(&mut self) -> Result<(), AllocError>
        ensures { OnOk result (self.new ≡ tallied self.old) }
    {
        if !self.is_report {
            return Ok(());
        }
        let fields = tally_fields(self.alloc, &self.tally)?;
        let level = if self.tally.failed == 0 {
            Level::Info
        } else {
            Level::Error
        };
        self.event(level, fields, None)
    }

    // Closes the suites that are open, the innermost first.
    fn close_suites(&mut self) -> Result<(), AllocError>
        ensures { OnOk result (self.new ≡ suites_closed self.old) }
    {
        for _suite in 0..self.suites.len() {
            self.close_suite()?;
        }
        Ok(())
    }

    fn close_suite(&mut self) -> Result<(), AllocError>
        ensures { OnOk result (self.new ≡ suite_closed self.old) }
    {
        match self.suites.pop() {
            Some(suite) => self.cut_with(&suite),
            None => Ok(()),
        }
    }

    // Closes a suite that the document ends in. It is shown if a case is open in it.
    fn cut_with(&mut self, suite: &Suite) -> Result<(), AllocError>
        ensures { OnOk result (self.new ≡ cut_with suite.now self.old) }
    {
        if self.is_suite_hidden(suite) && !self.in_case {
            self.hide_suite(suite);
            return Ok(());
        }
        self.close(suite.span, self.innermost_span())
    }
}

// Returns the last event.
fn tally_fields(alloc: Global, tally: &Tally) -> Result<Fields, AllocError>
    ensures { IfOk result (λ fields. fields ≡ tally_fields tally.now) }
{
    let mut fields = Fields::one(alloc, count_field(alloc, "passed", tally.passed)?);
    fields.append(Fields::one(alloc, count_field(alloc, "failed", tally.failed)?))?;
    fields.append(Fields::one(alloc, count_field(alloc, "skipped", tally.skipped)?))?;
    Ok(fields)
}

fn count_field(alloc: Global, name: &str, count: u64) -> Result<Field, AllocError>
    ensures { IfOk result (λ field. field ≡ whole_field name.now (pos count)) }
{
    Field::whole(alloc, name, i128::from(count))
}
