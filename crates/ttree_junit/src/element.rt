//! The elements of JUnit XML, and their attributes.

ghost use Rattle.std.specs.Prelude.{◌≡◌};
ghost use Rattle.ttree_source.specs.Marks.{begins};
ghost use Rattle.ttree_junit.specs.Element.{attribute_in, begins_document, element_named, is_of_report, is_off, role_of};

use tracing_tree_base::field::Field;
use ttree_source::marks::after_mark;

// What an element is.
#[derive(Clone, Copy, Debug, PartialEq, Eq)]
pub(crate) enum Element {
    Suite,
    Case,

    // A failure or an error.
    Failure,

    // A failure of a run that was repeated.
    Rerun,
    Skipped,

    // What a case or a suite printed.
    Output,
    Property,
    Other,
}

pub(crate) fn element_named(name: &str) -> Element
    ensures { result ≡ element_named name.now }
{
    match name {
        "testsuite" => Element::Suite,
        "testcase" => Element::Case,
        "failure" | "error" => Element::Failure,
        "flakyFailure" | "flakyError" | "rerunFailure" | "rerunError" => Element::Rerun,
        "skipped" => Element::Skipped,
        "system-out" | "system-err" => Element::Output,
        "property" => Element::Property,
        _ => Element::Other,
    }
}

// Returns the role of an element at its place. A part of a case contains only its text, and a case
// contains no case or suite. Only a case is skipped or repeated.
pub(crate) fn role_of(element: Element, in_case: bool, in_part: bool) -> Element
    ensures { result ≡ role_of element in_case in_part }
{
    if in_part {
        return Element::Other;
    }
    match element {
        Element::Suite | Element::Case if in_case => Element::Other,
        Element::Rerun | Element::Skipped if !in_case => Element::Other,
        _ => element,
    }
}

// Returns whether an element of this name is part of a report in JUnit XML.
pub(crate) fn is_of_report(name: &str) -> bool
    ensures { result ≡ is_of_report name.now }
{
    name == "testsuites" || name == "testsuite" || name == "testcase"
}

// Returns whether a document begins here: with a declaration, a comment or an element of a report.
pub(crate) fn begins_document(text: &str) -> bool
    ensures { result ≡ begins_document text.now }
{
    begins("<testsuite", text)
        || begins("<testcase", text)
        || begins("<?xml", text)
        || begins("<!--", text)
        || begins("<!DOCTYPE", text)
}

fn begins(mark: &str, text: &str) -> bool
    ensures { result ≡ begins mark.now text.now }
{
    after_mark(text, mark).is_some()
}

// Returns the value of the first attribute with this name. It is empty if there isn't one.
pub(crate) fn attribute_in<'a>(name: &str, attributes: &'a [Field]) -> &'a str
    ensures { result.now ≡ attribute_in name.now attributes.now }
{
    for attribute in attributes {
        if attribute.name.as_str() == name {
            return attribute.value.as_str();
        }
    }
    ""
}

// Returns whether a case of this status wasn't run.
pub(crate) fn is_off(status: &str) -> bool
    ensures { result ≡ is_off status.now }
{
    status == "disabled" || status == "notrun" || status == "skipped"
}
