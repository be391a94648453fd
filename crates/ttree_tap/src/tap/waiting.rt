//! A result that waits for its block.

ghost use Rattle.std.specs.Prelude.{◌≡◌, ◌++◌, IfOk, OnOk};
ghost use Rattle.ttree_tap.specs.Tap.{flushed, result_finished, role_in, role_of};
ghost use Rattle.ttree_tap.specs.Texts.{end_text, result_end_fields, value_field};

use super::Tap;
use crate::queue::Role;
use crate::tally::Verdict;
use std::alloc::{AllocError, Global};
use std::mem;
use tracing_tree_base::Id;
use tracing_tree_base::field::Field;
use tracing_tree_base::text::Text;
use ttree_source::calls::shown;

// A result that waits for its block.
#[derive(Drop)]
pub(crate) struct Waiting {
    pub(crate) column: usize,
    pub(crate) verdict: Verdict,
    // What follows the verdict's word, or nothing if the span has that name.
    pub(crate) label: Text,
    pub(crate) reason: Text,
    pub(crate) elapsed: Text,
    // The span of its subtest, or of its block.
    pub(crate) span: Option<Id>,
    pub(crate) parent: Option<Id>,
    // The spaces before the lines of its block; nothing before the block has begun.
    pub(crate) margin: Text,
}

impl Tap {
    // Ends the result that waits.
    #[tactic(auto, unfolding(crate::specs::Tap::flushed))]
    pub(super) fn flush(&mut self) -> Result<(), AllocError>
        ensures { OnOk result (self.new ≡ flushed self.old) }
    {
        match mem::replace(&mut self.waiting, None) {
            Some(waiting) => self.finish(waiting),
            None => Ok(()),
        }
    }

    // Ends a result.
    #[tactic(auto, unfolding(crate::specs::Tap::result_finished))]
    pub(super) fn finish(&mut self, waiting: Waiting) -> Result<(), AllocError>
        ensures { OnOk result (self.new ≡ result_finished waiting self.old) }
    {
        let text = end_text(self.alloc, waiting.verdict, waiting.label.as_str())?;
        let fields = end_fields(
            self.alloc,
            waiting.reason.as_str(),
            waiting.elapsed.as_str(),
        )?;
        self.claim_lines(waiting.label.as_str())?;
        let at = waiting.span.or(waiting.parent);
        let role = role_of(waiting.verdict, waiting.span);
        self.push_row(role, waiting.verdict.level(), text.as_str(), fields, at)?;
        self.close_if(waiting.span, waiting.parent)
    }
}

// Returns what a result says, which ends this span if there is one.
fn role_of(verdict: Verdict, span: Option<Id>) -> Role
    ensures { result ≡ role_of verdict span }
{
    match verdict {
        Verdict::Failed => Role::Failure,
        Verdict::Passed | Verdict::Skipped | Verdict::Todo => role_in(span),
    }
}

fn role_in(span: Option<Id>) -> Role
    ensures { result ≡ role_in span }
{
    match span {
        Some(_) => Role::End,
        None => Role::Good,
    }
}

// The bytes of the longest word of a verdict, with a space.
const LONGEST: usize = 5;

fn end_text(alloc: Global, verdict: Verdict, label: &str) -> Result<Text, AllocError>
    ensures { IfOk result (λ text. text ≡ end_text verdict label.now) }
{
    if label.is_empty() {
        return Text::from_str(alloc, verdict.word());
    }
    let mut text = String::with_capacity(alloc, label.len().saturating_add(LONGEST))?;
    text.push_str(verdict.word())?;
    text.push_str(" ")?;
    text.push_str(label)?;
    Ok(Text::from(text))
}

pub(super) fn end_fields(
    alloc: Global,
    reason: &str,
    elapsed: &str,
) -> Result<Vec<Field>, AllocError>
    ensures { IfOk result (λ fields. fields.items ≡ result_end_fields reason.now elapsed.now) }
{
    let mut fields = Vec::new(alloc);
    push_field(alloc, &mut fields, "reason", reason)?;
    push_field(alloc, &mut fields, "time", elapsed)?;
    Ok(fields)
}

// Appends a field with this value, if there is one.
pub(super) fn push_field(
    alloc: Global,
    fields: &mut Vec<Field>,
    name: &str,
    value: &str,
) -> Result<(), AllocError>
    ensures { OnOk result (fields.new.items ≡ fields.old.items ++ value_field name.now value.now) }
{
    if value.is_empty() {
        return Ok(());
    }
    let field = Field {
        name: Text::from_str(alloc, name)?,
        value: shown(alloc, value)?,
    };
    Ok(fields.push(field)?)
}
