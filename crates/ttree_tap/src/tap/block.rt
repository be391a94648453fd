//! The block behind a result.

ghost use Rattle.std.specs.Prelude.{◌≡◌, IfOk, OnOk};
ghost use Rattle.ttree_tap.specs.Tap.{after_taken, block_begun, block_taken, detail_taken, inside_taken, outside_taken, result_timed, spanned, waits, with_own_span};
ghost use Rattle.ttree_tap.specs.Texts.{begins_block, duration_of};

use super::Tap;
use super::waiting::Waiting;
use crate::length::milliseconds;
use crate::queue::Role;
use crate::strings::{column_of, first_part, without_leading};
use std::alloc::AllocError;
use tracing_tree_base::text::Text;
use ttree_source::length::length_text;
use ttree_source::marks::after_mark;

impl Tap {
    // Takes a line after a result that waits, or in its block.
    #[tactic(auto, unfolding(crate::specs::Tap::after_taken))]
    pub(super) fn take_after(&mut self, waiting: Waiting, text: &str) -> Result<(), AllocError>
        ensures { OnOk result (self.new ≡ after_taken waiting text.now self.old) }
    {
        if !waiting.margin.as_str().is_empty() {
            return self.take_block(waiting, text);
        }
        if begins_block(waiting.column, text) {
            return self.begin_block(waiting, text);
        }
        self.finish(waiting)?;
        self.take_next(text)
    }

    fn begin_block(&mut self, waiting: Waiting, text: &str) -> Result<(), AllocError>
        ensures { OnOk result (self.new ≡ block_begun waiting text.now self.old) }
    {
        let margin = Text::from_str(self.alloc, first_part('-', text))?;
        self.wait(Waiting { margin, ..waiting });
        Ok(())
    }

    fn wait(&mut self, waiting: Waiting)
        ensures { self.new ≡ waits waiting self.old }
    {
        self.waiting = Some(waiting);
    }

    // Takes a line in the block of a result.
    #[tactic(auto, unfolding(crate::specs::Tap::block_taken))]
    fn take_block(&mut self, waiting: Waiting, text: &str) -> Result<(), AllocError>
        ensures { OnOk result (self.new ≡ block_taken waiting text.now self.old) }
    {
        match after_mark(text, waiting.margin.as_str()) {
            Some(rest) => self.take_inside(waiting, rest),
            None => self.take_outside(waiting, text),
        }
    }

    // Takes a line as deep as the block, without its margin.
    #[tactic(auto, unfolding(crate::specs::Tap::inside_taken))]
    fn take_inside(&mut self, waiting: Waiting, rest: &str) -> Result<(), AllocError>
        ensures { OnOk result (self.new ≡ inside_taken waiting rest.now self.old) }
    {
        if rest == "..." {
            return self.finish(waiting);
        }
        match duration_of(rest) {
            Some(nanoseconds) => self.time(waiting, nanoseconds),
            None => self.push_detail(waiting, rest),
        }
    }

    fn time(&mut self, waiting: Waiting, nanoseconds: u64) -> Result<(), AllocError>
        ensures { OnOk result (self.new ≡ result_timed waiting nanoseconds self.old) }
    {
        let elapsed = length_text(self.alloc, nanoseconds)?;
        self.wait(Waiting { elapsed, ..waiting });
        Ok(())
    }

    // Takes a line that isn't as deep as the block: the block is truncated, unless the line is
    // blank.
    #[tactic(auto, unfolding(crate::specs::Tap::outside_taken))]
    fn take_outside(&mut self, waiting: Waiting, text: &str) -> Result<(), AllocError>
        ensures { OnOk result (self.new ≡ outside_taken waiting text.now self.old) }
    {
        if without_leading(' ', text).is_empty() {
            return self.push_detail(waiting, "");
        }
        self.finish(waiting)?;
        self.take_next(text)
    }

    // Adds a line of a block, as an event in the span of its result.
    #[tactic(auto, unfolding(crate::specs::Tap::detail_taken))]
    fn push_detail(&mut self, waiting: Waiting, text: &str) -> Result<(), AllocError>
        ensures { OnOk result (self.new ≡ detail_taken waiting text.now self.old) }
    {
        let waiting = self.with_span(waiting)?;
        self.push_line(Role::Output, text, waiting.span)?;
        self.wait(waiting);
        Ok(())
    }

    // Opens the span of a result, unless it has one.
    fn with_span(&mut self, waiting: Waiting) -> Result<Waiting, AllocError>
        ensures made { IfOk result (λ made. made ≡ with_own_span waiting self.old) }
        ensures after { OnOk result (self.new ≡ spanned waiting self.old) }
    {
        if waiting.span.is_some() {
            return Ok(waiting);
        }
        let span = self.open(waiting.label.as_str(), waiting.parent)?;
        let label = Text::from_str(self.alloc, "")?;
        Ok(Waiting {
            span,
            label,
            ..waiting
        })
    }
}

// Returns whether the block of a result in this column begins.
fn begins_block(column: usize, text: &str) -> bool
    ensures { result ≡ begins_block column text.now }
{
    let inner = without_leading(' ', text);
    inner == "---" && column_of(text, inner) == column.saturating_add(2)
}

// Returns the nanoseconds that a line of a block says, if it says how long its test took.
fn duration_of(rest: &str) -> Option<u64>
    ensures { result ≡ duration_of rest.now }
{
    milliseconds(without_leading(' ', after_mark(rest, "duration_ms:")?))
}
