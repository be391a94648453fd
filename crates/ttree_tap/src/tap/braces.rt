//! Subtests in braces.

ghost use Rattle.std.specs.Prelude.{◌≡◌, [], OnOk, None};
ghost use Rattle.ttree_tap.specs.Tap.{brace_ended, brace_taken, braces_opened, held_taken, line_place, opened_inside, result_beside, result_held, unheld_taken};

use super::Tap;
use super::results::{Mark, name_in};
use super::subtests::{Heading, inner_column};
use crate::line::{Kind, begins_inside, is_braced, kind_of, unbraced};
use crate::strings::{column_of, unescaped, without_leading};
use std::alloc::AllocError;
use std::mem;
use tracing_tree_base::text::Text;

// A result with a brace at its end, and what follows its `ok`.
#[derive(Drop)]
pub(crate) struct Braced {
    pub(crate) mark: Mark,
    pub(crate) rest: Text,
}

// Where the line after such a result is.
#[derive(Clone, Copy)]
pub(crate) enum Place {
    // In the braces.
    Inside,
    // The brace that ends them.
    After,
    // Beside the result: its brace belongs to the description.
    Beside,
}

impl Tap {
    // Takes a result that ends no subtest.
    pub(super) fn take_beside(&mut self, mark: Mark, rest: &str) -> Result<(), AllocError>
        ensures { OnOk result (self.new ≡ result_beside mark rest.now self.old) }
    {
        if is_braced(rest) {
            return self.hold(mark, rest);
        }
        self.wait_for(None, "", mark, rest)
    }

    // Holds a result until the next line.
    fn hold(&mut self, mark: Mark, rest: &str) -> Result<(), AllocError>
        ensures { OnOk result (self.new ≡ result_held mark rest.now self.old) }
    {
        let rest = Text::from_str(self.alloc, rest)?;
        self.braced = Some(Braced { mark, rest });
        Ok(())
    }

    // Takes the line after a result with a brace at its end.
    #[tactic(auto, unfolding(crate::specs::Tap::held_taken))]
    pub(super) fn take_held(&mut self, braced: Braced, text: &str) -> Result<(), AllocError>
        ensures { OnOk result (self.new ≡ held_taken braced text.now self.old) }
    {
        let mark = braced.mark;
        let inner = without_leading(' ', text);
        let column = column_of(text, inner);
        match place_of(mark.column, column, kind_of(inner)) {
            Place::Inside => {
                self.open_braces(braced, column)?;
                self.take_next(text)
            }
            Place::After => self.wait_for(None, "", mark, unbraced(braced.rest.as_str())),
            Place::Beside => {
                self.wait_for(None, "", mark, braced.rest.as_str())?;
                self.take_unheld(text)
            }
        }
    }

    // Opens the subtest in braces, by its result and the column of its first line.
    #[tactic(auto, unfolding(crate::specs::Tap::braces_opened))]
    fn open_braces(&mut self, braced: Braced, column: usize) -> Result<(), AllocError>
        ensures { OnOk result (self.new ≡ braces_opened braced column self.old) }
    {
        let heading = Heading {
            column: braced.mark.column,
            name: unescaped(self.alloc, name_in(unbraced(braced.rest.as_str())))?,
        };
        self.open_inside(braced, heading, column)
    }

    fn open_inside(
        &mut self,
        braced: Braced,
        heading: Heading,
        column: usize,
    ) -> Result<(), AllocError>
        ensures { OnOk result (self.new ≡ opened_inside braced heading column self.old) }
    {
        self.open_subtest(inner_column(&heading, column), heading.name)?;
        self.subtest.result = Some(braced);
        Ok(())
    }

    // Takes a brace. It ends the subtest whose result is in its column.
    #[tactic(auto, unfolding(crate::specs::Tap::brace_taken))]
    pub(super) fn take_brace(&mut self, column: usize, text: &str) -> Result<(), AllocError>
        ensures { OnOk result (self.new ≡ brace_taken column text.now self.old) }
    {
        match mem::replace(&mut self.subtest.result, None) {
            Some(braced) if braced.mark.column == column => {
                self.heading = None;
                self.end_subtest(braced.mark, unbraced(braced.rest.as_str()))
            }
            other => {
                self.subtest.result = other;
                self.take_output(text)
            }
        }
    }

    // Ends a result with a brace at its end, if it is the last line.
    #[tactic(auto, unfolding(crate::specs::Tap::brace_ended))]
    pub(super) fn end_brace(&mut self) -> Result<(), AllocError>
        ensures { OnOk result (self.new ≡ brace_ended self.old) }
    {
        match mem::replace(&mut self.braced, None) {
            Some(braced) => self.wait_for(None, "", braced.mark, braced.rest.as_str()),
            None => Ok(()),
        }
    }
}

// Returns where a line of this kind in the column `other` is, after a result in this column.
fn place_of(column: usize, other: usize, kind: Kind) -> Place
    ensures { result ≡ line_place column other kind }
{
    if column < other && begins_inside(kind) {
        Place::Inside
    } else if column == other && matches!(kind, Kind::Brace) {
        Place::After
    } else {
        Place::Beside
    }
}
