//! Subtests: spans by their columns.

ghost use Rattle.std.specs.Prelude.{◌≡◌, [], IfOk, OnOk, None};
ghost use Rattle.ttree_tap.specs.Tap.{come, come_to, deepened, deeper_left, inner_column, inner_left, is_nested, new_subtest, script, script_closed, subtest_left, subtest_opened};

use super::Tap;
use super::braces::Braced;
use std::alloc::{AllocError, Global};
use std::mem;
use tracing_tree_base::Id;
use tracing_tree_base::text::Text;

// A subtest that runs, or the script.
#[derive(Drop)]
pub(crate) struct Subtest {
    // The column of its lines.
    pub(crate) column: usize,
    pub(crate) span: Option<Id>,
    pub(crate) name: Text,
    // How many tests its plan has.
    pub(crate) planned: Option<u64>,
    // How many results it has.
    pub(crate) ran: u64,
    // The number of the last.
    pub(crate) last: u64,
    // The result of a subtest in braces.
    pub(crate) result: Option<Braced>,
}

// The name of a subtest that isn't open yet, and its column.
#[derive(Drop)]
pub(crate) struct Heading {
    pub(crate) column: usize,
    pub(crate) name: Text,
}

impl Subtest {
    // Returns a script without a span.
    pub(crate) fn script(alloc: Global) -> Result<Subtest, AllocError>
        ensures { IfOk result (λ made. made ≡ script) }
    {
        let name = Text::from_str(alloc, "")?;
        Ok(Subtest::new(0, None, name))
    }

    pub(crate) fn new(column: usize, span: Option<Id>, name: Text) -> Subtest
        ensures { result ≡ new_subtest column span name }
    {
        Subtest {
            column,
            span,
            name,
            planned: None,
            ran: 0,
            last: 0,
            result: None,
        }
    }
}

impl Tap {
    // Opens the subtest that the line before named, if this column is deeper than its name.
    #[tactic(auto, unfolding(crate::specs::Tap::come))]
    pub(super) fn come(&mut self, column: usize) -> Result<(), AllocError>
        ensures { OnOk result (self.new ≡ come column self.old) }
    {
        match mem::replace(&mut self.heading, None) {
            Some(heading) => self.come_to(heading, column),
            None => Ok(()),
        }
    }

    fn come_to(&mut self, heading: Heading, column: usize) -> Result<(), AllocError>
        ensures { OnOk result (self.new ≡ come_to heading column self.old) }
    {
        if heading.column < column {
            return self.open_subtest(inner_column(&heading, column), heading.name);
        }
        self.heading = Some(heading);
        Ok(())
    }

    // Opens a subtest in the current one.
    #[tactic(auto, unfolding(crate::specs::Tap::subtest_opened))]
    pub(super) fn open_subtest(&mut self, column: usize, name: Text) -> Result<(), AllocError>
        ensures { OnOk result (self.new ≡ subtest_opened column name self.old) }
    {
        let span = self.open(name.as_str(), self.subtest.span)?;
        let parent = mem::replace(&mut self.subtest, Subtest::new(column, span, name));
        Ok(self.outer.push_front(parent)?)
    }

    // Opens a subtest without a name, if this column is deeper than the current one.
    #[tactic(auto, unfolding(crate::specs::Tap::deepened))]
    pub(super) fn deepen(&mut self, column: usize) -> Result<(), AllocError>
        ensures { OnOk result (self.new ≡ deepened column self.old) }
    {
        if self.subtest.column < column {
            let name = Text::from_str(self.alloc, "subtest")?;
            return self.open_subtest(column, name);
        }
        Ok(())
    }

    // Leaves the subtests deeper than this column.
    #[tactic(auto, unfolding(crate::specs::Tap::deeper_left))]
    pub(super) fn leave_deeper(&mut self, column: usize) -> Result<(), AllocError>
        ensures { OnOk result (self.new ≡ deeper_left column self.old) }
    {
        self.leave_inner(column)?;
        if column < self.subtest.column {
            return self.leave();
        }
        Ok(())
    }

    // Leaves the subtests of those that are deeper than this column.
    pub(super) fn leave_inner(&mut self, column: usize) -> Result<(), AllocError>
        ensures { OnOk result (self.new ≡ inner_left column self.old.outer self.old) }
    {
        while self.is_nested(column) {
            self.leave()?;
        }
        Ok(())
    }

    // Returns whether the parent of the current subtest is deeper than this column.
    fn is_nested(&self, column: usize) -> bool
        ensures { result ≡ is_nested column self.now.outer }
    {
        match self.outer.front() {
            Some(parent) => column < parent.column,
            None => false,
        }
    }

    // Leaves a subtest that has no result.
    pub(super) fn leave(&mut self) -> Result<(), AllocError>
        ensures { OnOk result (self.new ≡ subtest_left self.old) }
    {
        let Some(parent) = self.outer.pop_front() else {
            return Ok(());
        };
        let subtest = mem::replace(&mut self.subtest, parent);
        self.push_error("unfinished", subtest.span)?;
        self.close_if(subtest.span, self.subtest.span)
    }

    // Ends the script or the file.
    #[tactic(auto, unfolding(crate::specs::Tap::script_closed))]
    pub(super) fn close_script(&mut self) -> Result<(), AllocError>
        ensures { OnOk result (self.new ≡ script_closed self.old) }
    {
        let subtest = mem::replace(&mut self.subtest, Subtest::script(self.alloc)?);
        self.check_script(subtest.planned, subtest.ran, subtest.span)?;
        self.close_if(subtest.span, None)
    }
}

// Returns the column of a subtest's lines, by its name and its first line.
pub(super) fn inner_column(heading: &Heading, column: usize) -> usize
    ensures { result ≡ inner_column heading.now column }
{
    column.min(heading.column.saturating_add(4))
}
