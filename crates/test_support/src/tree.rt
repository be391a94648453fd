//! A tree drawn into memory, by functions without contracts: a test that calls them is proved
//! quickly.

use crate::{Answer, Step, calls, first_unlike};
use std::alloc::{AllocError, Global};
use std::str;
use tracing_tree::format::{Id, Tape};
use tracing_tree::layer::HierarchicalLayer;
use tracing_tree::layered::Layered;

/// The settings of a layer.
#[derive(Clone, Copy)]
pub struct Settings {
    pub amount: usize,
    pub lines: bool,
    pub span_modes: bool,
    pub verbose_entry: bool,
    pub verbose_exit: bool,
    pub deferred_spans: bool,
    pub span_retrace: bool,
    pub close_retrace: bool,
}

/// Lines, and an amount of 2.
pub const LINED: Settings = Settings {
    amount: 2,
    lines: true,
    span_modes: false,
    verbose_entry: false,
    verbose_exit: false,
    deferred_spans: false,
    span_retrace: false,
    close_retrace: false,
};

/// A layered over memory. It is boxed, since each step of a test is proved over everything that its
/// values contain.
#[derive(Drop)]
pub struct Tree {
    layered: Box<Layered<Tape, ()>>,
}

impl Tree {
    /// Returns a tree without calls. The first id is 1.
    pub fn new(alloc: Global, settings: Settings) -> Result<Tree, AllocError> {
        Tree::starting_at(alloc, 1, settings)
    }

    /// Returns a tree without calls. The first id is `first`.
    pub fn starting_at(alloc: Global, first: u64, settings: Settings) -> Result<Tree, AllocError> {
        let layer = HierarchicalLayer::new(alloc, settings.amount, false, Tape::new(alloc))
            .with_indent_lines(settings.lines)
            .with_span_modes(settings.span_modes)
            .with_verbose_entry(settings.verbose_entry)
            .with_verbose_exit(settings.verbose_exit)
            .with_deferred_spans(settings.deferred_spans)
            .with_span_retrace(settings.span_retrace)
            .with_close_retrace(settings.close_retrace);
        let layered = Box::new(alloc, Layered::starting_at(alloc, first, layer))?;
        Ok(Tree { layered })
    }

    /// Runs the calls of these steps.
    pub fn run(&mut self, alloc: Global, steps: &[Step<'_>]) -> Result<Vec<Answer>, AllocError> {
        self.layered.run(alloc, calls(alloc, steps)?)
    }

    /// Makes the calls up to the first whose answer isn't the expected one. Returns that call's
    /// index and its answer.
    pub fn first_unlike(
        &mut self,
        alloc: Global,
        steps: &[(Step<'_>, Answer)],
    ) -> Result<Option<(usize, Answer)>, AllocError> {
        first_unlike(alloc, &mut self.layered, steps)
    }

    /// Returns what was written.
    pub fn text(&self) -> &[u8] {
        self.layered.writer().bytes()
    }

    /// Returns the last span.
    pub fn last_span(&self) -> Option<Id> {
        self.layered.layer().last_span()
    }

    /// Returns whether the layer has failed.
    pub fn failed(&self) -> bool {
        self.layered.layer().failed()
    }
}

/// Returns the drawing of these steps, which must all be accepted. If one is refused, returns a
/// string that says so.
pub fn drawn(alloc: Global, settings: Settings, steps: &[Step<'_>]) -> Result<String, AllocError> {
    let mut tree = Tree::new(alloc, settings)?;
    let answers = tree.run(alloc, steps)?;
    if answers.iter().any(|answer| answer.is_err()) {
        return String::from_str(alloc, "a call is refused");
    }
    let text = str::from_utf8(tree.text()).unwrap_or("not UTF-8");
    String::from_str(alloc, text)
}
