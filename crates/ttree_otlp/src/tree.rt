//! The rows of an input, drawn one after another.

ghost use Rattle.std.specs.Prelude.{◌≡◌, IfOk, false, option_map};
ghost use Rattle.ttree_otlp.specs.Draw.{begun_tree};
ghost use Rattle.ttree_otlp.specs.Keyed.{has_none};
ghost use Rattle.ttree_otlp.specs.Tree.{ReturnsCalls, calls_of_tree};
ghost use Rattle.ttree_source.specs.Source.{Accepts, MakesAll};

use crate::draw::Tree;
use crate::keyed::Rows;
use std::alloc::{AllocError, Global};
use std::marker::Model;
use tracing_tree_layer::call::Call;
use tracing_tree_layer::calls::Calls;
use tracing_tree_lines::lines::LineCause;
use tracing_tree_time::Moment;
use ttree_source::run::make;

/// What was read of an input and will be drawn.
///
/// It has the calls of one row after another and frees each row with its calls, so that drawing
/// takes little more memory than reading.
#[derive(Drop)]
pub struct OtlpTree {
    tree: Tree,
    rows: Rows,
    // Whether the calls after the last row were returned.
    is_ended: bool,
}

impl Model for OtlpTree {
    ghost use Rattle.ttree_otlp.specs.Tree.{TreeView};

    ghost Value = { TreeView };

    ghost view = { λ t. record {
      state = t.tree;
      rows = t.rows;
      is_ended = t.is_ended;
    } };
}

impl OtlpTree {
    pub(crate) fn new(alloc: Global, next: u64, moment: Moment, rows: Rows) -> OtlpTree
        ensures { result ≡ record {
          state = begun_tree next moment;
          rows = rows;
          is_ended = false;
        } }
    {
        OtlpTree {
            tree: Tree::new(alloc, next, moment),
            rows,
            is_ended: false,
        }
    }

    /// Returns whether no row is left.
    pub fn is_empty(&self) -> bool
        ensures { result ≡ has_none self.now.rows }
    {
        self.rows.is_empty()
    }

    /// Returns the first of the calls that are left: those of the next row, or those after the last
    /// one. Returns `None` if no calls are left.
    ///
    /// # Errors
    ///
    /// `AllocError` if an allocation fails. The calls of the row are lost then.
    pub fn next_calls(&mut self) -> Result<Option<Vec<Call>>, AllocError>
        ensures { IfOk result (λ calls.
            ReturnsCalls (option_map (λ some. some.items) calls) self.old self.new) }
    {
        if self.is_ended {
            return Ok(None);
        }
        match self.rows.take() {
            Some(row) => self.tree.draw_row(row)?,
            None => {
                self.is_ended = true;
                self.tree.finish()?;
            }
        }
        Ok(Some(self.tree.take_calls()))
    }

    /// Makes the calls that are left on `receiver`, one after another.
    ///
    /// # Errors
    ///
    /// Returns the refusal of the first call that is refused, and `LineCause::Memory` if an
    /// allocation fails. The calls before it have been made.
    pub fn make<C: Calls>(self, receiver: &mut C) -> Result<(), LineCause>
        ensures { MakesAll (Accepts C.answers C.flushes) C.answers (calls_of_tree self) result
            receiver.old receiver.new }
    {
        let mut tree = self;
        loop {
            let Ok(next) = tree.next_calls() else {
                return Err(LineCause::Memory);
            };
            let Some(calls) = next else {
                return Ok(());
            };
            if let Err(refusal) = make(calls, receiver) {
                return Err(LineCause::Refused(refusal));
            }
        }
    }
}
