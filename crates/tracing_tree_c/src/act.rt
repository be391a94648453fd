//! What C does with a tree.

ghost use Rattle.tracing_tree_c.specs.Parts.{call_of_close, call_of_event, call_of_new};
ghost use Rattle.tracing_tree_c.specs.Trees.{Enters, Exits, IsCalled, SetsTime};

use crate::drawing::Drawing;
use crate::parts::{Close, LentEvent, NewSpan};
use crate::timer::Written;
use std::alloc::Global;
use tracing_tree_base::{Id, Refusal};
use tracing_tree_layer::call::{Call, Reply};

/// Something that C does with a tree.
pub trait Act {
    ghost use Rattle.std.specs.Prelude.{Result};
    ghost use Rattle.tracing_tree_base.specs.declared.context.Refusal.{Refusal};
    ghost use Rattle.tracing_tree_layer.specs.declared.call.Reply.{Reply};
    ghost use Rattle.tracing_tree_c.specs.declared.drawing.Drawing.{Drawing};

    /// Which answers it may get, and what each leaves.
    ghost does: { Self → Result Reply Refusal → Drawing → Drawing → Type 0 };

    /// Does it.
    fn act(self, alloc: Global, drawing: &mut Drawing) -> Result<Reply, Refusal>
        ensures { does self result drawing.old drawing.new };
}

impl Act for Call {
    ghost does = { IsCalled };

    #[inline(always)]
    fn act(self, alloc: Global, drawing: &mut Drawing) -> Result<Reply, Refusal> {
        drawing.call(alloc, self)
    }
}

impl Act for NewSpan {
    ghost does = { λ parts. IsCalled (call_of_new parts) };

    #[inline(always)]
    fn act(self, alloc: Global, drawing: &mut Drawing) -> Result<Reply, Refusal> {
        drawing.call(alloc, self)
    }
}

impl Act for LentEvent<'_> {
    ghost does = { λ parts. IsCalled (call_of_event parts) };

    #[inline(always)]
    fn act(self, alloc: Global, drawing: &mut Drawing) -> Result<Reply, Refusal> {
        drawing.call(alloc, self)
    }
}

impl Act for Close {
    ghost does = { λ parts. IsCalled (call_of_close parts) };

    #[inline(always)]
    fn act(self, alloc: Global, drawing: &mut Drawing) -> Result<Reply, Refusal> {
        drawing.call(alloc, self)
    }
}

/// Shows these strings as the time from now on.
impl Act for Written {
    ghost does = { SetsTime };

    fn act(self, alloc: Global, drawing: &mut Drawing) -> Result<Reply, Refusal> {
        drawing.set_time(alloc, self);
        Ok(Reply::Done)
    }
}

/// Enters a span.
#[derive(Drop)]
pub struct Enter(pub u64);

impl Act for Enter {
    ghost does = { λ enter. Enters enter.0 };

    fn act(self, alloc: Global, drawing: &mut Drawing) -> Result<Reply, Refusal> {
        let Enter(id) = self;
        drawing.clear(alloc);
        if !drawing.is_live(id) {
            return Err(Refusal::NotHeld(Id(id)));
        }
        drawing.entered.push(id)?;
        Ok(Reply::Done)
    }
}

/// Exits a span.
#[derive(Drop)]
pub struct Exit(pub u64);

impl Act for Exit {
    ghost does = { λ exit. Exits exit.0 };

    fn act(self, alloc: Global, drawing: &mut Drawing) -> Result<Reply, Refusal> {
        let Exit(id) = self;
        drawing.clear(alloc);
        if drawing.entered.remove(id) {
            return Ok(Reply::Done);
        }
        Err(Refusal::NotHeld(Id(id)))
    }
}
