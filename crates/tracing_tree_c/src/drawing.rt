//! What is behind a handle: a registry with a layer, and the spans that are entered.

ghost use Rattle.std.specs.Prelude.{◌≡◌};
ghost use Rattle.tracing_tree_c.specs.Trees.{IsCalled, blank, current_id, is_live_in, is_lost, with_time_text};

use crate::entered::Entered;
use crate::lent::Lent;
use crate::parts::ReadCall;
use crate::timer::{TreeTimer, Written};
use std::alloc::Global;
use tracing_tree_base::{Id, Refusal};
use tracing_tree_layer::call::Reply;
use tracing_tree_layer::layered::Layered;
use tracing_tree_spans::registry::LookupSpan;

/// A registry with a layer whose output is that of the last call, and the spans that are
/// entered.
#[derive(Drop)]
pub struct Drawing {
    pub layered: Layered<Lent, TreeTimer>,
    pub entered: Entered,
}

impl Drawing {
    // Returns the text of the last call.
    pub(crate) fn text(&self) -> &[u8]
        ensures { result.now ≡ self.now.layered.layer.writer.bytes }
    {
        self.layered.writer().bytes()
    }

    // Returns whether a span is live.
    pub(crate) fn is_live(&self, id: u64) -> bool
        ensures { result ≡ is_live_in self.now id }
    {
        self.layered.registry().data(Id(id)).is_some()
    }

    // Returns the id of the innermost entered span that is live, or 0.
    pub(crate) fn current(&self) -> u64
        ensures { result ≡ current_id self.now }
    {
        let mut entered = self.entered.as_slice();
        while let Some((id, outer)) = entered.split_first() {
            if self.is_live(*id) && !outer.contains(id) {
                return *id;
            }
            entered = outer;
        }
        0
    }

    // Clears the text of the last call, and keeps its capacity.
    #[inline(always)]
    pub(crate) fn clear(&mut self, alloc: Global)
        ensures { self.new ≡ blank self.old }
    {
        let before = self.layered.replace_writer(Lent::new(alloc));
        drop(self.layered.replace_writer(before.emptied()));
    }

    // Sets the strings that are shown as the time from now on.
    pub(crate) fn set_time(&mut self, alloc: Global, written: Written)
        ensures { self.new ≡ with_time_text written self.old }
    {
        self.clear(alloc);
        drop(self.layered.replace_timer(TreeTimer::Own(written)));
    }

    // Makes a call, after clearing the text of the last one. If the text of this call can't be
    // stored, memory has run out, and the tree is as if the call had not been made.
    #[inline(always)]
    #[tactic(auto, using(crate::proofs::Makes::lost_is))]
    pub(crate) fn call<T: ReadCall>(&mut self, alloc: Global, call: T) -> Result<Reply, Refusal>
        ensures { IsCalled (T.call call) result self.old self.new }
    {
        self.clear(alloc);
        let answer = call.make(&mut self.layered);
        if !is_lost(answer) {
            return answer;
        }
        drop(self.layered.recover(Lent::new(alloc)));
        Err(Refusal::Memory)
    }
}

// Returns whether the text of a call could not be stored.
fn is_lost(answer: Result<Reply, Refusal>) -> bool
    ensures { result ≡ is_lost answer }
{
    matches!(answer, Err(Refusal::Writer))
}
