//! A place in the list of spans.

ghost use Rattle.std.specs.Prelude.{◌≡◌, option_copied};
ghost use Rattle.tracing_tree_spans.specs.Registry.Slots.{slot_id, slot_node, is_gone};

use super::node::Node;
use tracing_tree_base::Id;

// A place in the list: a live span, or the gap that a removed span left.
#[derive(Drop)]
pub(crate) enum Slot {
    Live(Node),
    Gone(Id),
}

impl Slot {
    pub(crate) fn id(&self) -> Id
        ensures { result ≡ slot_id self.now }
    {
        match self {
            Slot::Live(node) => node.id(),
            Slot::Gone(id) => *id,
        }
    }

    pub(crate) fn node(&self) -> Option<&Node>
        ensures { option_copied result ≡ slot_node self.now }
    {
        match self {
            Slot::Live(node) => Some(node),
            Slot::Gone(_) => None,
        }
    }

    pub(crate) fn is_gone(&self) -> bool
        ensures { result ≡ is_gone self.now }
    {
        matches!(self, Slot::Gone(_))
    }
}
