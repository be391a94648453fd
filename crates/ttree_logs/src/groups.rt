//! The spans of groups.

ghost use Rattle.std.specs.Prelude.{◌≡◌, [], IfErr, IfOk, None, OnOk, Some};
ghost use Rattle.ttree_logs.specs.Groups.{group_span, span_if_last, with_group_span};

use std::alloc::{AllocError, Global};
use std::collections::BTreeMap;
use std::marker::Model;
use tracing_tree_base::Id;

// A group that was found.
#[derive(Drop)]
struct Found {
    key: Vec<u8>,
    span: Id,
}

// The spans of groups by the groups' keys.
#[derive(Drop)]
pub(crate) struct Groups {
    entries: BTreeMap<Vec<u8>, Id>,
    // The group that was found last: lines of one group often come one after another.
    last: Option<Found>,
}

impl Model for Groups {
    ghost use Rattle.std.specs.Prelude.{ℕ, List};
    ghost use Rattle.tracing_tree_base.specs.declared.context.Id.{Id};
    ghost use Rattle.ttree_logs.specs.Groups.{Holds, by_bytes};

    ghost Value = { List (List ℕ × Id) };

    ghost view = { λ g. by_bytes g.entries.entries };

    ghost invariant = { λ g. Holds g.last (by_bytes g.entries.entries) };
}

impl Groups {
    pub(crate) fn new(alloc: Global) -> Groups
        ensures { result ≡ [] }
    {
        Groups {
            entries: BTreeMap::new(alloc),
            last: None,
        }
    }

    // Returns the span of the group with this key, or the key if there is no such group.
    pub(crate) fn find(&mut self, key: Vec<u8>) -> Result<Id, Vec<u8>>
        ensures found { IfOk result (λ span. group_span key.items self.old ≡ Some span) }
        ensures missing { IfErr result (λ missing. (group_span key.items self.old ≡ None)
            × (missing.items ≡ key.items)) }
        ensures unchanged { self.new ≡ self.old }
    {
        if let Some(span) = span_if_last(&self.last, key.as_slice()) {
            return Ok(span);
        }
        let Some(span) = self.entries.get(key.as_slice()).copied() else {
            return Err(key);
        };
        self.last = Some(Found { key, span });
        Ok(span)
    }

    // Keeps the span of the group with this key.
    pub(crate) fn put(&mut self, key: Vec<u8>, span: Id) -> Result<(), AllocError>
        ensures { OnOk result (self.new ≡ with_group_span key.items span self.old) }
    {
        self.last = None;
        self.entries.insert(key, span)?;
        Ok(())
    }
}

// Returns the span of the group that was found last, if it has this key.
fn span_if_last(last: &Option<Found>, key: &[u8]) -> Option<Id>
    ensures { result ≡ span_if_last key.now last.now }
{
    match last {
        Some(last) if last.key.as_slice() == key => Some(last.span),
        Some(_) | None => None,
    }
}
