//! The spans that are entered.

ghost use Rattle.std.specs.Prelude.{◌≡◌, ◌∷◌, [], OnOk, OnErr};
ghost use Rattle.tracing_tree_c.specs.Entered.{entry_place, is_among, without_last};

use std::alloc::{AllocError, Global};
use std::marker::Model;

/// The ids of the spans that are entered, which contracts see as a list. The last entry comes
/// first. An id may be in the list several times.
#[derive(Drop)]
pub struct Entered {
    ids: Vec<u64>,
}

impl Model for Entered {
    ghost use Rattle.std.specs.Prelude.{List, ℕ};

    ghost Value = { List ℕ };

    ghost view = { λ e. e.ids.items };
}

impl Entered {
    /// Returns no entries. Never allocates.
    pub fn new(alloc: Global) -> Entered
        ensures { result ≡ [] }
    {
        Entered {
            ids: Vec::new(alloc),
        }
    }

    /// Returns the ids, the last entry first.
    pub fn as_slice(&self) -> &[u64]
        ensures { result.now ≡ self.now }
    {
        self.ids.as_slice()
    }

    /// Adds an entry.
    ///
    /// # Errors
    ///
    /// `AllocError` if an allocation fails. The entries are unchanged then.
    pub fn push(&mut self, id: u64) -> Result<(), AllocError>
        ensures ok { OnOk result (self.new ≡ id ∷ self.old) }
        ensures err { OnErr result (self.new ≡ self.old) }
    {
        self.ids.insert(0, id)?;
        Ok(())
    }

    /// Removes the last entry into a span. Returns whether there was one.
    pub fn remove(&mut self, id: u64) -> bool
        ensures removed { result ≡ is_among id self.old }
        ensures entries { self.new ≡ without_last id self.old }
    {
        match place_of(self.ids.as_slice(), id) {
            Some(place) => {
                self.ids.remove(place);
                true
            }
            None => false,
        }
    }
}

// Returns the place of the last entry into a span.
fn place_of(ids: &[u64], id: u64) -> Option<usize>
    ensures { result ≡ entry_place id 0 ids.now }
{
    let mut place = 0;
    let mut rest = ids;
    while let Some((last, before)) = rest.split_first() {
        if *last == id {
            return Some(place);
        }
        place += 1;
        rest = before;
    }
    None
}
